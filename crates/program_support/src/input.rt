// Reading standard input, or another reader.
ghost use Rattle.std.specs.Prelude.{◌≤◌, length, IfOk, OnErr};
ghost use Rattle.program_support.specs.Input.{ReadFull, ReadSome};

use std::io;
use std::io::Read;

// Reads until the buffer is full or the input ends: how many bytes were put at its start. If a read fails, what was
// read before stands there.
pub fn read_full<R: Read>(input: &mut R, buffer: &mut [u8]) -> io::Result<usize>
    ensures within { IfOk result (λ n. n ≤ length buffer.new) }
    ensures bytes { IfOk result (λ n. ReadFull (R.remaining input.old) (R.remaining input.new) n buffer.new) }
    ensures err { OnErr result (ReadSome (R.remaining input.old) (R.remaining input.new) buffer.new) }
{
    // `read_exact` and `read_to_end` do not say what stands in the buffer when a read fails.
    let mut done = 0;
    while done < buffer.len() {
        let n = input.read(&mut buffer[done..])?;
        if n == 0 {
            break;
        }
        done += n;
    }
    Ok(done)
}
