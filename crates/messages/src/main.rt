// Prints the message of each error in the module on standard input, a line an error, or why the module is turned back.
// It lends what document 01's report program lends, a working word a row, and room for the longest text.
#![tactic(auto)]

ghost use Rattle.std.specs.Prelude.{◌≡◌, replicate};

use program_support::input::read_full;
use program_support::loans;
use program_support::print::print_refused;
use std::io;
use type_check::{Counts, type_check_module};

// Room for the longest text.
const ROOM: usize = text::LONGEST as usize;

// Prints the first bytes of a text.
fn print_text(out: &impl Print, text: &[u8], length: usize) -> io::Result<()> {
    out.write_all(&text[..length.min(text.len())])
}

// A text of as many bytes. So long a list of zeros stops the check where more is known beside it.
fn blank_text() -> [u8; ROOM]
    ensures { result ≡ replicate 1048576 0 }
{
    [0; ROOM]
}

// Prints the messages of a module that is checked.
fn print_accepted(
    out: &impl Print,
    input: &[u8],
    counts: Counts,
    rows: &[u32],
    errors: &[u32],
) -> io::Result<()> {
    let mut work = [0u32; loans::ROW_COUNT];
    let mut text = blank_text();
    match error_messages::messages(
        input,
        rows,
        counts.rows,
        errors,
        counts.errors,
        b"String",
        &mut work,
        &mut text,
    ) {
        Ok(length) => print_text(out, &text, length),
        Err(refusal) => print_refused(out, refusal.number(), refusal.place()),
    }
}

fn main(rt: HostRuntime) -> io::Result<()> {
    let mut input = [0u8; loans::INPUT];
    let mut output = [0u8; loans::OUTPUT];
    let mut rows = [0u32; loans::ROWS];
    let mut errors = [0u32; loans::ERRORS];
    let mut work = [0u32; loans::WORK];
    let n = read_full(&mut rt.stdin(), &mut input)?;
    match type_check_module(&input[..n], &mut output, &mut rows, &mut errors, &mut work) {
        Ok(counts) => print_accepted(&rt, &input[..n], counts, &rows, &errors),
        Err(refusal) => print_refused(&rt, refusal.number(), refusal.place()),
    }
}
