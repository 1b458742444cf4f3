// Printing by way of a buffer, so that many lines go out in one write. Numbers are in decimal.
ghost use Rattle.std.specs.Prelude.{◌≡◌, ◌+◌, ◌≤◌, List, [], ◌∷◌, ◌++◌, replicate, length, take, drop, IfOk, OnOk, OnErr};
ghost use Rattle.program_support.specs.Buffer.{Piece, a_text, a_number, Put, PutNumber, PutAll, PutSome, word_pieces, refused_line};
ghost use Rattle.program_support.specs.Lines.{Puts, PutsSome};

use crate::digits::decimal;
use std::io;

// Room for some thousand lines.
pub const BUFFER: usize = 65536;

// Copies a text behind the bytes that are held.
fn append(buffer: &mut [u8], used: usize, text: &[u8]) -> usize
    requires { used + length text.now ≤ length buffer.old }
    ensures value { result ≡ used + length text.now }
    ensures buffer_value { buffer.new ≡ take used buffer.old ++ text.now ++ drop result buffer.old }
{
    let end = used + text.len();
    buffer[used..end].copy_from_slice(text);
    end
}

// The functions that follow put into a buffer that is lent, of any length, of which so many bytes are held, and give how
// many are held then.

// Puts a text into the buffer. If it does not fit, what is held is written first; a text that is longer than the
// buffer is written too. If that fails, the buffer stays as it was.
pub fn put_text(out: &impl Print, buffer: &mut [u8], used: usize, text: &[u8]) -> io::Result<usize>
    ensures ok { IfOk result (λ r. Put buffer.old used text.now buffer.new r) }
    ensures err { OnErr result (buffer.new ≡ buffer.old) }
{
    let held = used.min(buffer.len());
    if text.len() <= buffer.len() - held {
        return Ok(append(buffer, held, text));
    }
    out.write_all(&buffer[..held])?;
    if text.len() <= buffer.len() {
        return Ok(append(buffer, 0, text));
    }
    out.write_all(text)?;
    Ok(0)
}

pub fn put_number(out: &impl Print, buffer: &mut [u8], used: usize, n: u64) -> io::Result<usize>
    ensures ok { IfOk result (λ r. PutNumber buffer.old used n buffer.new r) }
    ensures err { OnErr result (buffer.new ≡ buffer.old) }
{
    let mut text = [0u8; 20];
    let k = decimal(n, &mut text);
    put_text(out, buffer, used, &text[..k])
}

pub fn put_word(out: &impl Print, buffer: &mut [u8], used: usize, n: u32) -> io::Result<usize>
    ensures ok { IfOk result (λ r. PutNumber buffer.old used n buffer.new r) }
    ensures err { OnErr result (buffer.new ≡ buffer.old) }
{
    put_number(out, buffer, used, n as u64)
}

// Words, a blank before each.
pub fn put_words(
    out: &impl Print,
    buffer: &mut [u8],
    used: usize,
    words: &[u32],
) -> io::Result<usize>
    ensures ok { IfOk result (λ r. PutAll (word_pieces words.now) buffer.old used buffer.new r) }
    ensures err { OnErr result (PutSome (word_pieces words.now) buffer.old used buffer.new) }
{
    let mut held = used;
    let mut i = 0;
    while i < words.len() {
        let blank = put_text(out, buffer, held, b" ")?;
        held = put_word(out, buffer, blank, words[i])?;
        i += 1;
    }
    Ok(held)
}

// Why a module is turned back: `refused 2 at 40`.
pub fn put_refused(
    out: &impl Print,
    buffer: &mut [u8],
    used: usize,
    number: u32,
    place: usize,
) -> io::Result<usize>
    ensures ok { IfOk result (λ r. PutAll (refused_line number place) buffer.old used buffer.new r) }
    ensures err { OnErr result (PutSome (refused_line number place) buffer.old used buffer.new) }
{
    let refused = put_text(out, buffer, used, b"refused ")?;
    let numbered = put_word(out, buffer, refused, number)?;
    let at = put_text(out, buffer, numbered, b" at ")?;
    let placed = put_number(out, buffer, at, place as u64)?;
    put_text(out, buffer, placed, b"\n")
}

// Writes what is held. There is nothing to promise: no contract can speak of standard output.
pub fn flush(out: &impl Print, buffer: &[u8], used: usize) -> io::Result<()> {
    out.write_all(&buffer[..used.min(buffer.len())])
}

// A buffer before `out`, the first bytes of which are held for the next write.
// Not `write!` or a `BufWriter`: what they have written is not said when a write fails, and the second needs a heap.
#[derive(Drop)]
pub struct Buffer<'a, P: Print, const N: usize> {
    out: &'a P,
    bytes: [u8; N],
    used: usize,
}

impl<'a, P: Print, const N: usize> Buffer<'a, P, N> {
    // One that holds nothing.
    pub fn new(out: &'a P) -> Self
        ensures { result ≡ record { out = out.entry; bytes = replicate N 0; used = 0 } }
    {
        Buffer {
            out,
            bytes: [0; N],
            used: 0,
        }
    }

    // Puts a text into the buffer. If it does not fit, what is held is written first; a text that is longer than the
    // buffer is written too. If that fails, the buffer stays as it was.
    pub fn put_text(&mut self, text: &[u8]) -> io::Result<()>
        ensures ok { OnOk result (Puts (a_text text.now ∷ []) self.old self.new) }
        ensures err { OnErr result (self.new ≡ self.old) }
    {
        self.used = put_text(self.out, &mut self.bytes, self.used, text)?;
        Ok(())
    }

    pub fn put_number(&mut self, n: u64) -> io::Result<()>
        ensures ok { OnOk result (Puts (a_number n ∷ []) self.old self.new) }
        ensures err { OnErr result (self.new ≡ self.old) }
    {
        self.used = put_number(self.out, &mut self.bytes, self.used, n)?;
        Ok(())
    }

    pub fn put_word(&mut self, n: u32) -> io::Result<()>
        ensures ok { OnOk result (Puts (a_number n ∷ []) self.old self.new) }
        ensures err { OnErr result (self.new ≡ self.old) }
    {
        self.used = put_word(self.out, &mut self.bytes, self.used, n)?;
        Ok(())
    }

    // Words, a blank before each.
    pub fn put_words(&mut self, words: &[u32]) -> io::Result<()>
        ensures ok { OnOk result (Puts (word_pieces words.now) self.old self.new) }
        ensures err { OnErr result (PutsSome (word_pieces words.now) self.old self.new) }
    {
        for &word in words {
            self.put_text(b" ")?;
            self.put_word(word)?;
        }
        Ok(())
    }

    // Why a module is turned back: `refused 2 at 40`.
    pub fn put_refused(&mut self, number: u32, place: usize) -> io::Result<()>
        ensures ok { OnOk result (Puts (refused_line number place) self.old self.new) }
        ensures err { OnErr result (PutsSome (refused_line number place) self.old self.new) }
    {
        self.put_text(b"refused ")?;
        self.put_word(number)?;
        self.put_text(b" at ")?;
        self.put_number(place as u64)?;
        self.put_text(b"\n")
    }

    // Writes what is held. No contract can speak of standard output.
    pub fn flush(&mut self) -> io::Result<()>
        ensures ok { OnOk result (self.new ≡ record self.old { used = 0 }) }
        ensures err { OnErr result (self.new ≡ self.old) }
    {
        flush(self.out, &self.bytes, self.used)?;
        self.used = 0;
        Ok(())
    }
}

// The buffer of a program.
pub type Lines<'a, P> = Buffer<'a, P, BUFFER>;

// Prints why a module is turned back. Nothing to promise: no contract can speak of standard output.
pub fn print_refused(out: &impl Print, number: u32, place: usize) -> io::Result<()> {
    let mut lines = Lines::new(out);
    lines.put_refused(number, place)?;
    lines.flush()
}
