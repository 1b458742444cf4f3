// Reads literals by `literal::from_str_radix`: first every text of one byte in every base up to 38, then the texts of
// standard input. Each base has a line with the bytes that have a value, `2 48=0 49=1`; each line `BASE TEXT` of the
// input has one with the value, or `invalid` (`oracle literals` makes the input, and what is to be printed).
#![tactic(auto)]

ghost use Rattle.std.specs.Prelude.{◌≡◌, ◌+◌, ◌≤◌, ◌==◌, length, drop, position, OnOk, OnErr};
ghost use Rattle.literal.specs.Literal.{parsed_value};
ghost use Rattle.program_support.specs.Lines.{Puts, PutsSome};
ghost use Rattle.literal_cases.specs.Lines.{byte_value, byte_alone, bytes_alone, base_line, base_lines};
ghost use Rattle.literal_cases.specs.Lines.{answer_line, case_line, case_lines};
ghost use Rattle.literal_cases.specs.Numbers.{base_read, decimal};
ghost use Rattle.literal_cases.specs.Places.{index_of};

use literal::from_str_radix;
use program_support::input::read_full;
use program_support::print::Lines;
use std::io;

// Room for standard input.
const ROOM: usize = 131072;

// How many bytes there are, and how many bases are tried.
const BYTES: u32 = 256;

const BASES: u32 = 39;

const U32_MAX: u64 = 4294967295;

// ` BYTE=VALUE`
fn put_value(lines: &mut Lines<impl Print>, byte: u8, value: u16) -> io::Result<()>
    ensures ok { OnOk result (Puts (byte_value byte value) lines.old lines.new) }
    ensures err { OnErr result (PutsSome (byte_value byte value) lines.old lines.new) }
{
    lines.put_text(b" ")?;
    lines.put_word(byte as u32)?;
    lines.put_text(b"=")?;
    lines.put_word(value as u32)
}

// The value of the text that is this byte, if it has one.
fn put_byte(lines: &mut Lines<impl Print>, base: u32, byte: u8) -> io::Result<()>
    ensures ok { OnOk result (Puts (byte_alone base byte) lines.old lines.new) }
    ensures err { OnErr result (PutsSome (byte_alone base byte) lines.old lines.new) }
{
    match from_str_radix(&[byte], base) {
        Some(value) => put_value(lines, byte, value),
        None => Ok(()),
    }
}

// The values of all bytes.
fn put_bytes(lines: &mut Lines<impl Print>, base: u32) -> io::Result<()>
    ensures ok { OnOk result (Puts (bytes_alone base 256) lines.old lines.new) }
    ensures err { OnErr result (PutsSome (bytes_alone base 256) lines.old lines.new) }
{
    for byte in 0..BYTES {
        put_byte(lines, base, byte as u8)?;
    }
    Ok(())
}

// The line of a base.
fn put_base(lines: &mut Lines<impl Print>, base: u32) -> io::Result<()>
    ensures ok { OnOk result (Puts (base_line base) lines.old lines.new) }
    ensures err { OnErr result (PutsSome (base_line base) lines.old lines.new) }
{
    lines.put_word(base)?;
    put_bytes(lines, base)?;
    lines.put_text(b"\n")
}

// The lines of all bases.
fn put_bases(lines: &mut Lines<impl Print>) -> io::Result<()>
    ensures ok { OnOk result (Puts (base_lines 39) lines.old lines.new) }
    ensures err { OnErr result (PutsSome (base_lines 39) lines.old lines.new) }
{
    for base in 0..BASES {
        put_base(lines, base)?;
    }
    Ok(())
}

// Reads a number of 32 bits in decimal digits: the base of a case.
fn read_base(digits: &[u8]) -> Option<u32>
    ensures { base_read result ≡ decimal digits.now }
{
    if digits.is_empty() {
        return None;
    }
    let mut number: u64 = 0;
    for &digit in digits {
        if digit < b'0' || b'9' < digit {
            return None;
        }
        number = number * 10 + ((digit - b'0') as u64);
        if U32_MAX < number {
            return None;
        }
    }
    Some(number as u32)
}

// The line that answers a text: its value, or `invalid`.
fn put_answer(lines: &mut Lines<impl Print>, parsed: Option<u16>) -> io::Result<()>
    ensures ok { OnOk result (Puts (answer_line (parsed_value parsed)) lines.old lines.new) }
    ensures err { OnErr result (PutsSome (answer_line (parsed_value parsed)) lines.old lines.new) }
{
    match parsed {
        Some(value) => {
            lines.put_word(value as u32)?;
            lines.put_text(b"\n")
        }
        None => lines.put_text(b"invalid\n"),
    }
}

// The place of the first such byte, if there is one.
fn find(bytes: &[u8], byte: u8) -> Option<usize>
    ensures { result ≡ position (λ b. b == byte) bytes.now }
{
    bytes.iter().position(|b| *b == byte)
}

// The place of the first such byte from `from` on; the end, if there is none.
fn find_from(bytes: &[u8], from: usize, byte: u8) -> usize
    requires { from ≤ length bytes.now }
    ensures value { result ≡ from + index_of byte (drop from bytes.now) }
    ensures within { result ≤ length bytes.now }
{
    match find(&bytes[from..], byte) {
        Some(i) => from + i,
        None => bytes.len(),
    }
}

// The line that answers a line of the input.
fn put_case(lines: &mut Lines<impl Print>, line: &[u8]) -> io::Result<()>
    ensures ok { OnOk result (Puts (case_line line.now) lines.old lines.new) }
    ensures err { OnErr result (PutsSome (case_line line.now) lines.old lines.new) }
{
    let Some(blank) = find(line, b' ') else {
        return lines.put_text(b"not a case\n");
    };
    match read_base(&line[..blank]) {
        Some(number) => put_answer(lines, from_str_radix(&line[blank + 1..], number)),
        None => lines.put_text(b"not a case\n"),
    }
}

// The lines that answer the input.
fn put_cases(lines: &mut Lines<impl Print>, input: &[u8]) -> io::Result<()>
    ensures ok { OnOk result (Puts (case_lines input.now) lines.old lines.new) }
    ensures err { OnErr result (PutsSome (case_lines input.now) lines.old lines.new) }
{
    let mut at = 0;
    // By places: `split` would give one more line, an empty one, behind the last line feed.
    while at < input.len() {
        let end = find_from(input, at, b'\n');
        put_case(lines, &input[at..end])?;
        at = end + 1;
    }
    Ok(())
}

fn main(rt: HostRuntime) -> io::Result<()> {
    let mut input = [0u8; ROOM];
    let mut lines = Lines::new(&rt);
    let n = read_full(&mut rt.stdin(), &mut input)?;
    put_bases(&mut lines)?;
    put_cases(&mut lines, &input[..n])?;
    lines.flush()
}
