// Writes the module on standard input with its items in another order, which a number decides:  shuffle 7 < module >
// other What is wrong with the number or the module is written to standard error, and then nothing to standard output.
#![tactic(auto)]

use layout::MAX_BYTES;
use program_support::input::read_full;
use program_support::print::print_refused;
use reorder::MODULUS;
use std::env::Env;
use std::io;
use std::io::Read;

// A byte more than a module may have, so that a longer one is turned back.
const ROOM: usize = MAX_BYTES + 1;

// A number in decimal digits; of a large one, what `shuffle` looks at.
fn read_number(digits: &[u8]) -> Option<usize> {
    if digits.is_empty() {
        return None;
    }
    let mut number: usize = 0;
    for digit in digits {
        if !digit.is_ascii_digit() {
            return None;
        }
        number = (number * 10 + usize::from(*digit - b'0')) % MODULUS;
    }
    Some(number)
}

// The number that the program is run with.
fn number_argument(rt: &impl Env) -> Option<usize> {
    let mut digits = [0u8; 20];
    let n = rt.arg(1, &mut digits).ok()?;
    read_number(&digits[..n])
}

// Writes the module in its new order, or says on `err` why it is turned back.
fn shuffle_input(
    stdin: &mut impl Read,
    out: &impl Print,
    err: &impl Print,
    number: usize,
) -> io::Result<()> {
    let mut input = [0u8; ROOM];
    let mut output = [0u8; ROOM];
    let n = read_full(stdin, &mut input)?;
    match reorder::shuffle(&input[..n], number, &mut output) {
        Ok(()) => out.write_all(&output[..n]),
        Err(refusal) => print_refused(err, refusal.number(), refusal.place()),
    }
}

fn main(rt: HostRuntime) -> io::Result<()> {
    let err = rt.stderr();
    match number_argument(&rt) {
        Some(number) => shuffle_input(&mut rt.stdin(), &rt, &err, number),
        None => err.write_all(b"usage: shuffle NUMBER < module\n"),
    }
}
