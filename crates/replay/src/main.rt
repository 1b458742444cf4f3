// Runs the checker and `messages` on cases whose answers are known, and prints a line for each of the first that
// differ, then how many were accepted and refused as expected and how many differ. Standard input is a list of cases (src/case.rt).
#![tactic(auto)]

mod case;
mod errors;
mod expected;
mod judge;
mod lent;
mod messages;
mod output;
mod row_numbers;

ghost use Rattle.std.specs.Prelude.{◌≤◌, length, IfOk, OnErr};
ghost use Rattle.replay.specs.Cases.{ReadSomeOfCase};

use judge::{Verdict, judge};
use program_support::input::read_full;
use program_support::loans;
use program_support::print::Lines;
use record_bytes::length_at;
use std::io;
use std::io::Read;

// No more cases than this are run, and no more differences are printed.
const CASES: u32 = 1000000;

const SHOWN: u32 = 20;

// Reads the next case: how many bytes it has. 0 is the end; a case that is longer than the room or than the input is
// cut.
fn read_case<R: Read>(input: &mut R, case: &mut [u8]) -> io::Result<usize>
    requires { 4 ≤ length case.old }
    ensures ok { IfOk result (λ n. n ≤ length case.new) }
    ensures err { OnErr result (ReadSomeOfCase (R.remaining input.old) (R.remaining input.new) case.old case.new) }
{
    if read_full(input, &mut case[0..4])? < 4 {
        return Ok(0);
    }
    let total = length_at(case, 0);
    if total < 4 {
        return Ok(4);
    }
    if case.len() < total {
        return Ok(4);
    }
    let n = read_full(input, &mut case[4..total])?;
    Ok(4 + n)
}

// How many cases are accepted and refused as expected, and how many differ.
#[derive(Clone, Copy, Default)]
struct Tally {
    good: u32,
    refused: u32,
    differ: u32,
}

// `differ 7`
fn put_case(lines: &mut Lines<impl Print>, k: u32) -> io::Result<()> {
    lines.put_text(b"differ ")?;
    lines.put_word(k)?;
    lines.put_text(b"\n")
}

// `good 12 refused 3 differ 0`
fn put_tally(lines: &mut Lines<impl Print>, tally: Tally) -> io::Result<()> {
    lines.put_text(b"good ")?;
    lines.put_word(tally.good)?;
    lines.put_text(b" refused ")?;
    lines.put_word(tally.refused)?;
    lines.put_text(b" differ ")?;
    lines.put_word(tally.differ)?;
    lines.put_text(b"\n")
}

fn main(rt: HostRuntime) -> io::Result<()> {
    let mut input = rt.stdin();
    let mut case = [0u8; 250000];
    let mut output = [0u8; 70000];
    let mut rows = [0u32; loans::ROWS];
    let mut errors = [0u32; loans::ERRORS];
    let mut work = [0u32; loans::WORK];
    let mut lines = Lines::new(&rt);
    let mut tally = Tally::default();
    for k in 0..CASES {
        let total = read_case(&mut input, &mut case)?;
        if total == 0 {
            break;
        }
        match judge(
            &case[..total],
            &mut output,
            &mut rows,
            &mut errors,
            &mut work,
        ) {
            Verdict::Good => tally.good += 1,
            Verdict::Refused => tally.refused += 1,
            Verdict::Differs => {
                if tally.differ < SHOWN {
                    put_case(&mut lines, k)?;
                }
                tally.differ += 1;
            }
        }
    }
    put_tally(&mut lines, tally)?;
    lines.flush()
}
