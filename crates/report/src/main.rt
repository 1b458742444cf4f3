// The report program of document 01: reads a module from standard input, and prints how many rows and errors it has,
// then kind, file, line and column of each error; or why it is turned back.
#![tactic(auto)]

ghost use Rattle.std.specs.Prelude.{◌≡◌, ◌≤◌, length, replicate, take, OnOk, OnErr};
ghost use Rattle.type_check.specs.Post.{buffers_before, buffers_after, outcome_of};
ghost use Rattle.records.specs.Records.{zero_record, CheckedRecords};
ghost use Rattle.program_support.specs.Lines.{Puts, PutsSome};
ghost use Rattle.report.specs.Lines.{counts_line, error_line, error_lines};

use fallible::Error;
use program_support::input::read_full;
use program_support::loans;
use program_support::loans::ERROR_COUNT;
use program_support::print::{Lines, print_refused};
use records::type_check_module_records;
use refusal::Refusal;
use std::io;
use type_check::Counts;

// The answer, and the list of error records that was lent for it.
#[derive(Clone, Copy)]
struct Report {
    answer: Result<Counts, Refusal>,
    errors: [Error; ERROR_COUNT],
}

// A list of records for the errors of a module.
fn zero_records() -> [Error; ERROR_COUNT]
    ensures { result ≡ replicate 2000 zero_record }
{
    let zero = Error {
        kind: 0,
        file: 0,
        line: 0,
        column: 0,
        first: 0,
        second: 0,
        third: 0,
        place: 0,
    };
    [zero; ERROR_COUNT]
}

// Checks a module, and lends a list of records for its errors.
fn report_module(
    input: &[u8],
    output: &mut [u8],
    rows: &mut [u32],
    words: &mut [u32],
    work: &mut [u32],
) -> Report
    ensures { CheckedRecords input.now
        (buffers_before output rows words work)
        (buffers_after output rows words work)
        (replicate 2000 zero_record) result.errors (outcome_of result.answer) }
{
    let mut errors = zero_records();
    let answer = type_check_module_records(input, output, rows, words, &mut errors, work);
    Report { answer, errors }
}

// Kind, file, line and column of an error.
fn put_error(lines: &mut Lines<impl Print>, error: &Error) -> io::Result<()>
    ensures ok { OnOk result (Puts (error_line error.now) lines.old lines.new) }
    ensures err { OnErr result (PutsSome (error_line error.now) lines.old lines.new) }
{
    lines.put_word(error.kind)?;
    lines.put_words(&[error.file, error.line, error.column])?;
    lines.put_text(b"\n")
}

fn put_errors(lines: &mut Lines<impl Print>, errors: &[Error]) -> io::Result<()>
    ensures ok { OnOk result (Puts (error_lines errors.now) lines.old lines.new) }
    ensures err { OnErr result (PutsSome (error_lines errors.now) lines.old lines.new) }
{
    for error in errors {
        put_error(lines, error)?;
    }
    Ok(())
}

// `rows 7 errors 2`
fn put_counts(lines: &mut Lines<impl Print>, rows: u32, errors: usize) -> io::Result<()>
    ensures ok { OnOk result (Puts (counts_line rows errors) lines.old lines.new) }
    ensures err { OnErr result (PutsSome (counts_line rows errors) lines.old lines.new) }
{
    lines.put_text(b"rows ")?;
    lines.put_word(rows)?;
    lines.put_text(b" errors ")?;
    lines.put_number(errors as u64)?;
    lines.put_text(b"\n")
}

// What is found in a module.
fn print_accepted(out: &impl Print, rows: u32, errors: &[Error]) -> io::Result<()> {
    let mut lines = Lines::new(out);
    put_counts(&mut lines, rows, errors.len())?;
    put_errors(&mut lines, errors)?;
    lines.flush()
}

fn main(rt: HostRuntime) -> io::Result<()> {
    let mut input = [0u8; loans::INPUT];
    let mut output = [0u8; loans::OUTPUT];
    let mut rows = [0u32; loans::ROWS];
    let mut words = [0u32; loans::ERRORS];
    let mut work = [0u32; loans::WORK];
    let n = read_full(&mut rt.stdin(), &mut input)?;
    let Report { answer, errors } = report_module(
        &input[..n],
        &mut output,
        &mut rows,
        &mut words,
        &mut work,
    );
    match answer {
        Ok(counts) => print_accepted(&rt, counts.rows, &errors[..counts.errors]),
        Err(refusal) => print_refused(&rt, refusal.number(), refusal.place()),
    }
}
