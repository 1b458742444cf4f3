// Prints all that the checker finds in the module on standard input: a line for each row, each slot and each error, or
// why it is turned back.
#![tactic(auto)]

use fallible::ERROR_WIDTH;
use program_support::input::read_full;
use program_support::loans;
use program_support::print::{Lines, print_refused};
use program_support::slots::{next_record, slot_place};
use record_bytes::word;
use rows::ROW_WIDTH;
use std::io;
use type_check::{Counts, type_check_module};

// The words of a row or an error, and the end of the line.
fn put_fields(lines: &mut Lines<impl Print>, words: &[u32]) -> io::Result<()> {
    lines.put_words(words)?;
    lines.put_text(b"\n")
}

// `row NUMBER KIND FIRST SECOND NAME WORDS`
fn put_rows(lines: &mut Lines<impl Print>, rows: &[u32], count: u32) -> io::Result<()> {
    for (number, row) in (1..=count).zip(rows.chunks_exact(ROW_WIDTH)) {
        lines.put_text(b"row ")?;
        lines.put_word(number)?;
        put_fields(lines, row)?;
    }
    Ok(())
}

// `slot PLACE ROW`
fn put_slot(lines: &mut Lines<impl Print>, place: usize, row: u32) -> io::Result<()> {
    lines.put_text(b"slot ")?;
    lines.put_number(place as u64)?;
    lines.put_text(b" ")?;
    lines.put_word(row)?;
    lines.put_text(b"\n")
}

// The slots in byte order.
fn put_slots(lines: &mut Lines<impl Print>, output: &[u8]) -> io::Result<()> {
    let mut at = 0;
    while at < output.len() {
        if let Some(place) = slot_place(output, at) {
            put_slot(lines, place, word(output, place))?;
        }
        at = next_record(output, at);
    }
    Ok(())
}

// `error KIND FILE LINE COLUMN A B C PLACE`
fn put_errors(lines: &mut Lines<impl Print>, errors: &[u32], count: usize) -> io::Result<()> {
    for error in errors.chunks_exact(ERROR_WIDTH).take(count) {
        lines.put_text(b"error")?;
        put_fields(lines, error)?;
    }
    Ok(())
}

// All that is found in a module.
fn print_accepted(
    out: &impl Print,
    output: &[u8],
    counts: Counts,
    rows: &[u32],
    errors: &[u32],
) -> io::Result<()> {
    let mut lines = Lines::new(out);
    put_rows(&mut lines, rows, counts.rows)?;
    put_slots(&mut lines, output)?;
    put_errors(&mut lines, errors, counts.errors)?;
    lines.flush()
}

fn main(rt: HostRuntime) -> io::Result<()> {
    let mut input = [0u8; loans::INPUT];
    let mut output = [0u8; loans::OUTPUT];
    let mut rows = [0u32; loans::ROWS];
    let mut errors = [0u32; loans::ERRORS];
    let mut work = [0u32; loans::WORK];
    let n = read_full(&mut rt.stdin(), &mut input)?;
    match type_check_module(&input[..n], &mut output, &mut rows, &mut errors, &mut work) {
        // The output is as long as the longest module.
        Ok(counts) => {
            print_accepted(&rt, &output[..n.min(loans::OUTPUT)], counts, &rows, &errors)
        }
        Err(refusal) => print_refused(&rt, refusal.number(), refusal.place()),
    }
}
