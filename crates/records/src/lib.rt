// The errors as records with named fields: `type_check_module`, and a list of records filled from the words of its
// errors.
#![tactic(auto)]

ghost use Rattle.std.specs.Prelude.{◌≡◌, ◌+◌, ◌*◌, ◌≤◌, length};
ghost use Rattle.fallible.specs.Errors.{error_width, error_at};
ghost use Rattle.type_check.specs.Post.{buffers_before, buffers_after, outcome_of};
ghost use Rattle.records.specs.Records.{records_from, record_count, too_few_words, CheckedWords, CheckedRecords};

use fallible::{ERROR_WIDTH, Error};
use module_tests::module_refusal;
use refusal::Refusal;
use type_check::{Counts, type_check_module};

// The error at a number, from 0, by its words.
fn error_at(words: &[u32], number: usize) -> Error
    requires { error_width * (number + 1) ≤ length words.now }
    ensures { result ≡ error_at words.now number }
{
    let at = ERROR_WIDTH * number;
    Error {
        kind: words[at],
        file: words[at + 1],
        line: words[at + 2],
        column: words[at + 3],
        first: words[at + 4],
        second: words[at + 5],
        third: words[at + 6],
        place: words[at + 7],
    }
}

// Fills the first `count` records from their words.
fn fill_records(records: &mut [Error], words: &[u32], count: usize)
    requires { (count ≤ length records.old) × (error_width * count ≤ length words.now) }
    ensures { records.new ≡ records_from words.now count records.old }
{
    for i in 0..count {
        records[i] = error_at(words, i);
    }
}

// The answer where fewer words are lent than the records ask for: tests 1 to 4, then 5.
fn too_few_words(input: &[u8]) -> Result<Counts, Refusal>
    ensures { outcome_of result ≡ too_few_words input.now }
{
    module_refusal(input)?;
    Err(Refusal::ShortLoan)
}

// `type_check_module` with eight words for each of so many records, and no more.
fn check_words(
    input: &[u8],
    output: &mut [u8],
    rows: &mut [u32],
    words: &mut [u32],
    records: usize,
    work: &mut [u32],
) -> Result<Counts, Refusal>
    ensures { CheckedWords input.now records
        (buffers_before output rows words work)
        (buffers_after output rows words work) (outcome_of result) }
{
    if words.len() / ERROR_WIDTH < records {
        return too_few_words(input);
    }
    let room = ERROR_WIDTH * records;
    type_check_module(input, output, rows, &mut words[..room], work)
}

// How many of the records lent are filled from the words: after 6 and 7, which leave all words 0, every one.
fn record_count(answer: Result<Counts, Refusal>, lent: usize) -> usize
    ensures { result ≡ record_count (outcome_of answer) lent }
{
    match answer {
        Ok(counts) => counts.errors,
        Err(
            Refusal::TooLong
            | Refusal::BadLayout(_)
            | Refusal::TooDeep(_)
            | Refusal::RepeatedName(_)
            | Refusal::ShortLoan,
        ) => 0,
        Err(_) => lent,
    }
}

// Checks a module, and gives its errors as records. The words are lent for the check to work with, eight a record.
pub fn type_check_module_records(
    input: &[u8],
    output: &mut [u8],
    rows: &mut [u32],
    words: &mut [u32],
    records: &mut [Error],
    work: &mut [u32],
) -> Result<Counts, Refusal>
    ensures { CheckedRecords input.now
        (buffers_before output rows words work)
        (buffers_after output rows words work) records.old records.new (outcome_of result) }
{
    let answer = check_words(input, output, rows, words, records.len(), work);
    let count = record_count(answer, records.len());
    fill_records(records, words, count);
    answer
}
