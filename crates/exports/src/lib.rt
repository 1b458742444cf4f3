// The entries for C and Rust callers: numbers and slices alone, a slice as a pointer and then a length. Each returns 0
// if the call is accepted, else the number of the refusal, and writes every value it answers through a `&mut`; a value
// that the answer has not is 0. Nothing is asked of the caller but what `&` and `&mut` mean.
#![tactic(auto)]

ghost use Rattle.std.specs.Prelude.{◌≡◌};
ghost use Rattle.types.specs.Table.{unfolded};
ghost use Rattle.relations.specs.Relations.{types_are_assignable};
ghost use Rattle.relations.specs.WordSize.{as_word};
ghost use Rattle.queries.specs.CastSearch.{cast_search};
ghost use Rattle.refusal.specs.Refusal.{outcome_of};
ghost use Rattle.type_check.specs.Post.{buffers_before, buffers_after};
ghost use Rattle.error_messages.specs.Inner.{old_inputs, loan_before, loan_after};
ghost use Rattle.exports.specs.Replies.{ModuleTold, MessagesTold, AnswerTold, CastTold, SizeTold};
ghost use Rattle.exports.specs.Replies.{reply, refusal_number, refusal_place};

use queries::CastSearch;
use refusal::Refusal;
use relations::WordSize;
use size_words::{TOO_LARGE_WORD, UNKNOWN_WORD};
use type_check::Counts;

// The number of the refusal, or 0.
fn number_of<T>(given: &Result<T, Refusal>) -> u32
    ensures { result ≡ refusal_number (outcome_of given.now) }
{
    match given {
        Ok(_) => 0,
        Err(cause) => cause.number(),
    }
}

// The place of the refusal, or 0.
fn place_of<T>(given: &Result<T, Refusal>) -> usize
    ensures { result ≡ refusal_place (outcome_of given.now) }
{
    match given {
        Ok(_) => 0,
        Err(cause) => cause.place(),
    }
}

// Checks a module: `type_check_module` of the crate type_check.
#[unsafe(no_mangle)]
pub extern "C" fn delta_null_type_check_module(
    input: &[u8],
    output: &mut [u8],
    rows: &mut [u32],
    errors: &mut [u32],
    work: &mut [u32],
    row_count: &mut u32,
    error_count: &mut usize,
    place: &mut usize,
) -> u32
    ensures { ModuleTold input.now
        (buffers_before output rows errors work)
        (buffers_after output rows errors work)
        (reply result row_count.new error_count.new place.new) }
{
    let checked = type_check::type_check_module(input, output, rows, errors, work);
    let counts = checked.unwrap_or(Counts { rows: 0, errors: 0 });
    *row_count = counts.rows;
    *error_count = counts.errors;
    *place = place_of(&checked);
    number_of(&checked)
}

// The messages of a module's errors: `messages` of the crate error_messages. The module is the input, as it was read.
#[unsafe(no_mangle)]
pub extern "C" fn delta_null_messages<'a>(
    input: &'a [u8],
    rows: &[u32],
    row_count: u32,
    errors: &[u32],
    error_count: usize,
    built_in: &'a [u8],
    work: &mut [u32],
    text: &mut [u8],
    length: &mut usize,
    place: &mut usize,
) -> u32
    ensures { MessagesTold (old_inputs input.now built_in.now rows.now row_count) errors.now error_count
        (loan_before text work)
        (loan_after text work)
        result length.new place.new }
{
    let written = error_messages::messages(
        input,
        rows,
        row_count,
        errors,
        error_count,
        built_in,
        work,
        text,
    );
    *length = written.unwrap_or(0);
    *place = place_of(&written);
    number_of(&written)
}

// Whether the type of row source may be assigned to that of row target: 1 or 0.
#[unsafe(no_mangle)]
pub extern "C" fn delta_null_assignable(
    rows: &[u32],
    count: u32,
    target: u32,
    source: u32,
    answer: &mut u32,
) -> u32
    ensures { AnswerTold rows.now count target source
        (types_are_assignable (unfolded rows.now target) (unfolded rows.now source)) result answer.new }
{
    let given = queries::assignable(rows, count, target, source);
    *answer = u32::from(given.unwrap_or(false));
    number_of(&given)
}

// Whether the type of row source may be cast to that of row target, 1 or 0, and how many pairs were tried.
#[unsafe(no_mangle)]
pub extern "C" fn delta_null_castable(
    rows: &[u32],
    count: u32,
    source: u32,
    target: u32,
    answer: &mut u32,
    pairs: &mut u64,
) -> u32
    ensures { CastTold rows.now count source target
        (cast_search (unfolded rows.now source) (unfolded rows.now target)) result answer.new pairs.new }
{
    let given = queries::castable(rows, count, source, target);
    let found = given.unwrap_or(CastSearch {
        fits: false,
        pairs: 0,
    });
    *answer = u32::from(found.fits);
    *pairs = found.pairs;
    number_of(&given)
}

// A size as one word: the words, 65,536 for too large, 65,537 for Unknown inside.
fn size_word(size: WordSize) -> u32
    ensures { result ≡ as_word size }
{
    match size {
        WordSize::Words(words) => words,
        WordSize::TooLarge => TOO_LARGE_WORD,
        WordSize::Unknown => UNKNOWN_WORD,
    }
}

// How many words the type of row n has: the row's fifth word.
#[unsafe(no_mangle)]
pub extern "C" fn delta_null_word_size(rows: &[u32], count: u32, n: u32, size: &mut u32) -> u32
    ensures { SizeTold rows.now count n result size.new }
{
    let given = queries::words(rows, count, n);
    *size = given.map_or(0, size_word);
    number_of(&given)
}
