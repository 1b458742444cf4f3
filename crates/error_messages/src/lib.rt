// The errors of a module as text: the reference's description of each, a line an error.
#![tactic(auto)]

mod built_in;
mod length;
mod readable;
mod write;

ghost use Rattle.std.specs.Prelude.{◌≡◌, ◌≤◌, length};
ghost use Rattle.std.proofs.Math.Option.{none};
ghost use Rattle.listing.specs.Names.{NamesListed};
ghost use Rattle.module_tests.specs.Refusal.{module_refusal};
ghost use Rattle.error_messages.specs.Messages.{Sound, Answered};
ghost use Rattle.error_messages.specs.Inner.{inputs_of, old_inputs, loan_before, loan_after, outcome_of};

use crate::length::messages_length;
use crate::readable::is_sound;
use crate::write::write_messages;
use display::Source;
use layout::MAX_BYTES;
use listing::{MAX_NAMES, list_names, mark_literals};
use module_tests::module_refusal;
use refusal::Refusal;
use text::LONGEST;

// Test 9, then the text, of errors that can be printed. The lengths of the rows' texts are worked out first.
fn measure_and_write(
    source: &Source<'_, '_>,
    errors: &[u32],
    many: usize,
    work: &mut [u32],
    text: &mut [u8],
) -> Result<usize, Refusal>
    requires s_value { (module_refusal source.now.s.now ≡ none) × NamesListed source.now.s.now source.now.places.now }
    requires sound { Sound (inputs_of source.now) errors.now many
        × (source.now.count ≤ length work.old) }
    ensures { Answered (inputs_of source.now) errors.now many
        (loan_before text work) (loan_after text work) (outcome_of result) }
{
    source.fill_lengths(work);
    let needed = messages_length(source, work, errors, many);
    let length = needed as usize;
    if LONGEST < needed || text.len() < length {
        return Err(Refusal::NoRoomForText(length));
    }
    write_messages(source, work, errors, many, text);
    Ok(length)
}

// Tests 8, 5 and 9, then the text, of a module that passes tests 1 to 4.
fn test_and_write<'a>(
    s: &'a [u8],
    rows: &[u32],
    count: u32,
    errors: &[u32],
    many: usize,
    built_in: &'a [u8],
    work: &mut [u32],
    text: &mut [u8],
) -> Result<usize, Refusal>
    requires { module_refusal s.now ≡ none }
    ensures { Answered (old_inputs s.now built_in.now rows.now count) errors.now many
        (loan_before text work) (loan_after text work) (outcome_of result) }
{
    let mut places = [0u16; MAX_NAMES];
    let names = list_names(s, &mut places);
    let mut marks = [0u8; MAX_BYTES];
    mark_literals(s, &mut marks);
    let source = Source {
        s,
        built_in,
        places: &places,
        rows,
        count,
    };
    if !is_sound(&source, names, &marks, errors, many) {
        return Err(Refusal::UnsoundLoan);
    }
    if work.len() < count as usize {
        return Err(Refusal::ShortLoan);
    }
    measure_and_write(&source, errors, many, work, text)
}

// Writes the descriptions of `error_count` errors of a module, each ended by a line feed, and answers how long they
// are. `built_in` is the text for String; one working word a row is needed.
pub fn messages<'a>(
    s: &'a [u8],
    rows: &[u32],
    count: u32,
    errors: &[u32],
    error_count: usize,
    built_in: &'a [u8],
    work: &mut [u32],
    text: &mut [u8],
) -> Result<usize, Refusal>
    ensures { Answered (old_inputs s.now built_in.now rows.now count) errors.now error_count
        (loan_before text work) (loan_after text work) (outcome_of result) }
{
    module_refusal(s)?;
    test_and_write(s, rows, count, errors, error_count, built_in, work, text)
}
