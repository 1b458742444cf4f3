// The output of the checker and the input: they differ in the slots alone, which hold the rows of the case.
ghost use Rattle.std.specs.Prelude.{◌≡◌, ◌≤◌, length};

use crate::expected::{number_of, word_of};
use program_support::slots::{next_record, slot_place};
use record_bytes::{FIELD, word};

// How many slots a record has: 1 or 0.
fn slot_count(input: &[u8], at: usize) -> usize
    ensures { result ≤ 1 }
{
    usize::from(slot_place(input, at).is_some())
}

// Whether a record, up to its first child, is as in the input but for its slot, which holds this row.
fn record_matches(input: &[u8], output: &[u8], row: u32) -> bool
    requires { length output.now ≡ length input.now }
{
    let Some(place) = slot_place(input, 0) else {
        return input == output;
    };
    let rest = place + FIELD;
    word(output, place) == row
        && input[..place] == output[..place]
        && input[rest..] == output[rest..]
}

// Whether the output is the input with its slots filled with the rows of the case.
pub(crate) fn output_matches(
    input: &[u8],
    output: &[u8],
    expected: &[u8],
    numbers: &[u32],
) -> bool {
    if output.len() != input.len() {
        return false;
    }
    let mut at = 0;
    let mut i = 0;
    while at < input.len() {
        let next = next_record(input, at);
        let row = number_of(numbers, word_of(expected, i));
        if !record_matches(&input[at..next], &output[at..next], row) {
            return false;
        }
        i += slot_count(input, at);
        at = next;
    }
    i == expected.len() / FIELD
}
