// The errors of a case and the checker's.
use crate::expected::{number_of, word_of};
use fallible::ERROR_WIDTH;

// Whether a word of an error of this kind is a row: its operands are the words 4 to 6.
fn is_row(kind: u32, place: usize) -> bool {
    match place {
        4 => matches!(kind, 8 | 9 | 13..=22 | 26 | 28),
        5 => matches!(kind, 3 | 8 | 12 | 15 | 24),
        6 => matches!(kind, 12 | 24),
        _ => false,
    }
}

// The word of this number among the errors, as the checker should give it.
fn error_word(errors: &[u8], i: usize, numbers: &[u32]) -> u32 {
    let place = i % ERROR_WIDTH;
    let kind = word_of(errors, i - place);
    let value = word_of(errors, i);
    if is_row(kind, place) {
        number_of(numbers, value)
    } else {
        value
    }
}

// Whether the checker's errors are those of the case.
pub(crate) fn errors_match(expected: &[u8], errors: &[u32], numbers: &[u32]) -> bool {
    errors
        .iter()
        .enumerate()
        .all(|(i, word)| *word == error_word(expected, i, numbers))
}
