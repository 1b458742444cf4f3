// How long messages are, counted no further than one past the longest text.
ghost use Rattle.std.specs.Prelude.{◌≡◌, ◌≤◌, ◌*◌, length};
ghost use Rattle.fallible.specs.Errors.{error_width, errors_from};
ghost use Rattle.meaning.specs.Context.{All};
ghost use Rattle.text.specs.Length.{capped};
ghost use Rattle.descriptions.specs.Descriptions.{piece_of};
ghost use Rattle.error_messages.specs.Description.{text_of, description_of, ExistsAs, Readable};
ghost use Rattle.error_messages.specs.Messages.{messages_of};
ghost use Rattle.error_messages.specs.Inner.{inputs_of, error_in, Ready};

use crate::built_in::built_in_text;
use descriptions::{Piece, all_lines, line_bounds, operator_length, piece_of, word_of};
use display::Source;
use fallible::ERROR_WIDTH;
use listing::literal_text;
use text::{cap, capped_length, decimal_length};

// The length of what is printed for a byte of a description.
fn piece_length(source: &Source<'_, '_>, work: &[u32], byte: u8, word: u32) -> u32
    requires ready { Ready (inputs_of source.now) source.now.places.now work.now }
    requires exists_as { ExistsAs (inputs_of source.now) (piece_of byte) word }
    ensures { result ≡ capped (length
        (text_of (inputs_of source.now) (piece_of byte) byte word)) }
{
    let piece = piece_of(byte);
    match piece {
        Piece::Fixed => 1,
        Piece::Name => capped_length(source.name_text(word)),
        Piece::Row => work[word as usize - 1],
        Piece::Number => decimal_length(word),
        Piece::Operator => operator_length(word),
        Piece::BuiltIn => capped_length(built_in_text(source, word)),
        Piece::Literal => capped_length(literal_text(source.s, word as usize)),
    }
}

// The length of an error's description.
fn message_length(source: &Source<'_, '_>, work: &[u32], error: &[u32]) -> u32
    requires ready { Ready (inputs_of source.now) source.now.places.now work.now }
    requires error_width_in_bounds { (error_width ≤ length error.now)
        × Readable (inputs_of source.now) (error_in error.now) }
    ensures { result ≡ capped (length
        (description_of (inputs_of source.now) (error_in error.now))) }
{
    let lines = all_lines();
    let bounds = line_bounds(error[0]);
    let line = &lines[bounds.start..bounds.end];
    let mut total = 0;
    for &byte in line {
        let word = error[word_of(byte)];
        let length = piece_length(source, work, byte, word);
        total = cap(u64::from(total) + u64::from(length));
    }
    total
}

// The length of the descriptions of the first `many` errors.
pub(crate) fn messages_length(
    source: &Source<'_, '_>,
    work: &[u32],
    errors: &[u32],
    many: usize,
) -> u32
    requires ready { Ready (inputs_of source.now) source.now.places.now work.now }
    requires many_in_bounds { (error_width * many ≤ length errors.now)
        × All (Readable (inputs_of source.now)) (errors_from errors.now 0 many) }
    ensures { result ≡ capped (length (messages_of (inputs_of source.now) errors.now many)) }
{
    let mut total = 0;
    for i in 0..many {
        let error = &errors[ERROR_WIDTH * i..];
        let length = message_length(source, work, error);
        total = cap(u64::from(total) + u64::from(length));
    }
    total
}
