// Messages written into a lent text.
ghost use Rattle.std.specs.Prelude.{◌≤◌, ◌*◌, length};
ghost use Rattle.fallible.specs.Errors.{error_width, errors_from};
ghost use Rattle.meaning.specs.Context.{All};
ghost use Rattle.text.specs.Written.{Fits, Written};
ghost use Rattle.descriptions.specs.Descriptions.{piece_of};
ghost use Rattle.error_messages.specs.Description.{text_of, description_of, ExistsAs, Readable};
ghost use Rattle.error_messages.specs.Messages.{messages_of};
ghost use Rattle.error_messages.specs.Inner.{inputs_of, error_in, Ready};

use crate::built_in::built_in_text;
use descriptions::{Piece, all_lines, line_bounds, piece_of, put_operator, word_of};
use display::Source;
use fallible::ERROR_WIDTH;
use listing::literal_text;
use text::{put, put_decimal};

// Writes what is printed for a byte of a description, and returns the place behind it.
fn write_piece(
    source: &Source<'_, '_>,
    work: &[u32],
    byte: u8,
    word: u32,
    text: &mut [u8],
    at: usize,
) -> usize
    requires ready { Ready (inputs_of source.now) source.now.places.now work.now }
    requires exists_as { ExistsAs (inputs_of source.now) (piece_of byte) word }
    requires fits { Fits (text_of (inputs_of source.now) (piece_of byte) byte word) text.old at }
    ensures { Written (text_of (inputs_of source.now) (piece_of byte) byte word)
        text.old text.new at result }
{
    let piece = piece_of(byte);
    match piece {
        Piece::Fixed => {
            text[at] = byte;
            at + 1
        }
        Piece::Name => put(text, at, source.name_text(word)),
        Piece::Row => source.write_type(word, work, text, at),
        Piece::Number => put_decimal(text, at, word),
        Piece::Operator => put_operator(text, at, word),
        Piece::BuiltIn => put(text, at, built_in_text(source, word)),
        Piece::Literal => put(text, at, literal_text(source.s, word as usize)),
    }
}

// Writes an error's description, and returns the place behind it.
fn write_message(
    source: &Source<'_, '_>,
    work: &[u32],
    error: &[u32],
    text: &mut [u8],
    from: usize,
) -> usize
    requires ready { Ready (inputs_of source.now) source.now.places.now work.now }
    requires error_width_in_bounds { (error_width ≤ length error.now)
        × Readable (inputs_of source.now) (error_in error.now) }
    requires fits { Fits (description_of (inputs_of source.now) (error_in error.now))
        text.old from }
    ensures { Written (description_of (inputs_of source.now) (error_in error.now))
        text.old text.new from result }
{
    let lines = all_lines();
    let bounds = line_bounds(error[0]);
    let line = &lines[bounds.start..bounds.end];
    let mut at = from;
    for &byte in line {
        let word = error[word_of(byte)];
        at = write_piece(source, work, byte, word, text, at);
    }
    at
}

// Writes the descriptions of the first `many` errors from the text's start on.
pub(crate) fn write_messages(
    source: &Source<'_, '_>,
    work: &[u32],
    errors: &[u32],
    many: usize,
    text: &mut [u8],
) -> usize
    requires ready { Ready (inputs_of source.now) source.now.places.now work.now }
    requires many_in_bounds { (error_width * many ≤ length errors.now)
        × All (Readable (inputs_of source.now)) (errors_from errors.now 0 many) }
    requires fits { Fits (messages_of (inputs_of source.now) errors.now many) text.old 0 }
    ensures { Written (messages_of (inputs_of source.now) errors.now many)
        text.old text.new 0 result }
{
    let mut at = 0;
    for i in 0..many {
        let error = &errors[ERROR_WIDTH * i..];
        at = write_message(source, work, error, text, at);
    }
    at
}
