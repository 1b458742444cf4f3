// Test 8: whether everything that messages read exists.
ghost use Rattle.std.specs.Prelude.{◌≡◌, ◌≤◌, ◌*◌, length};
ghost use Rattle.types.specs.Table.{Table, Decides};
ghost use Rattle.fallible.specs.Errors.{error_width, errors_from};
ghost use Rattle.layout.specs.Layout.{max_bytes};
ghost use Rattle.meaning.specs.Context.{All};
ghost use Rattle.listing.specs.Names.{NamesListed};
ghost use Rattle.listing.specs.Literals.{Marked};
ghost use Rattle.names.specs.Names.{name_count};
ghost use Rattle.display.specs.Names.{NamesExist};
ghost use Rattle.descriptions.specs.Descriptions.{piece_of};
ghost use Rattle.error_messages.specs.Description.{ExistsAs, Readable};
ghost use Rattle.error_messages.specs.Messages.{Sound};
ghost use Rattle.error_messages.specs.Inner.{inputs_of, error_in, Known, Named};

use crate::built_in::is_built_in;
use descriptions::{Piece, all_lines, is_operator, line_bounds, piece_of, word_of};
use display::Source;
use fallible::ERROR_WIDTH;
use listing::is_literal;
use names::name_count;
use types::{ALIAS, FIELD, STRING_NAME};
use validate_rows::{is_table, is_type};

// Whether what a byte of a description reads exists.
fn piece_exists(source: &Source<'_, '_>, names: u32, marks: &[u8], byte: u8, word: u32) -> bool
    requires { Known (inputs_of source.now) source.now.places.now marks.now names }
    ensures { Decides (ExistsAs (inputs_of source.now) (piece_of byte) word) result }
{
    let piece = piece_of(byte);
    match piece {
        Piece::Fixed => true,
        Piece::Name => word < names,
        Piece::Row => is_type(source.rows, source.count, word),
        Piece::Number => true,
        Piece::Operator => is_operator(word),
        Piece::BuiltIn => is_built_in(source, names, word),
        Piece::Literal => is_literal(source.s, marks, word),
    }
}

// Whether an error's description can be printed.
fn is_readable(source: &Source<'_, '_>, names: u32, marks: &[u8], error: &[u32]) -> bool
    requires known { Known (inputs_of source.now) source.now.places.now marks.now names }
    requires error_width_in_bounds { error_width ≤ length error.now }
    ensures { Decides (Readable (inputs_of source.now) (error_in error.now)) result }
{
    let lines = all_lines();
    let bounds = line_bounds(error[0]);
    if bounds.end <= bounds.start {
        return false;
    }
    let line = &lines[bounds.start..bounds.end];
    for &byte in line {
        let word = error[word_of(byte)];
        if !piece_exists(source, names, marks, byte, word) {
            return false;
        }
    }
    true
}

// Whether the descriptions of the first `many` errors can be printed.
fn all_readable(
    source: &Source<'_, '_>,
    names: u32,
    marks: &[u8],
    errors: &[u32],
    many: usize,
) -> bool
    requires known { Known (inputs_of source.now) source.now.places.now marks.now names }
    requires many_in_bounds { error_width * many ≤ length errors.now }
    ensures { Decides
        (All (Readable (inputs_of source.now)) (errors_from errors.now 0 many)) result }
{
    for i in 0..many {
        let error = &errors[ERROR_WIDTH * i..];
        if !is_readable(source, names, marks, error) {
            return false;
        }
    }
    true
}

// Whether the name of row n, if it has one, is String's or below the number of names.
fn has_name(rows: &[u32], count: u32, n: u32, names: u32) -> bool
    requires { Table rows.now count × (1 ≤ n) × (n ≤ count) }
    ensures { Decides (Named rows.now n names) result }
{
    let kind = types::kind(rows, count, n);
    if kind < ALIAS || FIELD < kind {
        return true;
    }
    let name = types::name(rows, count, n);
    name == STRING_NAME || name < names
}

// Whether every name of the rows exists.
fn has_names(s: &[u8], rows: &[u32], count: u32) -> bool
    requires { Table rows.now count }
    ensures { Decides (NamesExist s.now rows.now count) result }
{
    let names = name_count(s);
    for n in 0..count {
        if !has_name(rows, count, n + 1, names) {
            return false;
        }
    }
    true
}

// Test 8: whether the rows keep the rules, their names exist, so many errors are lent, and each can be printed.
pub(crate) fn is_sound(
    source: &Source<'_, '_>,
    names: u32,
    marks: &[u8],
    errors: &[u32],
    many: usize,
) -> bool
    requires s_len_bound { (length source.now.s.now ≤ max_bytes) × Marked source.now.s.now marks.now }
    requires names_listed { NamesListed source.now.s.now source.now.places.now × (names ≡ name_count source.now.s.now) }
    ensures { Decides (Sound (inputs_of source.now) errors.now many) result }
{
    is_table(source.rows, source.count)
        && has_names(source.s, source.rows, source.count)
        && many <= errors.len() / ERROR_WIDTH
        && all_readable(source, names, marks, errors, many)
}
