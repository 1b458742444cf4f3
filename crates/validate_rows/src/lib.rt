// Whether rows that somebody lends keep the rules of a table (document 01, "Type rows").
#![tactic(auto)]

ghost use Rattle.std.specs.Prelude.{◌≡◌, ◌+◌, ◌*◌, ◌^◌, ◌≤◌, ◌<◌, length};
ghost use Rattle.rows.specs.Row.{row_width, size_word_at};
ghost use Rattle.rows.specs.Search.{Decides};
ghost use Rattle.types.specs.WordSize.{size_word};
ghost use Rattle.types.specs.Table.{fixed_length, FixedRows, first_part, second_part, build, unfolded, Sizes, Table, RowOk};
ghost use Rattle.types.specs.Table.{PartOk, NameOk, IsType, IsCell};

use rows::{ROW_WIDTH, Words, row_at, size_word_at};
use types::{
    ALIAS, ARGUMENT, ARRAY, DISTINCT_ALIAS, FIELD, FIXED_COUNT, FIXED_LENGTH, FIXED_WORDS,
    FUNCTION, POINTER, PartKind, STRING_NAME, STRUCT, UNKNOWN, highest_part, size_word,
};

// Whether v is a type row among the rows 1 to m.
pub fn is_type(rows: &[u32], m: u32, v: u32) -> bool
    requires { row_width * m ≤ length rows.now }
    ensures { Decides (IsType rows.now m v) result }
{
    1 <= v && v <= m && row_at(rows, v).kind <= DISTINCT_ALIAS
}

// Whether v is 0, or a cell of that kind among the rows 1 to m.
fn is_cell(rows: &[u32], m: u32, kind: u32, v: u32) -> bool
    requires { row_width * m ≤ length rows.now }
    ensures { Decides (IsCell rows.now m kind v) result }
{
    v == 0 || v <= m && row_at(rows, v).kind == kind
}

// What the first word of a row of that kind is.
fn first_part(kind: u32) -> PartKind
    ensures { result ≡ first_part kind }
{
    match kind {
        ..POINTER => PartKind::Unused,
        STRUCT => PartKind::Fields,
        _ => PartKind::TypeRow,
    }
}

// What the second word is.
fn second_part(kind: u32) -> PartKind
    ensures { result ≡ second_part kind }
{
    match kind {
        ARRAY => PartKind::Size,
        FIELD => PartKind::Fields,
        FUNCTION | ARGUMENT => PartKind::Arguments,
        _ => PartKind::Unused,
    }
}

// Whether v may stand where that part is due, behind the rows 1 to m.
fn is_part(rows: &[u32], m: u32, part: PartKind, v: u32) -> bool
    requires { row_width * m ≤ length rows.now }
    ensures { Decides (PartOk rows.now m part v) result }
{
    match part {
        PartKind::Unused => v == 0,
        PartKind::TypeRow => is_type(rows, m, v),
        PartKind::Size => true,
        PartKind::Fields => is_cell(rows, m, FIELD, v),
        PartKind::Arguments => is_cell(rows, m, ARGUMENT, v),
    }
}

// Whether row n, of that kind, may have that name.
fn is_name(n: u32, kind: u32, name: u32) -> bool
    ensures { Decides (NameOk n kind name) result }
{
    name == 0 || ALIAS <= kind && kind <= FIELD && (name != STRING_NAME || n == FIXED_COUNT)
}

// Whether the row may stand behind the rows 1 to m.
fn is_row(rows: &[u32], m: u32, row: Words) -> bool
    requires { (row_width * m ≤ length rows.now) × (m + 1 < 2 ^ 32) }
    ensures { Decides (RowOk rows.now m row) result }
{
    UNKNOWN <= row.kind
        && row.kind <= ARGUMENT
        && is_part(rows, m, first_part(row.kind), row.first)
        && is_part(rows, m, second_part(row.kind), row.second)
        && is_name(m + 1, row.kind, row.name)
}

// Whether the fifth word of row m + 1, behind the rows 1 to m, is its size.
fn has_size(rows: &[u32], m: u32, row: Words) -> bool
    requires row_ok { RowOk rows.now m row × Sizes rows.now m × (row_width * m + row_width ≤ length rows.now) }
    requires m_bound { m + 1 < 2 ^ 32 }
    ensures { Decides (size_word_at rows.now (m + 1) ≡ size_word (build row (unfolded rows.now))) result }
{
    size_word_at(rows, m + 1) == size_word(rows, m, row)
}

// Whether the table begins with the fixed rows.
#[tactic(auto, using(crate::proofs::Tested::fixed_by))]
fn has_fixed_rows(rows: &[u32]) -> bool
    requires { fixed_length ≤ length rows.now }
    ensures { Decides (FixedRows rows.now) result }
{
    rows.starts_with(&FIXED_WORDS)
}

// Whether the first `count` rows obey the rules.
pub fn is_table(rows: &[u32], count: u32) -> bool
    ensures { Decides (Table rows.now count) result }
{
    if count < FIXED_COUNT || rows.len() < ROW_WIDTH * (count as usize) || !has_fixed_rows(rows) {
        return false;
    }
    let mut index = [0u16; row_index::LENGTH];
    for m in 0..count {
        let row = row_at(rows, m + 1);
        if !is_row(rows, m, row) {
            return false;
        }
        if !has_size(rows, m, row) {
            return false;
        }
        let below = highest_part(row);
        if row_index::find(rows, &index, below, m, row).is_some() {
            return false;
        }
        row_index::link(&mut index, m + 1, row);
    }
    true
}
