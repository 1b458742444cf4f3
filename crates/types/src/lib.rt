// The table of type rows in a lent slice, rows numbered from 1, no two alike.
// Whoever calls these functions knows a row only by the type that it unfolds to.
#![tactic(auto)]

ghost use Rattle.std.specs.Prelude.{◌≡◌, ◌+◌, ◌*◌, ◌≤◌, ◌<◌, length};
ghost use Rattle.row_index.specs.Index.{RowsIndexed, with_rows};
ghost use Rattle.types.specs.Ty.{kind_of, first_of, second_of, size_of, name_of, desugar as desugared, remove_aliasing, strip_to};
ghost use Rattle.types.specs.Ty.{cell_count, field_named, array_kind, struct_kind, function_kind, field_kind};
ghost use Rattle.types.specs.Ty.{argument_kind};
ghost use Rattle.types.specs.WordSize.{size_word};
ghost use Rattle.types.specs.Table.{row_width, fixed_length, build, unfolded, RowOk, Sizes, Table, IsType, IsList};
ghost use Rattle.types.specs.Post.{words_of, highest_part, part_word, PartsOk, InternPost, count_after, FixedStored};
ghost use Rattle.types.specs.Post.{HasTypePart, TypePart, CellPart, FoundType, OnlyAliases, StrippedBy};

use rows::{ROW_WIDTH, Words, row_at, row_from, size_word_at, store};
use size_words::{UNKNOWN_WORD, array_word, field_word, known_word};

// The rows that every table begins with, and their words.
pub const FIXED_COUNT: u32 = 7;

pub const FIXED_LENGTH: usize = ROW_WIDTH * (FIXED_COUNT as usize);

// The row of String; that of another built-in type has the number of its kind.
pub const STRING: u32 = 7;

// The kinds of rows. They are numbers and no enum, since a kind is a word of lent rows: test 8 is lent any word there, and
// the rows are sorted by their order.
pub const UNKNOWN: u32 = 1;

pub const VOID: u32 = 2;

pub const BOOL: u32 = 3;

pub const U16: u32 = 4;

pub const I16: u32 = 5;

pub const POINTER: u32 = 6;

pub const ARRAY: u32 = 7;

pub const STRUCT: u32 = 8;

pub const FUNCTION: u32 = 9;

pub const ALIAS: u32 = 10;

pub const DISTINCT_ALIAS: u32 = 11;

pub const FIELD: u32 = 12;

pub const ARGUMENT: u32 = 13;

// The name of String, which no other row has.
pub const STRING_NAME: u32 = 65535;

// Unknown, void, bool, u16, i16, pointer to u16, String.
pub const FIXED_WORDS: [u32; FIXED_LENGTH] = [
    UNKNOWN,
    0,
    0,
    0,
    UNKNOWN_WORD,
    VOID,
    0,
    0,
    0,
    0,
    BOOL,
    0,
    0,
    0,
    1,
    U16,
    0,
    0,
    0,
    1,
    I16,
    0,
    0,
    0,
    1,
    POINTER,
    4,
    0,
    0,
    1,
    DISTINCT_ALIAS,
    6,
    0,
    STRING_NAME,
    1,
];

// What the first or the second word of a row is: 0, a type row, a size, or a list of cells.
#[derive(Clone, Copy)]
pub enum PartKind {
    Unused,
    TypeRow,
    Size,
    Fields,
    Arguments,
}

// A row to be found or added: its kind and parts.
#[derive(Clone, Copy)]
pub enum Row {
    Pointer(u32),
    Array { element: u32, size: u32 },
    Struct(u32),
    Function { returned: u32, arguments: u32 },
    Alias { ty: u32, name: u32 },
    DistinctAlias { ty: u32, name: u32 },
    Field { ty: u32, rest: u32, name: u32 },
    Argument { ty: u32, rest: u32 },
}

// The answer of `intern` where there is room: the row's number and the new count.
#[derive(Clone, Copy)]
pub struct Interned {
    pub number: u32,
    pub count: u32,
}

// The kind of row n.
pub fn kind(rows: &[u32], count: u32, n: u32) -> u32
    requires { Table rows.now count × (1 ≤ n) × (n ≤ count) }
    ensures { result ≡ kind_of (unfolded rows.now n) }
{
    let row = row_at(rows, n);
    row.kind
}

// The name of row n, or 0.
pub fn name(rows: &[u32], count: u32, n: u32) -> u32
    requires { Table rows.now count × (1 ≤ n) × (n ≤ count) }
    ensures { result ≡ name_of (unfolded rows.now n) }
{
    let row = row_at(rows, n);
    row.name
}

// The size of row n: how many words its type has, or a word that stands for no number.
pub fn words(rows: &[u32], count: u32, n: u32) -> u32
    requires { Table rows.now count × (1 ≤ n) × (n ≤ count) }
    ensures { result ≡ size_word (unfolded rows.now n) }
{
    size_word_at(rows, n)
}

// The size of an array.
pub fn size(rows: &[u32], count: u32, n: u32) -> u32
    requires { Table rows.now count × (1 ≤ n) × (n ≤ count) × (kind_of (unfolded rows.now n) ≡ array_kind) }
    ensures { result ≡ size_of (unfolded rows.now n) }
{
    let array = row_at(rows, n);
    array.second
}

// The type in row n: a pointee, an element, a returned type, an alias' type, a field's or an argument's.
pub fn part(rows: &[u32], count: u32, n: u32) -> u32
    requires { Table rows.now count × (1 ≤ n) × (n ≤ count) × HasTypePart (unfolded rows.now n) }
    ensures { TypePart rows.now count n (first_of (unfolded rows.now n)) result }
{
    let holder = row_at(rows, n);
    holder.first
}

// The first field cell of a struct, or 0.
pub fn fields(rows: &[u32], count: u32, n: u32) -> u32
    requires { Table rows.now count × (1 ≤ n) × (n ≤ count) × (kind_of (unfolded rows.now n) ≡ struct_kind) }
    ensures { CellPart rows.now count n field_kind (first_of (unfolded rows.now n)) result }
{
    let structure = row_at(rows, n);
    structure.first
}

// The first argument cell of a function, or 0.
pub fn arguments(rows: &[u32], count: u32, n: u32) -> u32
    requires { Table rows.now count × (1 ≤ n) × (n ≤ count) × (kind_of (unfolded rows.now n) ≡ function_kind) }
    ensures { CellPart rows.now count n argument_kind (second_of (unfolded rows.now n)) result }
{
    let function = row_at(rows, n);
    function.second
}

// The cell after the cell n, or 0.
pub fn rest(rows: &[u32], count: u32, n: u32) -> u32
    requires { Table rows.now count × (1 ≤ n) × (n ≤ count) × (field_kind ≤ kind_of (unfolded rows.now n)) }
    ensures { CellPart rows.now count n
        (kind_of (unfolded rows.now n)) (second_of (unfolded rows.now n)) result }
{
    let cell = row_at(rows, n);
    cell.second
}

// The five below follow rows, of which most point to the row before. As long as one does, the inner loop goes on there
// by its place alone, which need not wait for the word that was read (docs/DECISIONS.md, 91).

// The type of the first field of that name in a struct, or 0.
pub fn field_named(rows: &[u32], count: u32, n: u32, name: u32) -> u32
    requires { Table rows.now count × (1 ≤ n) × (n ≤ count) × (kind_of (unfolded rows.now n) ≡ struct_kind) }
    ensures { FoundType rows.now count (field_named name (first_of (unfolded rows.now n))) result }
{
    let mut cell = fields(rows, count, n);
    while cell != 0 {
        let mut place = ROW_WIDTH * (cell as usize) - ROW_WIDTH;
        loop {
            let row = row_from(rows, place);
            if row.name == name {
                return row.first;
            }
            let before = cell - 1;
            cell = row.second;
            if cell != before || cell == 0 {
                break;
            }
            place -= ROW_WIDTH;
        }
    }
    0
}

// How many cells the list has.
pub fn cell_count(rows: &[u32], count: u32, cell: u32) -> u32
    requires { Table rows.now count × IsList rows.now count cell }
    ensures { result ≡ cell_count (unfolded rows.now cell) }
{
    let mut at = cell;
    let mut cells: u32 = 0;
    while at != 0 {
        let mut place = ROW_WIDTH * (at as usize) - ROW_WIDTH;
        loop {
            let row = row_from(rows, place);
            cells += 1;
            let before = at - 1;
            at = row.second;
            if at != before || at == 0 {
                break;
            }
            place -= ROW_WIDTH;
        }
    }
    cells
}

// The row that is left of row n, of which one alias after the other is stripped at the top until the test stops at a row.
fn strip_until<F: Fn(u32, Words) -> bool>(rows: &[u32], count: u32, n: u32, stops: F) -> u32
    requires table { Table rows.now count × IsType rows.now count n }
    requires callable { F.IsAlwaysCallable stops }
    requires aliases { OnlyAliases rows.now count (F.post stops) }
    ensures { StrippedBy rows.now count n (F.post stops) result }
{
    let mut at = n;
    loop {
        let mut place = ROW_WIDTH * (at as usize) - ROW_WIDTH;
        loop {
            let row = row_from(rows, place);
            if stops(at, row) {
                return at;
            }
            let before = at - 1;
            at = row.first;
            if at != before {
                break;
            }
            place -= ROW_WIDTH;
        }
    }
}

// Row n with its transparent aliases stripped at the top.
pub fn desugar(rows: &[u32], count: u32, n: u32) -> u32
    requires { Table rows.now count × IsType rows.now count n }
    ensures { TypePart rows.now count (n + 1) (desugared (unfolded rows.now n)) result }
{
    strip_until(rows, count, n, |_, row| row.kind != ALIAS)
}

// Row n with its aliases of both sorts stripped at the top.
pub fn remove_aliasing(rows: &[u32], count: u32, n: u32) -> u32
    requires { Table rows.now count × IsType rows.now count n }
    ensures { TypePart rows.now count (n + 1) (remove_aliasing (unfolded rows.now n)) result }
{
    strip_until(rows, count, n, |_, row| row.kind < ALIAS)
}

// Row n with its distinct aliases stripped at the top, as far as the row that is wanted.
pub fn strip_to(rows: &[u32], count: u32, n: u32, wanted: u32) -> u32
    requires { Table rows.now count × IsType rows.now count n × (wanted ≤ count) }
    ensures { TypePart rows.now count (n + 1) (strip_to (unfolded rows.now wanted) (unfolded rows.now n)) result }
{
    strip_until(rows, count, n, move |at, row| {
        at == wanted || row.kind != DISTINCT_ALIAS
    })
}

// The words of a row that is asked for.
fn words_of(row: Row) -> Words
    ensures { result ≡ words_of row }
{
    match row {
        Row::Pointer(ty) => Words::new(POINTER, ty, 0, 0),
        Row::Array { element, size } => Words::new(ARRAY, element, size, 0),
        Row::Struct(fields) => Words::new(STRUCT, fields, 0, 0),
        Row::Function {
            returned,
            arguments,
        } => Words::new(FUNCTION, returned, arguments, 0),
        Row::Alias { ty, name } => Words::new(ALIAS, ty, 0, name),
        Row::DistinctAlias { ty, name } => Words::new(DISTINCT_ALIAS, ty, 0, name),
        Row::Field { ty, rest, name } => Words::new(FIELD, ty, rest, name),
        Row::Argument { ty, rest } => Words::new(ARGUMENT, ty, rest, 0),
    }
}

// The highest row that a row points to, or 0.
pub fn highest_part(row: Words) -> u32
    ensures { result ≡ highest_part row }
{
    if row.kind == ARRAY {
        row.first
    } else {
        row.first.max(row.second)
    }
}

// The size of a part: the fifth word of that row, or 0 for the number 0.
fn part_word(rows: &[u32], part: u32) -> u32
    requires { row_width * part ≤ length rows.now }
    ensures { result ≡ part_word rows.now part }
{
    if part < 1 {
        0
    } else {
        size_word_at(rows, part)
    }
}

// The size of a row that may stand behind the rows 1 to m, from the sizes of its parts. It is put into both callers, since
// both ask it of every row.
#[inline(always)]
pub fn size_word(rows: &[u32], m: u32, row: Words) -> u32
    requires { RowOk rows.now m row × Sizes rows.now m × (row_width * m ≤ length rows.now) }
    ensures { result ≡ size_word (build row (unfolded rows.now)) }
{
    match row.kind {
        ..=UNKNOWN => UNKNOWN_WORD,
        VOID => 0,
        BOOL..=POINTER => 1,
        ARRAY => array_word(part_word(rows, row.first), row.second),
        STRUCT => part_word(rows, row.first),
        FUNCTION => known_word(part_word(rows, row.first), part_word(rows, row.second), 1),
        ALIAS..=DISTINCT_ALIAS => part_word(rows, row.first),
        FIELD => field_word(part_word(rows, row.first), part_word(rows, row.second)),
        ARGUMENT.. => known_word(part_word(rows, row.first), part_word(rows, row.second), 0),
    }
}

// The row that is asked for: found, or added behind the first `count` rows, unless there is no room for one more.
// A row stands behind its parts, so the search starts behind the highest of them.
pub fn intern(
    rows: &mut [u32],
    index: &mut [u16; row_index::LENGTH],
    count: u32,
    row: Row,
) -> Option<Interned>
    requires table { Table rows.old count × PartsOk rows.old count row }
    requires rows_indexed { RowsIndexed rows.old count index.old }
    ensures intern_post { InternPost rows.old count row rows.new result }
    ensures index_value { index.new ≡ with_rows index.old rows.new count (count_after count result) }
{
    let wanted = words_of(row);
    let below = highest_part(wanted);
    if let Some(number) = row_index::find(rows, index, below, count, wanted) {
        return Some(Interned { number, count });
    }
    if rows.len() < ROW_WIDTH * (count as usize + 1) || count == u32::MAX {
        return None;
    }
    let size = size_word(rows, count, wanted);
    store(rows, count, wanted, size);
    row_index::link(index, count + 1, wanted);
    Some(Interned {
        number: count + 1,
        count: count + 1,
    })
}

// Stores the fixed rows. A loop: the library for C is to need no function from outside but memset, and a copy of slices
// needs two.
pub fn put_fixed_rows(rows: &mut [u32])
    requires { fixed_length ≤ length rows.old }
    ensures { FixedStored rows.old rows.new }
{
    let fixed = FIXED_WORDS;
    let mut i = 0;
    while i < FIXED_LENGTH {
        rows[i] = fixed[i];
        i += 1;
    }
}
