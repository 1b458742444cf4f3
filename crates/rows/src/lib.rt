// Rows of five words in a slice, numbered from 1: read, looked for and stored. What they mean is told in `types`.
#![tactic(auto)]

ghost use Rattle.std.specs.Prelude.{◌≡◌, ◌+◌, ◌*◌, ◌≤◌, ◌<◌, length};
ghost use Rattle.rows.specs.Row.{words, row_width, row_from, row_at, size_word_at, stored};
ghost use Rattle.rows.specs.Search.{Decides, KeyOf, NoneWith, Skipped, NextWith, Found};

// Words in a row.
pub const ROW_WIDTH: usize = 5;

// The first four words of a row: they tell rows apart.
#[derive(Clone, Copy, PartialEq, Eq)]
pub struct Words {
    pub kind: u32,
    pub first: u32,
    pub second: u32,
    pub name: u32,
}

impl Words {
    pub fn new(kind: u32, first: u32, second: u32, name: u32) -> Self
        ensures { result ≡ words kind first second name }
    {
        Self {
            kind,
            first,
            second,
            name,
        }
    }
}

// A word of a row, and its place in it.
#[derive(Clone, Copy)]
struct Key {
    place: usize,
    word: u32,
}

// The first four words of row n.
pub fn row_at(rows: &[u32], n: u32) -> Words
    requires { (1 ≤ n) × (row_width * n ≤ length rows.now) }
    ensures { result ≡ row_at rows.now n }
{
    row_from(rows, ROW_WIDTH * (n as usize) - ROW_WIDTH)
}

// Those of the row that begins at this place.
pub fn row_from(rows: &[u32], place: usize) -> Words
    requires { place + row_width ≤ length rows.now }
    ensures { result ≡ row_from rows.now place }
{
    Words {
        kind: rows[place],
        first: rows[place + 1],
        second: rows[place + 2],
        name: rows[place + 3],
    }
}

// The fifth word of row n: its size.
pub fn size_word_at(rows: &[u32], n: u32) -> u32
    requires { (1 ≤ n) × (row_width * n ≤ length rows.now) }
    ensures { result ≡ size_word_at rows.now n }
{
    rows[ROW_WIDTH * (n as usize) - ROW_WIDTH + 4]
}

// Whether two rows have the same words. Rows behind the same part differ most often in the second word or the name, so
// these are compared first, which the derived `==` does not do.
pub fn alike(a: Words, b: Words) -> bool
    ensures { Decides (a ≡ b) result }
{
    a.second == b.second && a.name == b.name && a.first == b.first && a.kind == b.kind
}

// The word by which a row is looked for, since few rows have it: the name, or the second word, or the first, whichever
// is not 0.
fn key_of(row: Words) -> Key
    ensures { KeyOf row result }
{
    if row.name != 0 {
        Key {
            place: 3,
            word: row.name,
        }
    } else if row.second != 0 {
        Key {
            place: 2,
            word: row.second,
        }
    } else {
        Key {
            place: 1,
            word: row.first,
        }
    }
}

// Whether none of the four rows past row n has the key.
fn none_of_four(rows: &[u32], n: u32, key: Key) -> bool
    requires { (key.place < row_width) × (row_width * n + row_width * 4 ≤ length rows.now) }
    ensures { Decides (NoneWith rows.now key n (n + 4)) result }
{
    let at = ROW_WIDTH * (n as usize) + key.place;
    rows[at] != key.word
        && rows[at + ROW_WIDTH] != key.word
        && rows[at + ROW_WIDTH * 2] != key.word
        && rows[at + ROW_WIDTH * 3] != key.word
}

// Goes on from row m, four rows at a time, while none of them has the key.
fn skip_rows(rows: &[u32], m: u32, count: u32, key: Key) -> u32
    requires { (key.place < row_width) × (m ≤ count) × (row_width * count ≤ length rows.now) }
    ensures { Skipped rows.now m count key result }
{
    let mut n = m;
    while 4 <= count - n && none_of_four(rows, n, key) {
        n += 4;
    }
    n
}

// The first row past row m that has the key.
fn next_with(rows: &[u32], m: u32, count: u32, key: Key) -> Option<u32>
    requires { (key.place < row_width) × (m ≤ count) × (row_width * count ≤ length rows.now) }
    ensures { NextWith rows.now m count key result }
{
    for n in skip_rows(rows, m, count, key)..count {
        if rows[ROW_WIDTH * (n as usize) + key.place] == key.word {
            return Some(n + 1);
        }
    }
    None
}

// The first row past row m that has these words.
pub fn find(rows: &[u32], m: u32, count: u32, row: Words) -> Option<u32>
    requires { (m ≤ count) × (row_width * count ≤ length rows.now) }
    ensures { Found rows.now m count row result }
{
    let key = key_of(row);
    let mut n = m;
    while let Some(next) = next_with(rows, n, count, key) {
        if alike(row_at(rows, next), row) {
            return Some(next);
        }
        n = next;
    }
    None
}

// Stores the row and its size behind the first `count` rows.
pub fn store(rows: &mut [u32], count: u32, row: Words, size: u32)
    requires { row_width * count + row_width ≤ length rows.old }
    ensures { rows.new ≡ stored rows.old count row size }
{
    let at = ROW_WIDTH * (count as usize);
    rows[at..at + ROW_WIDTH].copy_from_slice(&[row.kind, row.first, row.second, row.name, size]);
}
