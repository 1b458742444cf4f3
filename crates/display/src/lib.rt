// `Display` of types, as bytes in a lent text: the lengths of all rows first, then the text of a row.
#![tactic(auto)]

ghost use Rattle.std.specs.Prelude.{◌≡◌, [], ◌≤◌, ◌-◌, length};
ghost use Rattle.types.specs.Ty.{unknown_kind, pointer_kind, array_kind, alias_kind, field_kind};
ghost use Rattle.types.specs.Table.{Table, unfolded};
ghost use Rattle.text.specs.Length.{capped};
ghost use Rattle.text.specs.Written.{Fits, Written};
ghost use Rattle.listing.specs.Names.{NamesListed};
ghost use Rattle.display.specs.Names.{NameExists};
ghost use Rattle.display.specs.Sources.{texts_in, IsPrintable, IsMeasured};
ghost use Rattle.display.specs.Length.{row_text, text_length, length_at, Filled};
ghost use Rattle.display.specs.Parts.{opening, middle, first_in, second_in, opening_of, PartRow};
ghost use Rattle.display.specs.Write.{Owned};

use names::name_at;
use record_bytes::length_at;
use text::{cap, capped_length, decimal_length, put, put_decimal};
use types::{
    ALIAS, ARRAY, BOOL, DISTINCT_ALIAS, FIELD, FUNCTION, I16, POINTER, STRING_NAME, STRUCT, U16,
    UNKNOWN, VOID,
};

// The rows of the parts in a row's text and their places: the first stands at `front`, the second at `back`; 0 for no row.
// No `Option`: 0 is the tables' own number for no row, as the definition `unfolded` has it.
#[derive(Clone, Copy)]
struct Inner {
    first: u32,
    front: usize,
    second: u32,
    back: usize,
}

// What the texts of types are read from: a module, the text for String, the places of the module's names, and its rows. A
// name is a part of the first two.
#[derive(Clone, Copy)]
pub struct Source<'a, 'b> {
    pub s: &'a [u8],
    pub built_in: &'a [u8],
    pub places: &'b [u16],
    pub rows: &'b [u32],
    pub count: u32,
}

// The row of the part that comes first in row n's text, or 0.
fn first_part(rows: &[u32], count: u32, n: u32) -> u32
    requires { Table rows.now count × (1 ≤ n) × (n ≤ count) }
    ensures { PartRow rows.now count n result (first_in (unfolded rows.now n)) }
{
    match types::kind(rows, count, n) {
        UNKNOWN..=I16 | DISTINCT_ALIAS => 0,
        STRUCT => types::fields(rows, count, n),
        FUNCTION => types::arguments(rows, count, n),
        _ => types::part(rows, count, n),
    }
}

// The row of the part that comes second, or 0.
fn second_part(rows: &[u32], count: u32, n: u32) -> u32
    requires { Table rows.now count × (1 ≤ n) × (n ≤ count) }
    ensures { PartRow rows.now count n result (second_in (unfolded rows.now n)) }
{
    match types::kind(rows, count, n) {
        FUNCTION => types::part(rows, count, n),
        UNKNOWN..=DISTINCT_ALIAS => 0,
        _ => types::rest(rows, count, n),
    }
}

// The length of row n's text, as the working words have it; 0 for the number 0.
fn length_of(work: &[u32], n: u32) -> u32
    requires { n ≤ length work.now }
    ensures { result ≡ length_at work.now n }
{
    if n == 0 {
        return 0;
    }
    work[n as usize - 1]
}

// The opening of a direct type or a pointer.
fn direct_text(kind: u32) -> &'static [u8]
    requires { (unknown_kind ≤ kind) × (kind ≤ pointer_kind) }
    ensures { result.now ≡ opening kind [] 0 }
{
    match kind {
        UNKNOWN => b"<unknown>",
        VOID => b"void",
        BOOL => b"bool",
        U16 => b"u16",
        I16 => b"i16",
        _ => b"*",
    }
}

// The middle of a row's text.
fn middle_text(kind: u32, last: bool) -> &'static [u8]
    ensures { result.now ≡ middle kind last }
{
    match kind {
        STRUCT => b" }",
        FUNCTION => b") -> ",
        ALIAS => b")",
        _ if kind < FIELD || last => b"",
        _ => b", ",
    }
}

// The length of the opening of a type with a name.
fn named_length(kind: u32, name: &[u8]) -> u32
    requires { (alias_kind ≤ kind) × (kind ≤ field_kind) }
    ensures { result ≡ capped (length (opening kind name.now 0)) }
{
    let length = capped_length(name);
    match kind {
        ALIAS => cap((length as u64) + (b" (alias for ".len() as u64)),
        DISTINCT_ALIAS => length,
        _ => cap((length as u64) + (b": ".len() as u64)),
    }
}

// Writes the opening of an array, and returns the place behind it.
fn write_size(text: &mut [u8], at: usize, size: u32) -> usize
    requires { Fits (opening array_kind [] size) text.old at }
    ensures { Written (opening array_kind [] size) text.old text.new at result }
{
    let start = put(text, at, b"[");
    let end = put_decimal(text, start, size);
    put(text, end, b"]")
}

// Writes the opening of a type with a name, and returns the place behind it.
fn write_named(text: &mut [u8], at: usize, kind: u32, name: &[u8]) -> usize
    requires alias_kind_le_kind { (alias_kind ≤ kind) × (kind ≤ field_kind) }
    requires fits { Fits (opening kind name.now 0) text.old at }
    ensures { Written (opening kind name.now 0) text.old text.new at result }
{
    let end = put(text, at, name);
    match kind {
        ALIAS => put(text, end, b" (alias for "),
        DISTINCT_ALIAS => end,
        _ => put(text, end, b": "),
    }
}

// Writes the middle of a row's text, and returns the place behind it. Each text is put in its own arm, where its length is
// known: that takes no loop.
fn write_middle(text: &mut [u8], at: usize, kind: u32, last: bool) -> usize
    requires { Fits (middle kind last) text.old at }
    ensures { Written (middle kind last) text.old text.new at result }
{
    match kind {
        STRUCT => put(text, at, b" }"),
        FUNCTION => put(text, at, b") -> "),
        ALIAS => put(text, at, b")"),
        _ if kind < FIELD || last => at,
        _ => put(text, at, b", "),
    }
}

impl<'a, 'b> Source<'a, 'b> {
    // The bytes of a name: a part of the module, or the built-in text.
    pub fn name_text(&self, name: u32) -> &'a [u8]
        requires names_listed { NamesListed self.now.s.now self.now.places.now }
        requires name_exists { NameExists self.now.s.now name }
        ensures { result.now ≡ texts_in self.now name }
    {
        if name == STRING_NAME {
            return self.built_in;
        }
        let place = self.places[name as usize];
        let at = place as usize;
        let stop = at + length_at(self.s, at);
        name_at(self.s, at, stop)
    }

    // The length of the opening of row n's text.
    fn opening_length(&self, n: u32) -> u32
        requires { IsPrintable self.now × (1 ≤ n) × (n ≤ self.now.count) }
        ensures { result ≡ capped (length (opening_of (texts_in self.now) (unfolded self.now.rows.now n))) }
    {
        let kind = types::kind(self.rows, self.count, n);
        match kind {
            UNKNOWN..=POINTER => direct_text(kind).len() as u32,
            ARRAY => (b"[]".len() as u32) + decimal_length(types::size(self.rows, self.count, n)),
            STRUCT => b"struct { ".len() as u32,
            FUNCTION => b"fn(".len() as u32,
            ALIAS..=FIELD => {
                let name = self.name_text(types::name(self.rows, self.count, n));
                named_length(kind, name)
            }
            _ => 0,
        }
    }

    // The length of row n's text, from those of the rows before it.
    fn row_length(&self, n: u32, work: &[u32]) -> u32
        requires measured { IsMeasured self.now (n - 1) work.now }
        requires le_n { (1 ≤ n) × (n ≤ self.now.count) }
        ensures { result ≡ text_length (texts_in self.now) (unfolded self.now.rows.now n) }
    {
        let kind = types::kind(self.rows, self.count, n);
        let first = first_part(self.rows, self.count, n);
        let second = second_part(self.rows, self.count, n);
        let opening = self.opening_length(n) as u64;
        let middle = middle_text(kind, second == 0).len() as u64;
        cap(opening + (length_of(work, first) as u64) + middle + (length_of(work, second) as u64))
    }

    // Fills one working word a row with the length of its text, in the order of the rows: each is measured once, however
    // many others hold it.
    pub fn fill_lengths(&self, work: &mut [u32])
        requires { IsPrintable self.now × (self.now.count ≤ length work.old) }
        ensures { Filled (texts_in self.now) self.now.rows.now self.now.count work.old work.new }
    {
        for i in 0..self.count {
            work[i as usize] = self.row_length(i + 1, work);
        }
    }

    // Writes the opening of row n's text, and returns the place behind it. Fixed texts are put as `write_middle` does.
    fn write_opening(&self, n: u32, text: &mut [u8], at: usize) -> usize
        requires printable { IsPrintable self.now × (1 ≤ n) × (n ≤ self.now.count) }
        requires fits { Fits (opening_of (texts_in self.now) (unfolded self.now.rows.now n)) text.old at }
        ensures { Written (opening_of (texts_in self.now) (unfolded self.now.rows.now n)) text.old text.new at result }
    {
        let kind = types::kind(self.rows, self.count, n);
        match kind {
            UNKNOWN => put(text, at, b"<unknown>"),
            VOID => put(text, at, b"void"),
            BOOL => put(text, at, b"bool"),
            U16 => put(text, at, b"u16"),
            I16 => put(text, at, b"i16"),
            POINTER => put(text, at, b"*"),
            ARRAY => write_size(text, at, types::size(self.rows, self.count, n)),
            STRUCT => put(text, at, b"struct { "),
            FUNCTION => put(text, at, b"fn("),
            ALIAS..=FIELD => {
                let name = self.name_text(types::name(self.rows, self.count, n));
                write_named(text, at, kind, name)
            }
            _ => at,
        }
    }

    // Writes the bytes of row n's text that are its own, around the places of its parts.
    fn write_own(&self, n: u32, work: &[u32], text: &mut [u8], at: usize) -> Inner
        requires measured { IsMeasured self.now self.now.count work.now }
        requires le_n { (1 ≤ n) × (n ≤ self.now.count) }
        requires fits { Fits (row_text (texts_in self.now) self.now.rows.now n) text.old at }
        ensures { Owned (texts_in self.now) self.now.rows.now n text.old text.new at result }
    {
        let kind = types::kind(self.rows, self.count, n);
        let first = first_part(self.rows, self.count, n);
        let second = second_part(self.rows, self.count, n);
        let front = self.write_opening(n, text, at);
        let end = front + (length_of(work, first) as usize);
        let back = write_middle(text, end, kind, second == 0);
        Inner {
            first,
            front,
            second,
            back,
        }
    }

    // Writes the text of row n at `from`, and returns the place behind it. Of a row's two parts the one with the shorter
    // text is written by a call and the other in the loop's next turn, so that calls nest at most 20 deep, however deep the
    // type is: each has at most half the bytes to write of the one that made it, and the first at most 1,048,576
    // (proofs/Nesting.antt).
    pub fn write_type(&self, n: u32, work: &[u32], text: &mut [u8], from: usize) -> usize
        requires measured { IsMeasured self.now self.now.count work.now × (n ≤ self.now.count) }
        requires fits { Fits (row_text (texts_in self.now) self.now.rows.now n) text.old from }
        ensures { Written (row_text (texts_in self.now) self.now.rows.now n) text.old text.new from result }
    {
        let mut row = n;
        let mut at = from;
        while row != 0 {
            let Inner {
                first,
                front,
                second,
                back,
            } = self.write_own(row, work, text, at);
            if length_of(work, first) < length_of(work, second) {
                self.write_type(first, work, text, front);
                row = second;
                at = back;
            } else {
                self.write_type(second, work, text, back);
                row = first;
                at = front;
            }
        }
        from + (length_of(work, n) as usize)
    }
}
