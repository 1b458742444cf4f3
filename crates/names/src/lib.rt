// The names of a module: the records in its record 2, numbered from 0.
#![tactic(auto)]

ghost use Rattle.std.specs.Prelude.{◌≡◌, ◌+◌, ◌≤◌, length};
ghost use Rattle.record_bytes.specs.Bytes.{word_at, head_size, field_size, head_end};
ghost use Rattle.names.specs.Names.{Following, NamesEnd, name_bytes, name_count, same_bytes, number_of, built_ins};

use record_bytes::{FIELD_END, HEAD_END, length_at};

// The numbers of the built-in types' names; of one that is no name, the number of names.
#[derive(Clone, Copy, Debug, PartialEq, Eq)]
pub struct BuiltIns {
    pub u16: u32,
    pub i16: u32,
    pub bool: u32,
    pub string: u32,
}

// Where the first name stands: behind the heads of the module and of the record of its names.
pub const FIRST_NAME: usize = 32;

// Where the record at `at` ends, if a whole one stands there in a part that ends at `end`.
pub fn next_place(s: &[u8], at: usize, end: usize) -> Option<usize>
    requires { end ≤ length s.now }
    ensures { Following s.now at end result }
{
    let room = end.checked_sub(at)?;
    if room < HEAD_END {
        return None;
    }
    let len = length_at(s, at);
    if len < HEAD_END {
        return None;
    }
    if room < len {
        return None;
    }
    Some(at + len)
}

// Where the record of the names ends.
#[tactic(auto, using(crate::proofs::NameLaws::ends_at))]
pub fn names_end(s: &[u8]) -> usize
    requires { head_size + field_size ≤ length s.now }
    ensures { NamesEnd s.now result }
{
    let len = length_at(s, HEAD_END);
    s.len().min(HEAD_END + len)
}

// How many names a module has.
pub fn name_count(s: &[u8]) -> u32
    ensures { result ≡ name_count s.now }
{
    if s.len() < FIELD_END {
        return 0;
    }
    let end = names_end(s);
    let mut at = FIRST_NAME;
    let mut count = 0;
    while let Some(next) = next_place(s, at, end) {
        at = next;
        count += 1;
    }
    count
}

// The bytes of the name record from `at` to `stop`.
pub fn name_at(s: &[u8], at: usize, stop: usize) -> &[u8]
    requires at_bound { (head_end at ≤ stop) × (stop ≤ length s.now) }
    requires stop_value { stop ≡ at + word_at s.now at }
    ensures { result.now ≡ name_bytes s.now at }
{
    let start = at + HEAD_END;
    &s[start..stop]
}

// Whether two texts are the same.
#[tactic(auto, using(crate::proofs::NameLaws::same_pointwise, crate::proofs::NameLaws::same_part))]
pub fn same_bytes(a: &[u8], b: &[u8]) -> bool
    ensures { result ≡ same_bytes a.now b.now }
{
    a == b
}

// The number of the first name with these bytes, or the number of names: `number_of` promises it so.
pub fn find_name(s: &[u8], text: &[u8]) -> u32
    ensures { result ≡ number_of s.now text.now }
{
    if s.len() < FIELD_END {
        return 0;
    }
    let end = names_end(s);
    let mut at = FIRST_NAME;
    let mut count = 0;
    while let Some(next) = next_place(s, at, end) {
        if same_bytes(name_at(s, at, next), text) {
            return count;
        }
        at = next;
        count += 1;
    }
    count
}

// The numbers of the built-in types' names.
pub fn built_ins(s: &[u8]) -> BuiltIns
    ensures { result ≡ built_ins s.now }
{
    BuiltIns {
        u16: find_name(s, b"u16"),
        i16: find_name(s, b"i16"),
        bool: find_name(s, b"bool"),
        string: find_name(s, b"String"),
    }
}
