// Test 4: the first name that is equal to an earlier one, by an index of the names.
#![tactic(auto)]

ghost use Rattle.std.specs.Prelude.{◌≡◌, ◌+◌, ◌≤◌, length};
ghost use Rattle.record_bytes.specs.Bytes.{head_size, field_size};
ghost use Rattle.names.specs.Names.{name_refusal, name_test};
ghost use Rattle.name_index.specs.NameIndex.{indexed, Hashed, HasNames, Looked};

use names::{FIRST_NAME, find_name, name_at, names_end, next_place, same_bytes};
use record_bytes::{FIELD_END, HEAD_END, length_at};

// An index of the names passed: for each hash the place of the last name that has it, then for each name, at its place
// / 16, the place of the one before it with its hash; 0 is none. A record has 16 bytes or more, so no two names share
// an entry.
const HEADS: usize = 1024;

const INDEX: usize = 5120;

// The most bytes of a file whose names all have an entry.
const INDEXED: usize = 65536;

// The hash of a text.
fn hash(text: &[u8]) -> usize
    ensures { Hashed text.now result }
{
    let mut h: u32 = 0;
    for x in text {
        h = h.wrapping_add(u32::from(*x)).wrapping_mul(668265263);
    }
    (h / 4194304) as usize
}

// Whether a name in the index has this text, whose hash is h.
fn is_listed(s: &[u8], index: &[u16; INDEX], text: &[u8], h: usize) -> bool
    requires s_len_bound { (length s.now ≤ indexed) × HasNames s.now index.now }
    requires hashed { Hashed text.now h }
    ensures { Looked s.now index.now text.now result }
{
    let mut at = index[h] as usize;
    while at != 0 {
        let stop = at + length_at(s, at);
        if same_bytes(name_at(s, at, stop), text) {
            return true;
        }
        at = index[HEADS + at / HEAD_END] as usize;
    }
    false
}

// Refusal 4 in a file that is too long for the index: a name is repeated if the first name with its text has another
// number.
fn repeated_in_long(s: &[u8]) -> Option<usize>
    requires { head_size + field_size ≤ length s.now }
    ensures { name_refusal result ≡ name_test s.now }
{
    let end = names_end(s);
    let mut at = FIRST_NAME;
    let mut count = 0;
    while let Some(next) = next_place(s, at, end) {
        if find_name(s, name_at(s, at, next)) != count {
            return Some(at);
        }
        at = next;
        count += 1;
    }
    None
}

// Refusal 4: the place of the first name that is equal to an earlier one. Each is looked for among those before it that
// have its hash.
pub fn repeated_name(s: &[u8]) -> Option<usize>
    ensures { name_refusal result ≡ name_test s.now }
{
    if s.len() < FIELD_END {
        return None;
    }
    if INDEXED < s.len() {
        return repeated_in_long(s);
    }
    let end = names_end(s);
    let mut index = [0u16; INDEX];
    let mut at = FIRST_NAME;
    while let Some(next) = next_place(s, at, end) {
        let text = name_at(s, at, next);
        let h = hash(text);
        if is_listed(s, &index, text, h) {
            return Some(at);
        }
        index[HEADS + at / HEAD_END] = index[h];
        index[h] = at as u16;
        at = next;
    }
    None
}
