// Where the names and the integer literals of a module stand.
#![tactic(auto)]

ghost use Rattle.std.specs.Prelude.{◌≡◌, ◌≤◌, ◌<◌, IfSome, length, replicate, unwrap_or};
ghost use Rattle.rows.specs.Search.{Decides};
ghost use Rattle.record_bytes.specs.Bytes.{head_end};
ghost use Rattle.layout.specs.Layout.{max_bytes};
ghost use Rattle.trees.specs.Record.{records_at};
ghost use Rattle.listing.specs.Names.{max_names, NamesFound};
ghost use Rattle.listing.specs.Literals.{literals_in, literal_places, literal_text, IsLiteral, LiteralStands};
ghost use Rattle.listing.specs.Literals.{Marked, mark_all, marked_here, bytes_before, children_start};

use layout::MAX_DEPTH;
use names::{FIRST_NAME, names_end, next_place};
use record_bytes::{FIELD_END, FIELDS_END, HEAD_END, KIND, half, length_at};
use shape::kinds;
use shape::kinds::INTEGER;

// No module has so many names: each has a head of 16 bytes.
pub const MAX_NAMES: usize = 4096;

// Stores the places of a module's names, by number, and answers how many there are.
pub fn list_names(s: &[u8], places: &mut [u16]) -> u32
    requires { (length s.now ≤ max_bytes) × (max_names ≤ length places.old) }
    ensures { NamesFound s.now places.old places.new result }
{
    if s.len() < FIELD_END {
        return 0;
    }
    let end = names_end(s);
    let mut at = FIRST_NAME;
    let mut count: u32 = 0;
    // No `for`: where a record starts is read from the one before it.
    while let Some(next) = next_place(s, at, end) {
        places[count as usize] = at as u16;
        at = next;
        count += 1;
    }
    count
}

// Marks the place of a record if it is a literal. A mark is a 1 and no `bool`, as the definition `Marked` has it.
fn mark_here(s: &[u8], at: usize, marks: &mut [u8])
    requires { (head_end at ≤ length s.now) × (length s.now ≤ length marks.old) }
    ensures { marks.new ≡ marked_here s.now at marks.old }
{
    if half(s, at + KIND) == INTEGER {
        marks[at] = 1;
    }
}

// How many bytes stand before the children in a record of a kind, if no free bytes follow its fields. The functions of
// `shape` are not asked: with a second use they are no longer compiled into the walks (docs/PERFORMANCE.md).
fn bytes_before(kind: u32) -> Option<usize>
    ensures value { unwrap_or result 0 ≡ bytes_before kind }
    ensures some { IfSome result (λ before. 0 < before) }
{
    match kind {
        kinds::NAME
        | kinds::INTEGER
        | kinds::STRING
        | kinds::INLINE_ASSEMBLY
        | kinds::USE_ITEM
        | kinds::ASSEMBLY_ITEM => None,
        kinds::NAMED_TYPE
        | kinds::ARRAY_TYPE
        | kinds::IDENTIFIER
        | kinds::BOOLEAN
        | kinds::FIELD_ACCESS
        | kinds::ARITHMETIC_BIN_OP
        | kinds::COMPARISON_BIN_OP
        | kinds::TYPE_ALIAS => Some(FIELDS_END),
        kinds::NAMED_TYPE..=kinds::FIELD
        | kinds::CALL..=kinds::SIZEOF
        | kinds::COMPOUND_FIELD
        | kinds::BLOCK
        | kinds::VARIABLE_DECLARATION
        | kinds::FUNCTION_DEFINITION
        | kinds::GLOBAL_DECLARATION
        | kinds::PARAMETER => Some(FIELD_END),
        _ => Some(HEAD_END),
    }
}

// Where the children of the record from `at` to `stop` start: at `stop` if free bytes follow its fields.
fn children_start(s: &[u8], at: usize, stop: usize) -> usize
    requires { (head_end at ≤ stop) × (stop ≤ length s.now) }
    ensures { result ≡ children_start s.now at stop }
{
    match bytes_before(half(s, at + KIND)) {
        Some(before) => at + before,
        None => stop,
    }
}

// Marks the places of the literals among the records from `from` to `end`, so many levels deep.
fn mark_records(s: &[u8], depth: usize, from: usize, end: usize, marks: &mut [u8])
    requires { (end ≤ length s.now) × (length s.now ≤ length marks.old) }
    ensures { marks.new ≡ mark_all (literals_in (records_at s.now depth from end)) marks.old }
{
    if depth < 1 {
        return;
    }
    let mut at = from;
    // No `for`: where a record starts is read from the one before it.
    while let Some(next) = next_place(s, at, end) {
        mark_here(s, at, marks);
        let inner = children_start(s, at, next);
        mark_records(s, depth - 1, inner, next, marks);
        at = next;
    }
}

// Marks the places of a module's literals. The marks begin as 0, one for each byte that a module may have.
pub fn mark_literals(s: &[u8], marks: &mut [u8])
    requires { (length s.now ≤ max_bytes) × (marks.old ≡ replicate max_bytes 0) }
    ensures marked { Marked s.now marks.new }
    ensures marks_value { marks.new ≡ mark_all (literal_places s.now) marks.old }
{
    mark_records(s, MAX_DEPTH, 0, s.len(), marks);
}

// Whether a literal stands at a place.
pub fn is_literal(s: &[u8], marks: &[u8], place: u32) -> bool
    requires { Marked s.now marks.now }
    ensures { Decides (IsLiteral s.now place) result }
{
    let at = place as usize;
    at < s.len() && marks[at] == 1
}

// The digits of the literal at a place.
pub fn literal_text(s: &[u8], place: usize) -> &[u8]
    requires { LiteralStands s.now place }
    ensures { result.now ≡ literal_text s.now place }
{
    let length = length_at(s, place);
    if length < FIELDS_END {
        return &[];
    }
    let stop = place + length;
    let start = place + FIELDS_END;
    &s[start..stop]
}
