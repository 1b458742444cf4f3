// The records of a module in byte order, and their slots. What the module's layout promises is tested here, not asked
// for.
ghost use Rattle.std.specs.Prelude.{◌+◌, ◌<◌, ◌≤◌, length, unwrap_or, IfSome};
ghost use Rattle.program_support.specs.Slots.{SlotPlace, NextRecord};

use record_bytes::{FIELD, FIELD_END, HEAD_END, KIND, half, length_at};
use shape::{Rule, due_in, shape_of};

// Where the slot of the record at `at` is, with room for a field; only types and expressions have one.
pub fn slot_place(s: &[u8], at: usize) -> Option<usize>
    ensures value { SlotPlace s.now at (unwrap_or result (length s.now)) }
    ensures room { IfSome result (λ place. place + 4 ≤ length s.now) }
{
    if s.len() < at || s.len() - at < FIELD_END {
        return None;
    }
    let shape = shape_of(half(s, at + KIND));
    let first = shape.first;
    match first {
        Rule::Slot => Some(at + HEAD_END),
        _ => None,
    }
}

// Where the record after the one at `at` starts, in byte order: after its free bytes, or where its children start.
pub fn next_record(s: &[u8], at: usize) -> usize
    requires { at < length s.now }
    ensures { NextRecord s.now at result }
{
    let room = s.len() - at;
    if room < HEAD_END {
        return s.len();
    }
    let len = length_at(s, at);
    if room < len {
        return s.len();
    }
    let shape = shape_of(half(s, at + KIND));
    let start = HEAD_END + FIELD * shape.fields;
    if len < start {
        return s.len();
    }
    if due_in(shape.holds).free {
        return at + len;
    }
    at + start
}
