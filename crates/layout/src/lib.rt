// The walk over a module's layout: refusals 1 to 3.
#![tactic(auto)]

ghost use Rattle.std.specs.Prelude.{◌≡◌, ◌+◌, ◌≤◌, length};
ghost use Rattle.layout.specs.Layout.{Part, is_bad, head_at, LayoutOfList, layout_refusal};
ghost use Rattle.layout.specs.Layout.{layout_tests, cause_of};

use names::name_count;
use record_bytes::{FIELD, FIELD_END, HEAD_END, KIND, half, length_at, word};
use refusal::Refusal;
use shape::{
    Due, Holds, Rule, UNLISTED, allows, due_in, is_done, may_stand, shape_of, state_after,
};

// The most bytes of a module, and the most levels of records, the module being the first.
pub const MAX_BYTES: usize = 65536;

pub const MAX_DEPTH: usize = 64;

// Why a module does not keep the layout.
#[derive(Clone, Copy, Debug, PartialEq, Eq)]
pub enum LayoutError {
    TooLong,
    // The first byte of a fault.
    Fault(usize),
    // The record that is too deep.
    TooDeep(usize),
}

impl From<LayoutError> for Refusal {
    ghost from_gives = { λ error cause. cause ≡ cause_of error };

    fn from(error: LayoutError) -> Refusal {
        match error {
            LayoutError::TooLong => Refusal::TooLong,
            LayoutError::Fault(place) => Refusal::BadLayout(place),
            LayoutError::TooDeep(place) => Refusal::TooDeep(place),
        }
    }
}

// The head of a record: where its children start, where it stops, the state of their list, and the state of the list that
// the record is in, after it.
#[derive(Clone, Copy)]
pub struct Head {
    pub start: usize,
    pub stop: usize,
    pub holds: Holds,
    pub next: Holds,
}

// Whether the field at `at`, the nth of a record with so many fields, if it has so many, has a value that its rule
// does not allow.
fn is_bad(s: &[u8], names: u32, nth: usize, fields: usize, rule: Rule, at: usize) -> bool
    requires { nth ≤ fields → at + 4 ≤ length s.now }
    ensures { result ≡ is_bad names s.now nth fields rule at }
{
    nth <= fields && !allows(names, rule, word(s, at))
}

// The head of the record that is due at `at`, in a list that ends at `end`; or the place of a fault.
fn head_at(s: &[u8], names: u32, at: usize, end: usize, due: Due) -> Result<Head, LayoutError>
    requires { Part s.now at end }
    ensures { result ≡ head_at names s.now at end due }
{
    let room = end - at;
    if room < HEAD_END {
        return Err(LayoutError::Fault(at));
    }
    let len = length_at(s, at);
    if room < len {
        return Err(LayoutError::Fault(at));
    }
    let shape = shape_of(half(s, at + KIND));
    let fields = shape.fields;
    if len < HEAD_END + FIELD * fields {
        return Err(LayoutError::Fault(at));
    }
    let class = shape.class;
    if !may_stand(due, class) {
        return Err(LayoutError::Fault(at));
    }
    if is_bad(s, names, 1, fields, shape.first, at + HEAD_END) {
        return Err(LayoutError::Fault(at + HEAD_END));
    }
    if is_bad(s, names, 2, fields, shape.second, at + FIELD_END) {
        return Err(LayoutError::Fault(at + FIELD_END));
    }
    Ok(Head {
        start: at + HEAD_END + FIELD * fields,
        stop: at + len,
        holds: shape.holds,
        next: state_after(due, class),
    })
}

// The layout of a child list, with so many levels left for its records.
fn walk_list(
    s: &[u8],
    names: u32,
    from: usize,
    end: usize,
    depth: usize,
    holds: Holds,
) -> Result<(), LayoutError>
    requires { Part s.now from end }
    ensures { LayoutOfList names s.now depth from end holds result }
{
    let mut at = from;
    let mut state = holds;
    loop {
        let due = due_in(state);
        if is_done(due, at, end) {
            return Ok(());
        }
        if due.class == UNLISTED {
            return Err(LayoutError::Fault(at));
        }
        if depth < 1 {
            return Err(LayoutError::TooDeep(at));
        }
        let head = head_at(s, names, at, end, due)?;
        // most records hold no other: no call for those
        if !is_done(due_in(head.holds), head.start, head.stop) {
            walk_list(s, names, head.start, head.stop, depth - 1, head.holds)?;
        }
        at = head.stop;
        state = head.next;
    }
}

// Refusals 1 to 3, in the order in which a walk in byte order meets them. A file of no bytes has none.
pub fn check_layout(s: &[u8]) -> Result<(), LayoutError>
    ensures { layout_refusal result ≡ layout_tests s.now }
{
    let n = s.len();
    if n == 0 {
        return Ok(());
    }
    if MAX_BYTES < n {
        return Err(LayoutError::TooLong);
    }
    walk_list(s, name_count(s), 0, n, MAX_DEPTH, Holds::OneModule)
}
