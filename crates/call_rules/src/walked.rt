// The same on a walk: it lends its words and takes the state that comes back. Rows and slots are lent by a
// reborrow: of a field that is lent shared only the length is known afterwards.
ghost use Rattle.std.specs.Prelude.{◌+◌, ◌≤◌, length};
ghost use Rattle.record_bytes.specs.Bytes.{head_end};
ghost use Rattle.relations.specs.TypeRows.{OneType};
ghost use Rattle.walk.specs.Loans.{OnlyErrors};
ghost use Rattle.walk.specs.Typed.{typed};
ghost use Rattle.call_rules.specs.Lists.{SlotsFilled, Call};

use walk::Walk;

// A call of a target of the type row `ty`.
pub fn call_result(
    s: &[u8],
    at: usize,
    ty: u32,
    from: usize,
    end: usize,
    walk: &mut Walk<'_>,
) -> u32
    requires { (head_end at ≤ length s.now) × SlotsFilled walk.old.rows.now walk.old.state.rows s.now walk.old.output.now from end
        × OneType walk.old.rows.now walk.old.state.rows ty }
    ensures effect { Call s.now at ty from end
        walk.old.output.now walk.old.rows.now walk.old.errors.now walk.old.state
        walk.new.errors.now (typed result walk.new.state) }
    ensures loans { OnlyErrors walk.old walk.new }
{
    let state = walk.state;
    let output = &mut *walk.output;
    let rows = &mut *walk.rows;
    let called = crate::call_result(s, at, ty, from, end, output, walk.errors, rows, state);
    walk.state = called.state;
    called.ty
}
