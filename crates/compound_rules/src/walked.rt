// The same on a walk: it lends its words and takes the state that comes back. Rows and slots are lent by a
// reborrow: of a field that is lent shared only the length is known afterwards.
ghost use Rattle.std.specs.Prelude.{◌+◌, ◌≤◌, length};
ghost use Rattle.record_bytes.specs.Bytes.{head_end};
ghost use Rattle.relations.specs.TypeRows.{OneType};
ghost use Rattle.call_rules.specs.Lists.{RecordsListed, SlotsFilled};
ghost use Rattle.walk.specs.Loans.{OnlyErrors};
ghost use Rattle.compound_rules.specs.Elements.{ArrayCompound};
ghost use Rattle.compound_rules.specs.Fields.{FilledFields, CheckRepeats, StructCompound};

use walk::Walk;

// An array compound for a target of the type row `target`.
pub fn array_compound(
    s: &[u8],
    at: usize,
    target: u32,
    from: usize,
    end: usize,
    walk: &mut Walk<'_>,
)
    requires { (head_end at ≤ length s.now) × SlotsFilled walk.old.rows.now walk.old.state.rows s.now walk.old.output.now from end
        × OneType walk.old.rows.now walk.old.state.rows target }
    ensures effect { ArrayCompound s.now at target from end
        walk.old.output.now walk.old.rows.now walk.old.errors.now walk.old.state
        walk.new.errors.now walk.new.state }
    ensures loans { OnlyErrors walk.old walk.new }
{
    let state = walk.state;
    let output = &mut *walk.output;
    let rows = &mut *walk.rows;
    walk.state = crate::array_compound(s, at, target, from, end, output, walk.errors, rows, state);
}

// An error at each field from `from` to `end` whose name another has too. In a long list the names are first counted
// into a table.
pub fn check_repeats(s: &[u8], from: usize, end: usize, walk: &mut Walk<'_>)
    requires { RecordsListed s.now from end }
    ensures effect { CheckRepeats s.now from end
        walk.old.errors.now walk.old.state
        walk.new.errors.now walk.new.state }
    ensures loans { OnlyErrors walk.old walk.new }
{
    walk.state = crate::check_repeats(s, from, end, walk.errors, walk.state);
}

// A struct compound for a target of the type row `target`.
pub fn struct_compound(
    s: &[u8],
    at: usize,
    target: u32,
    from: usize,
    end: usize,
    walk: &mut Walk<'_>,
)
    requires { (head_end at ≤ length s.now)
        × FilledFields walk.old.rows.now walk.old.state.rows s.now walk.old.output.now from end
        × OneType walk.old.rows.now walk.old.state.rows target }
    ensures effect { StructCompound s.now at target from end
        walk.old.output.now walk.old.rows.now walk.old.errors.now walk.old.state
        walk.new.errors.now walk.new.state }
    ensures loans { OnlyErrors walk.old walk.new }
{
    let state = walk.state;
    let output = &mut *walk.output;
    let rows = &mut *walk.rows;
    walk.state = crate::struct_compound(s, at, target, from, end, output, walk.errors, rows, state);
}
