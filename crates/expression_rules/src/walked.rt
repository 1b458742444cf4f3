// The same on a walk: it lends its words and takes the state that comes back. Rows and digits are lent by a
// reborrow: of a field that is lent shared only the length is known afterwards.
ghost use Rattle.std.specs.Prelude.{◌+◌, ◌*◌, ◌≤◌, length};
ghost use Rattle.literal.specs.Digits.{DigitTable};
ghost use Rattle.row_index.specs.Index.{digits_in, Indexed};
ghost use Rattle.relations.specs.TypeRows.{OneType, TwoTypes};
ghost use Rattle.record_bytes.specs.Bytes.{word_at, head_end, field_end, fields_end};
ghost use Rattle.layout.specs.Layout.{max_bytes, stop_at};
ghost use Rattle.meaning.specs.Promise.{work_width};
ghost use Rattle.walk.specs.Loans.{OnlyErrors, SameOutput};
ghost use Rattle.walk.specs.Typed.{typed};
ghost use Rattle.convert.specs.Post.{error_for};
ghost use Rattle.expression_rules.specs.Rules.{ReportedUnless, Identifier, Integer, Unary, Binary, Cast, CheckAssignable};

use walk::Walk;

// Reports an error at the record at `at`, unless a test holds.
pub fn report_unless(
    holds: bool,
    s: &[u8],
    at: usize,
    kind: u32,
    first: u32,
    second: u32,
    third: u32,
    walk: &mut Walk<'_>,
)
    requires { head_end at ≤ length s.now }
    ensures effect { ReportedUnless holds (error_for s.now at kind first second third)
        walk.old.errors.now walk.old.state
        walk.new.errors.now walk.new.state }
    ensures loans { OnlyErrors walk.old walk.new }
{
    let state = walk.state;
    walk.state = crate::report_unless(holds, s, at, kind, first, second, third, walk.errors, state);
}

// An identifier.
pub fn identifier(s: &[u8], work: &[u32], at: usize, walk: &mut Walk<'_>) -> u32
    requires at_in_bounds { fields_end at ≤ length s.now }
    requires at_in_bounds_2 { work_width * (word_at s.now (field_end at) + 1) ≤ length work.now }
    ensures effect { Identifier s.now work.now at
        walk.old.errors.now walk.old.state
        walk.new.errors.now (typed result walk.new.state) }
    ensures loans { OnlyErrors walk.old walk.new }
{
    let found = crate::identifier(s, work, at, walk.errors, walk.state);
    walk.state = found.state;
    found.ty
}

// An integer literal: u16, even where it is out of range.
pub fn integer(s: &[u8], at: usize, walk: &mut Walk<'_>) -> u32
    requires at_bound { (fields_end at ≤ stop_at s.now at) × (stop_at s.now at ≤ length s.now) × (length s.now ≤ max_bytes) }
    requires digit_table { DigitTable (digits_in walk.old.index.now) }
    ensures effect { Integer s.now at
        walk.old.errors.now walk.old.state
        walk.new.errors.now (typed result walk.new.state) }
    ensures loans { OnlyErrors walk.old walk.new }
{
    let index = &mut *walk.index;
    let found = crate::integer(s, at, walk.errors, index, walk.state);
    walk.state = found.state;
    found.ty
}

// An operator on an operand of the type row `ty`. `&e` makes the row of a pointer; the others make none.
pub fn unary(kind: u32, s: &[u8], at: usize, ty: u32, walk: &mut Walk<'_>) -> u32
    requires at_in_bounds { (fields_end at ≤ length s.now) × OneType walk.old.rows.now walk.old.state.rows ty }
    requires indexed { Indexed walk.old.rows.now walk.old.state.rows walk.old.index.now }
    ensures effect { Unary kind s.now at ty
        walk.old.rows.now walk.old.index.now walk.old.errors.now walk.old.state
        walk.new.rows.now walk.new.index.now walk.new.errors.now (typed result walk.new.state) }
    ensures loans { SameOutput walk.old walk.new }
{
    let state = walk.state;
    let found = crate::unary(kind, s, at, ty, walk.errors, walk.rows, walk.index, state);
    walk.state = found.state;
    found.ty
}

// An operator on operands of the type rows `left` and `right`; the right stands at `place`.
pub fn binary(
    kind: u32,
    s: &[u8],
    at: usize,
    left: u32,
    place: usize,
    right: u32,
    walk: &mut Walk<'_>,
) -> u32
    requires { (fields_end at ≤ length s.now) × (head_end place ≤ length s.now)
        × TwoTypes walk.old.rows.now walk.old.state.rows left right }
    ensures effect { Binary kind s.now at left place right
        walk.old.rows.now walk.old.errors.now walk.old.state
        walk.new.errors.now (typed result walk.new.state) }
    ensures loans { OnlyErrors walk.old walk.new }
{
    let state = walk.state;
    let rows = &mut *walk.rows;
    let found = crate::binary(kind, s, at, left, place, right, walk.errors, rows, state);
    walk.state = found.state;
    found.ty
}

// `source as target`
pub fn cast(s: &[u8], at: usize, source: u32, target: u32, walk: &mut Walk<'_>)
    requires { (head_end at ≤ length s.now) × TwoTypes walk.old.rows.now walk.old.state.rows source target }
    ensures effect { Cast s.now at source target
        walk.old.rows.now walk.old.errors.now walk.old.state
        walk.new.errors.now walk.new.state }
    ensures loans { OnlyErrors walk.old walk.new }
{
    let rows = &mut *walk.rows;
    walk.state = crate::cast(s, at, source, target, walk.errors, rows, walk.state);
}

// A value of the type row `source` for a place of the type row `target`, at the record at `at`.
pub fn check_types_are_assignable(
    s: &[u8],
    at: usize,
    target: u32,
    source: u32,
    walk: &mut Walk<'_>,
)
    requires { (head_end at ≤ length s.now) × TwoTypes walk.old.rows.now walk.old.state.rows target source }
    ensures effect { CheckAssignable s.now at target source
        walk.old.rows.now walk.old.errors.now walk.old.state
        walk.new.errors.now walk.new.state }
    ensures loans { OnlyErrors walk.old walk.new }
{
    let state = walk.state;
    let rows = &mut *walk.rows;
    walk.state = crate::check_types_are_assignable(s, at, target, source, walk.errors, rows, state);
}
