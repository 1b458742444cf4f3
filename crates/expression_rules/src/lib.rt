// What each kind of expression adds once its parts are typed: its type and its errors. No slot is stored here.
#![tactic(auto)]

pub mod walked;

ghost use Rattle.std.specs.Prelude.{◌≡◌, ◌+◌, ◌*◌, ◌≤◌, length};
ghost use Rattle.shape.specs.Kinds as kinds;
ghost use Rattle.literal.specs.Digits.{DigitTable};
ghost use Rattle.row_index.specs.Index.{digits_in, Indexed};
ghost use Rattle.types.specs.Ty.{pointer_kind, struct_kind};
ghost use Rattle.types.specs.Table.{unfolded};
ghost use Rattle.relations.specs.TypeRows.{OneType, TwoTypes};
ghost use Rattle.record_bytes.specs.Bytes.{word_at, head_end, field_end, fields_end};
ghost use Rattle.layout.specs.Layout.{max_bytes, stop_at};
ghost use Rattle.meaning.specs.Expression.{part_of, computes as computing};
ghost use Rattle.meaning.specs.Promise.{work_width};
ghost use Rattle.types.specs.declared.Row.TheVariants.{Pointer};
ghost use Rattle.walk.specs.Represents.{Shows};
ghost use Rattle.walk.specs.Post.{Makes};
ghost use Rattle.expression_rules.specs.Words.{or_unknown_row, resolved_word};
ghost use Rattle.convert.specs.Post.{error_for};
ghost use Rattle.expression_rules.specs.Rules.{ReportedUnless, Identifier, literal_error, Integer, Unary, UnaryKept, Binary};
ghost use Rattle.expression_rules.specs.Rules.{Arithmetic, Cast, CheckAssignable};

use fallible::Error;
use fallible::kinds::{
    INCOMPATIBLE_OPERANDS, LEFT_NOT_BOOLEAN, LITERAL_OUT_OF_RANGE, NO_BITWISE_NOT, NO_BOOLEAN_NOT,
    NO_FIELDS, NO_SUCH_FIELD, NOT_A_POINTER, NOT_AN_INDEX, NOT_ASSIGNABLE, NOT_CASTABLE,
    RIGHT_NOT_BOOLEAN, UNKNOWN_IDENTIFIER,
};
use record_bytes::{FIELD_END, FIELDS_END, length_at, word};
use shape::kinds::{
    ARITHMETIC_BIN_OP, BITWISE_NOT, BOOLEAN_AND, FIELD_ACCESS, INDEX, POINTER_DEREFERENCE,
    POINTER_TAKE,
};
use types::Row;
use walk::{ARGUMENT, GLOBAL, LOCAL, State, Typed};

// The operator that an error names at a comparison.
const COMPARISON_OPERATOR: u32 = 9;

// Reports an error at the record at `at`, unless a test holds.
pub fn report_unless(
    holds: bool,
    s: &[u8],
    at: usize,
    kind: u32,
    first: u32,
    second: u32,
    third: u32,
    errors: &mut [u32],
    state: State,
) -> State
    requires { head_end at ≤ length s.now }
    ensures { ReportedUnless holds (error_for s.now at kind first second third)
        errors.old state
        errors.new result }
{
    if holds {
        return state;
    }
    let error = convert::error_at(s, at, kind, first, second, third);
    walk::report(errors, state, error)
}

// The row that was found, or Unknown.
fn or_unknown(row: u32) -> u32
    ensures { result ≡ or_unknown_row row }
{
    if row == 0 { types::UNKNOWN } else { row }
}

// What stands first in a type of this kind, or Unknown.
pub fn part_of(rows: &[u32], count: u32, kind: u32, ty: u32) -> u32
    requires { OneType rows.now count ty × (pointer_kind ≤ kind) × (kind ≡ struct_kind → ⊥) }
    ensures { Shows rows.now count result (part_of kind (unfolded rows.now ty)) }
{
    if types::kind(rows, count, ty) == kind {
        types::part(rows, count, ty)
    } else {
        types::UNKNOWN
    }
}

// The working word of a local, then of an argument, then of a global; 0 if there is none.
fn resolve_identifier(work: &[u32], name: u32) -> u32
    requires { work_width * (name + 1) ≤ length work.now }
    ensures { result ≡ resolved_word work.now name }
{
    let local = walk::word_of(work, name, LOCAL);
    if local != 0 {
        return local;
    }
    let argument = walk::word_of(work, name, ARGUMENT);
    if argument != 0 {
        return argument;
    }
    walk::word_of(work, name, GLOBAL)
}

// An identifier.
pub fn identifier(s: &[u8], work: &[u32], at: usize, errors: &mut [u32], state: State) -> Typed
    requires at_in_bounds { fields_end at ≤ length s.now }
    requires at_in_bounds_2 { work_width * (word_at s.now (field_end at) + 1) ≤ length work.now }
    ensures { Identifier s.now work.now at errors.old state errors.new result }
{
    let name = word(s, at + FIELD_END);
    let row = resolve_identifier(work, name);
    let kind = UNKNOWN_IDENTIFIER;
    let next = report_unless(row != 0, s, at, kind, name, 0, 0, errors, state);
    Typed {
        ty: or_unknown(row),
        state: next,
    }
}

// The error of the bad literal at `at`, the one error that has a place.
fn literal_error(s: &[u8], at: usize) -> Error
    requires { (head_end at ≤ length s.now) × (length s.now ≤ max_bytes) }
    ensures { result ≡ literal_error s.now at }
{
    Error {
        place: at as u32,
        ..convert::error_at(s, at, LITERAL_OUT_OF_RANGE, 0, 0, 0)
    }
}

// An integer literal: u16, even where it is out of range.
pub fn integer(
    s: &[u8],
    at: usize,
    errors: &mut [u32],
    index: &[u16; row_index::LENGTH],
    state: State,
) -> Typed
    requires at_bound { (fields_end at ≤ stop_at s.now at) × (stop_at s.now at ≤ length s.now) × (length s.now ≤ max_bytes) }
    requires digit_table { DigitTable (digits_in index.now) }
    ensures { Integer s.now at errors.old state errors.new result }
{
    let base = word(s, at + FIELD_END);
    let start = at + FIELDS_END;
    let stop = at + length_at(s, at);
    let words = &index[..];
    let table = &words[row_index::DIGITS..];
    let parsed = literal::from_str_radix_with(&s[start..stop], base, table);
    match parsed {
        Some(_) => Typed {
            ty: types::U16,
            state,
        },
        None => {
            let next = walk::report(errors, state, literal_error(s, at));
            Typed {
                ty: types::U16,
                state: next,
            }
        }
    }
}

// `&e`
fn pointer_take(
    ty: u32,
    rows: &mut [u32],
    index: &mut [u16; row_index::LENGTH],
    state: State,
) -> Typed
    requires one_type { OneType rows.old state.rows ty }
    requires indexed { Indexed rows.old state.rows index.old }
    ensures { Makes (Pointer ty) rows.old index.old state rows.new index.new result }
{
    walk::make(rows, index, state, Row::Pointer(ty))
}

// `*e`
fn dereference(
    s: &[u8],
    at: usize,
    ty: u32,
    errors: &mut [u32],
    rows: &[u32],
    state: State,
) -> Typed
    requires { (fields_end at ≤ length s.now) × OneType rows.now state.rows ty }
    ensures { UnaryKept kinds.pointer_dereference s.now at ty rows.now errors.old state errors.new result }
{
    let holds = types::kind(rows, state.rows, ty) == types::POINTER;
    let next = report_unless(holds, s, at, NOT_A_POINTER, ty, 0, 0, errors, state);
    Typed {
        ty: part_of(rows, state.rows, types::POINTER, ty),
        state: next,
    }
}

// `e.name`
fn field_access(
    s: &[u8],
    at: usize,
    ty: u32,
    errors: &mut [u32],
    rows: &[u32],
    state: State,
) -> Typed
    requires { (fields_end at ≤ length s.now) × OneType rows.now state.rows ty }
    ensures { UnaryKept kinds.field_access s.now at ty rows.now errors.old state errors.new result }
{
    let name = word(s, at + FIELD_END);
    let bare = types::desugar(rows, state.rows, ty);
    if types::kind(rows, state.rows, bare) != types::STRUCT {
        let error = convert::error_at(s, at, NO_FIELDS, ty, 0, 0);
        let told = walk::report(errors, state, error);
        return Typed {
            ty: types::UNKNOWN,
            state: told,
        };
    }
    let field = types::field_named(rows, state.rows, bare, name);
    let next = report_unless(field != 0, s, at, NO_SUCH_FIELD, ty, name, 0, errors, state);
    Typed {
        ty: or_unknown(field),
        state: next,
    }
}

// `~e`
fn bitwise_not(
    s: &[u8],
    at: usize,
    ty: u32,
    errors: &mut [u32],
    rows: &[u32],
    state: State,
) -> Typed
    requires { (fields_end at ≤ length s.now) × OneType rows.now state.rows ty }
    ensures { UnaryKept kinds.bitwise_not s.now at ty rows.now errors.old state errors.new result }
{
    let holds = relations::is_integral(types::kind(rows, state.rows, ty));
    let next = report_unless(holds, s, at, NO_BITWISE_NOT, ty, 0, 0, errors, state);
    Typed { ty, state: next }
}

// `!e`
fn boolean_not(
    s: &[u8],
    at: usize,
    ty: u32,
    errors: &mut [u32],
    rows: &[u32],
    state: State,
) -> Typed
    requires { (fields_end at ≤ length s.now) × OneType rows.now state.rows ty }
    ensures { UnaryKept kinds.boolean_not s.now at ty rows.now errors.old state errors.new result }
{
    let holds = types::kind(rows, state.rows, ty) == types::BOOL;
    let next = report_unless(holds, s, at, NO_BOOLEAN_NOT, ty, 0, 0, errors, state);
    Typed { ty, state: next }
}

// An operator on an operand of the type row `ty`. `&e` makes the row of a pointer; the others make none.
pub fn unary(
    kind: u32,
    s: &[u8],
    at: usize,
    ty: u32,
    errors: &mut [u32],
    rows: &mut [u32],
    index: &mut [u16; row_index::LENGTH],
    state: State,
) -> Typed
    requires at_in_bounds { (fields_end at ≤ length s.now) × OneType rows.old state.rows ty }
    requires indexed { Indexed rows.old state.rows index.old }
    ensures { Unary kind s.now at ty
        rows.old index.old errors.old state
        rows.new index.new errors.new result }
{
    match kind {
        POINTER_TAKE => pointer_take(ty, rows, index, state),
        POINTER_DEREFERENCE => dereference(s, at, ty, errors, rows, state),
        FIELD_ACCESS => field_access(s, at, ty, errors, rows, state),
        BITWISE_NOT => bitwise_not(s, at, ty, errors, rows, state),
        _ => boolean_not(s, at, ty, errors, rows, state),
    }
}

// `left[right]`; the right stands at `place`.
fn index(
    s: &[u8],
    at: usize,
    left: u32,
    place: usize,
    right: u32,
    errors: &mut [u32],
    rows: &[u32],
    state: State,
) -> Typed
    requires { (fields_end at ≤ length s.now) × (head_end place ≤ length s.now)
        × TwoTypes rows.now state.rows left right }
    ensures { Binary kinds.index s.now at left place right rows.now errors.old state errors.new result }
{
    let holds = types::kind(rows, state.rows, right) == types::U16;
    let next = report_unless(holds, s, place, NOT_AN_INDEX, right, 0, 0, errors, state);
    Typed {
        ty: part_of(rows, state.rows, types::ARRAY, left),
        state: next,
    }
}

// `left && right`
fn boolean_and(
    s: &[u8],
    at: usize,
    left: u32,
    place: usize,
    right: u32,
    errors: &mut [u32],
    rows: &[u32],
    state: State,
) -> Typed
    requires { (fields_end at ≤ length s.now) × (head_end place ≤ length s.now)
        × TwoTypes rows.now state.rows left right }
    ensures { Binary kinds.boolean_and s.now at left place right
        rows.now errors.old state
        errors.new result }
{
    let left_is = types::kind(rows, state.rows, left) == types::BOOL;
    let right_is = types::kind(rows, state.rows, right) == types::BOOL;
    let first = LEFT_NOT_BOOLEAN;
    let next = report_unless(left_is, s, at, first, left, 0, 0, errors, state);
    let second = RIGHT_NOT_BOOLEAN;
    let last = report_unless(right_is, s, at, second, right, 0, 0, errors, next);
    Typed {
        ty: left,
        state: last,
    }
}

// Whether arithmetic is defined on two desugared types: equal integers, or pointer then integer.
fn computes(rows: &[u32], count: u32, left: u32, right: u32) -> bool
    requires { TwoTypes rows.now count left right }
    ensures { result ≡ computing (unfolded rows.now left) (unfolded rows.now right) }
{
    let kind = types::kind(rows, count, left);
    if relations::is_integral(kind) {
        left == right
    } else {
        kind == types::POINTER && relations::is_integral(types::kind(rows, count, right))
    }
}

// Arithmetic: the left, desugared.
fn arithmetic(
    s: &[u8],
    at: usize,
    operator: u32,
    left: u32,
    right: u32,
    errors: &mut [u32],
    rows: &[u32],
    state: State,
) -> Typed
    requires { (fields_end at ≤ length s.now) × TwoTypes rows.now state.rows left right }
    ensures { Arithmetic s.now at operator left right
        rows.now errors.old state
        errors.new result }
{
    let l = types::desugar(rows, state.rows, left);
    let r = types::desugar(rows, state.rows, right);
    let holds = computes(rows, state.rows, l, r);
    let kind = INCOMPATIBLE_OPERANDS;
    let next = report_unless(holds, s, at, kind, operator, l, r, errors, state);
    Typed { ty: l, state: next }
}

// An operator on operands of the type rows `left` and `right`; the right stands at `place`.
pub fn binary(
    kind: u32,
    s: &[u8],
    at: usize,
    left: u32,
    place: usize,
    right: u32,
    errors: &mut [u32],
    rows: &[u32],
    state: State,
) -> Typed
    requires { (fields_end at ≤ length s.now) × (head_end place ≤ length s.now)
        × TwoTypes rows.now state.rows left right }
    ensures { Binary kind s.now at left place right
        rows.now errors.old state
        errors.new result }
{
    match kind {
        INDEX => index(s, at, left, place, right, errors, rows, state),
        BOOLEAN_AND => boolean_and(s, at, left, place, right, errors, rows, state),
        ARITHMETIC_BIN_OP => {
            let operator = word(s, at + FIELD_END);
            arithmetic(s, at, operator, left, right, errors, rows, state)
        }
        _ => {
            let compared = arithmetic(s, at, COMPARISON_OPERATOR, left, right, errors, rows, state);
            let next = compared.state;
            Typed {
                ty: types::BOOL,
                state: next,
            }
        }
    }
}

// `source as target`
pub fn cast(
    s: &[u8],
    at: usize,
    source: u32,
    target: u32,
    errors: &mut [u32],
    rows: &[u32],
    state: State,
) -> State
    requires { (head_end at ≤ length s.now) × TwoTypes rows.now state.rows source target }
    ensures { Cast s.now at source target rows.now errors.old state errors.new result }
{
    let holds = relations::is_castable_to(rows, state.rows, source, target);
    report_unless(holds, s, at, NOT_CASTABLE, source, target, 0, errors, state)
}

// A value of the type row `source` for a place of the type row `target`, at the record at `at`.
pub fn check_types_are_assignable(
    s: &[u8],
    at: usize,
    target: u32,
    source: u32,
    errors: &mut [u32],
    rows: &[u32],
    state: State,
) -> State
    requires { (head_end at ≤ length s.now) × TwoTypes rows.now state.rows target source }
    ensures { CheckAssignable s.now at target source
        rows.now errors.old state
        errors.new result }
{
    let holds = relations::types_are_assignable(rows, state.rows, target, source);
    let kind = NOT_ASSIGNABLE;
    report_unless(holds, s, at, kind, target, source, 0, errors, state)
}
