// Compounds, once their elements or the values of their fields are typed. The rows of these are read back from their slots.
#![tactic(auto)]

pub mod walked;

ghost use Rattle.std.specs.Prelude.{◌+◌, ◌≤◌, ◌<◌, length, replicate, ◌≡◌};
ghost use Rattle.types.specs.Ty.{struct_kind, kind_of};
ghost use Rattle.types.specs.Table.{IsType, unfolded};
ghost use Rattle.record_bytes.specs.Bytes.{word_at, head_end, field_end};
ghost use Rattle.relations.specs.TypeRows.{OneType};
ghost use Rattle.call_rules.specs.Lists.{RecordsListed, SlotsFilled};
ghost use Rattle.compound_rules.specs.Elements.{CheckElements, ArrayCompound};
ghost use Rattle.compound_rules.specs.Fields.{value_place, FilledFields, CheckField, CheckFields, Occurs};
ghost use Rattle.compound_rules.specs.Fields.{entries, with_name, Tallied, Single, CheckRepeats};
ghost use Rattle.compound_rules.specs.Fields.{StructCompound};

use call_rules::count_records;
use convert::error_at;
use expression_rules::{check_types_are_assignable, report_unless};
use fallible::kinds::{
    FIELD_ASSIGNED_TWICE, NO_ARRAY_TARGET, NO_STRUCT_TARGET, NO_SUCH_TARGET_FIELD, WRONG_LENGTH,
};
use record_bytes::{FIELD_END, HEAD_END, length_at, word};
use walk::State;

// The elements from `from` to `end` against the element type; errors stand at the record at `at`.
fn check_elements(
    s: &[u8],
    at: usize,
    from: usize,
    end: usize,
    element: u32,
    output: &[u8],
    errors: &mut [u32],
    rows: &[u32],
    state: State,
) -> State
    requires { (head_end at ≤ length s.now) × SlotsFilled rows.now state.rows s.now output.now from end
        × OneType rows.now state.rows element }
    ensures { CheckElements s.now at from end element
        output.now rows.now errors.old state
        errors.new result }
{
    let mut place = from;
    let mut next = state;
    while place < end {
        let got = word(output, place + HEAD_END);
        next = check_types_are_assignable(s, at, element, got, errors, rows, next);
        place += length_at(s, place);
    }
    next
}

// An array compound for a target of the type row `target`.
pub fn array_compound(
    s: &[u8],
    at: usize,
    target: u32,
    from: usize,
    end: usize,
    output: &[u8],
    errors: &mut [u32],
    rows: &[u32],
    state: State,
) -> State
    requires { (head_end at ≤ length s.now) × SlotsFilled rows.now state.rows s.now output.now from end
        × OneType rows.now state.rows target }
    ensures { ArrayCompound s.now at target from end
        output.now rows.now errors.old state
        errors.new result }
{
    let bare = types::desugar(rows, state.rows, target);
    if types::kind(rows, state.rows, bare) != types::ARRAY {
        let error = error_at(s, at, NO_ARRAY_TARGET, target, 0, 0);
        return walk::report(errors, state, error);
    }
    let expected = types::size(rows, state.rows, bare);
    let got = count_records(s, from, end);
    let element = types::part(rows, state.rows, bare);
    let kind = WRONG_LENGTH;
    let holds = expected == got;
    let next = report_unless(holds, s, at, kind, expected, got, 0, errors, state);
    check_elements(s, at, from, end, element, output, errors, rows, next)
}

// The field at `place` against the struct type of row `bare`.
fn check_field(
    s: &[u8],
    place: usize,
    bare: u32,
    output: &[u8],
    errors: &mut [u32],
    rows: &[u32],
    state: State,
) -> State
    requires place_in_bounds { (field_end place ≤ length s.now) × (value_place place + 4 ≤ length output.now)
        × OneType rows.now state.rows bare }
    requires bare_value { (kind_of (unfolded rows.now bare) ≡ struct_kind)
        × IsType rows.now state.rows (word_at output.now (value_place place)) }
    ensures { CheckField s.now place bare
        output.now rows.now errors.old state
        errors.new result }
{
    let name = word(s, place + HEAD_END);
    let field = types::field_named(rows, state.rows, bare, name);
    if field == 0 {
        let error = error_at(s, place, NO_SUCH_TARGET_FIELD, name, 0, 0);
        return walk::report(errors, state, error);
    }
    let got = word(output, place + FIELD_END + HEAD_END);
    check_types_are_assignable(s, place, field, got, errors, rows, state)
}

// The fields from `from` to `end` against the struct type of row `bare`.
fn check_fields(
    s: &[u8],
    from: usize,
    end: usize,
    bare: u32,
    output: &[u8],
    errors: &mut [u32],
    rows: &[u32],
    state: State,
) -> State
    requires filled_fields { FilledFields rows.now state.rows s.now output.now from end }
    requires one_type { OneType rows.now state.rows bare × (kind_of (unfolded rows.now bare) ≡ struct_kind) }
    ensures { CheckFields s.now from end bare
        output.now rows.now errors.old state
        errors.new result }
{
    let mut place = from;
    let mut next = state;
    while place < end {
        next = check_field(s, place, bare, output, errors, rows, next);
        place += length_at(s, place);
    }
    next
}

// How many fields from `from` to `end` have a name.
fn occurrences(s: &[u8], from: usize, end: usize, name: u32) -> u32
    requires { RecordsListed s.now from end }
    ensures { Occurs s.now from end name result }
{
    let mut at = from;
    let mut count: u32 = 0;
    while at < end {
        count += u32::from(word(s, at + HEAD_END) == name);
        at += length_at(s, at);
    }
    count
}

// The entries of a table of names. A file has fewer names.
const ENTRIES: usize = 4096;

// The bytes of a list that is worth a table.
const LONG: usize = 1024;

// Counts a name into a table, if it has an entry there: up to 2.
fn count_name(table: &mut [u8; ENTRIES], name: u32)
    requires { length table.old ≡ entries }
    ensures { table.new ≡ with_name table.old name }
{
    let i = name as usize;
    if i < ENTRIES {
        table[i] = table[i].saturating_add(1).min(2);
    }
}

// Counts the names of the fields from `from` to `end` into a table of zeros.
fn count_names(s: &[u8], from: usize, end: usize, table: &mut [u8; ENTRIES])
    requires { RecordsListed s.now from end × (table.old ≡ replicate entries 0) }
    ensures { Tallied s.now from end table.new × (length table.new ≡ entries) }
{
    let mut at = from;
    while at < end {
        count_name(table, word(s, at + HEAD_END));
        at += length_at(s, at);
    }
}

// Whether one field from `from` to `end` at most has a name. A name without an entry is counted.
fn is_single(s: &[u8], from: usize, end: usize, table: &[u8], name: u32) -> bool
    requires { RecordsListed s.now from end × Tallied s.now from end table.now }
    ensures { Single s.now from end name result }
{
    match table.get(name as usize) {
        Some(&count) => count <= 1,
        None => occurrences(s, from, end, name) <= 1,
    }
}

// An error at each field from `from` to `end` whose name another has too. The table may be empty.
fn report_repeats(
    s: &[u8],
    from: usize,
    end: usize,
    table: &[u8],
    errors: &mut [u32],
    state: State,
) -> State
    requires { RecordsListed s.now from end × Tallied s.now from end table.now }
    ensures { CheckRepeats s.now from end errors.old state errors.new result }
{
    let mut at = from;
    let mut next = state;
    while at < end {
        let name = word(s, at + HEAD_END);
        let once = is_single(s, from, end, table, name);
        next = report_unless(once, s, at, FIELD_ASSIGNED_TWICE, name, 0, 0, errors, next);
        at += length_at(s, at);
    }
    next
}

// An error at each field from `from` to `end` whose name another has too. In a long list the names are first counted
// into a table.
pub fn check_repeats(s: &[u8], from: usize, end: usize, errors: &mut [u32], state: State) -> State
    requires { RecordsListed s.now from end }
    ensures { CheckRepeats s.now from end errors.old state errors.new result }
{
    if end - from < LONG {
        report_repeats(s, from, end, b"", errors, state)
    } else {
        let mut table = [0u8; ENTRIES];
        count_names(s, from, end, &mut table);
        report_repeats(s, from, end, &table, errors, state)
    }
}

// A struct compound for a target of the type row `target`.
pub fn struct_compound(
    s: &[u8],
    at: usize,
    target: u32,
    from: usize,
    end: usize,
    output: &[u8],
    errors: &mut [u32],
    rows: &[u32],
    state: State,
) -> State
    requires { (head_end at ≤ length s.now)
        × FilledFields rows.now state.rows s.now output.now from end
        × OneType rows.now state.rows target }
    ensures { StructCompound s.now at target from end
        output.now rows.now errors.old state
        errors.new result }
{
    let bare = types::desugar(rows, state.rows, target);
    if types::kind(rows, state.rows, bare) != types::STRUCT {
        let error = error_at(s, at, NO_STRUCT_TARGET, target, 0, 0);
        return walk::report(errors, state, error);
    }
    check_fields(s, from, end, bare, output, errors, rows, state)
}
