// Calls, once their arguments are typed. The rows of a list are read back from the slots of its records.
#![tactic(auto)]

pub mod walked;

ghost use Rattle.std.specs.Prelude.{◌+◌, ◌≤◌, length};
ghost use Rattle.record_bytes.specs.Bytes.{head_end};
ghost use Rattle.types.specs.Ty.{argument_kind};
ghost use Rattle.types.specs.Table.{IsCell, Table};
ghost use Rattle.relations.specs.TypeRows.{OneType};
ghost use Rattle.call_rules.specs.Lists.{RecordsListed, SlotsFilled, CountsRecords, CheckArguments, Call};

use convert::error_at;
use expression_rules::{part_of, report_unless};
use fallible::kinds::{NOT_A_FUNCTION, WRONG_ARGUMENT, WRONG_ARGUMENT_COUNT};
use record_bytes::{HEAD_END, length_at, word};
use walk::{State, Typed};

// How many records stand from `from` to `end`.
pub fn count_records(s: &[u8], from: usize, end: usize) -> u32
    requires { RecordsListed s.now from end }
    ensures { CountsRecords s.now from end result }
{
    let mut at = from;
    let mut count: u32 = 0;
    while at < end {
        at += length_at(s, at);
        count += 1;
    }
    count
}

// The arguments from `from` to `end` against the cells of the parameters, as far as both go; errors stand at the
// record at `at`.
fn check_arguments(
    s: &[u8],
    at: usize,
    from: usize,
    end: usize,
    cells: u32,
    output: &[u8],
    errors: &mut [u32],
    rows: &[u32],
    state: State,
) -> State
    requires at_in_bounds { (head_end at ≤ length s.now) × SlotsFilled rows.now state.rows s.now output.now from end }
    requires table { Table rows.now state.rows × IsCell rows.now state.rows argument_kind cells }
    ensures { CheckArguments s.now at from end cells
        output.now rows.now errors.old state
        errors.new result }
{
    let mut place = from;
    let mut cell = cells;
    let mut position: u32 = 1;
    let mut next = state;
    while place < end && cell != 0 {
        let ty = types::part(rows, state.rows, cell);
        let got = word(output, place + HEAD_END);
        let holds = relations::types_are_assignable(rows, state.rows, ty, got);
        let kind = WRONG_ARGUMENT;
        next = report_unless(holds, s, at, kind, position, ty, got, errors, next);
        cell = types::rest(rows, state.rows, cell);
        place += length_at(s, place);
        position += 1;
    }
    next
}

// A call of a target of the type row `ty`.
pub fn call_result(
    s: &[u8],
    at: usize,
    ty: u32,
    from: usize,
    end: usize,
    output: &[u8],
    errors: &mut [u32],
    rows: &[u32],
    state: State,
) -> Typed
    requires { (head_end at ≤ length s.now) × SlotsFilled rows.now state.rows s.now output.now from end
        × OneType rows.now state.rows ty }
    ensures { Call s.now at ty from end
        output.now rows.now errors.old state
        errors.new result }
{
    if types::kind(rows, state.rows, ty) != types::FUNCTION {
        let error = error_at(s, at, NOT_A_FUNCTION, ty, 0, 0);
        let told = walk::report(errors, state, error);
        return Typed {
            ty: types::UNKNOWN,
            state: told,
        };
    }
    let cells = types::arguments(rows, state.rows, ty);
    let expected = types::cell_count(rows, state.rows, cells);
    let got = count_records(s, from, end);
    let kind = WRONG_ARGUMENT_COUNT;
    let holds = expected == got;
    let next = report_unless(holds, s, at, kind, expected, got, 0, errors, state);
    let last = check_arguments(s, at, from, end, cells, output, errors, rows, next);
    Typed {
        ty: part_of(rows, state.rows, types::FUNCTION, ty),
        state: last,
    }
}
