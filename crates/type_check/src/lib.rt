// `type_check_module`: the tests that turn a module back, then pass 1 over the items' declared types and pass 2 over
// the items.
#![tactic(auto)]

ghost use Rattle.std.specs.Prelude.{◌≡◌, true, false, ◌≤◌, ◌*◌, ◌++◌, length, replicate, drop};
ghost use Rattle.names.specs.Names.{name_count};
ghost use Rattle.refusal.specs.Refusal.{refusal_of};
ghost use Rattle.meaning.specs.Promise.{Checked, cleared, work_width};
ghost use Rattle.type_check.specs.Post.{buffers_before, buffers_after, outcome_of};
ghost use Rattle.type_check.specs.Post.{loan_refusal, early_refusal, Passed, BothPasses, Ends};

use declare::declare_items;
use fallible::ERROR_WIDTH;
use items::type_check_items;
use literal::digits::put_digits;
use module_tests::module_refusal;
use names::{built_ins, name_count};
use node::{Nodes, items_start};
use refusal::Refusal;
use walk::{State, WORK_WIDTH, Walk};

// How many rows and errors an accepted module has: the `Counts` of crate meaning, as a value.
#[derive(Clone, Copy, Debug, PartialEq, Eq)]
pub struct Counts {
    pub rows: u32,
    pub errors: usize,
}

// What the working words are cleared with.
const BLANK: u32 = 0;

// How many levels are left for an item.
const ITEM_DEPTH: usize = 63;

// Test 5: the output is shorter than the input, or there are too few working words.
fn loan_refusal(input: &[u8], output: usize, work: usize) -> Result<(), Refusal>
    ensures { refusal_of result ≡ loan_refusal input.now output work }
{
    let words = WORK_WIDTH * (name_count(input) as usize);
    if output < input.len() || work < words {
        return Err(Refusal::ShortLoan);
    }
    Ok(())
}

// Tests 1 to 5: why the module is turned back before anything is written.
fn early_refusal(input: &[u8], output: usize, work: usize) -> Result<(), Refusal>
    ensures { refusal_of result ≡ early_refusal input.now output work }
{
    module_refusal(input)?;
    loan_refusal(input, output, work)
}

// Both passes, with working words that are all 0. Where not even the fixed rows find room, nothing is done.
fn both_passes(
    input: &[u8],
    output: &mut [u8],
    rows: &mut [u32],
    errors: &mut [u32],
    work: &mut [u32],
) -> State
    requires passed { Passed input.now (length output.old) (length work.old) }
    requires output_value { output.old ≡ input.now ++ drop (length input.now) output.old }
    requires work_value { work.old ≡ replicate (work_width * name_count input.now) 0 }
    ensures { BothPasses input.now
        (buffers_before output rows errors work)
        (buffers_after output rows errors work) result }
{
    if rows.len() < types::FIXED_LENGTH {
        return State {
            errors: 0,
            rows: 0,
            full: true,
        };
    }
    types::put_fixed_rows(rows);
    let mut index = [0u16; row_index::LENGTH];
    put_digits(&mut index[row_index::DIGITS..]);
    row_index::link_all(rows, types::FIXED_COUNT, &mut index);
    let names = built_ins(input);
    let list = Nodes {
        from: items_start(input),
        end: input.len(),
        depth: ITEM_DEPTH,
    };
    let mut walk = Walk {
        output,
        errors,
        rows,
        index: &mut index,
        state: State {
            errors: 0,
            rows: types::FIXED_COUNT,
            full: false,
        },
    };
    declare_items(input, names, work, list, &mut walk);
    type_check_items(input, names, work, list, &mut walk);
    walk.state
}

// The output begins as a copy of the input. A loop: the library for C is to need no function from outside but memset, and a
// copy of slices needs two.
fn copy_bytes(input: &[u8], output: &mut [u8])
    requires { length input.now ≤ length output.old }
    ensures { output.new ≡ input.now ++ drop (length input.now) output.old }
{
    let mut i: usize = 0;
    while i < input.len() {
        output[i] = input[i];
        i += 1;
    }
}

// Refusals 6 and 7 leave zeros.
fn wipe(count: usize, output: &mut [u8], rows: &mut [u32], errors: &mut [u32])
    requires { count ≤ length output.old }
    ensures output_value { output.new ≡ cleared count output.old }
    ensures rows_value { rows.new ≡ cleared (length rows.old) rows.old }
    ensures errors_value { errors.new ≡ cleared (length errors.old) errors.old }
{
    output[..count].fill(0);
    rows.fill(0);
    errors.fill(0);
}

// Tests 6 and 7, after both passes. The output begins as a copy of the input, and the working words are 0 before and
// after.
fn run(
    input: &[u8],
    output: &mut [u8],
    rows: &mut [u32],
    errors: &mut [u32],
    work: &mut [u32],
) -> Result<Counts, Refusal>
    requires passed { Passed input.now (length output.old) (length work.old) }
    requires work_len { length work.old ≡ work_width * name_count input.now }
    ensures { Ends input.now
        (buffers_before output rows errors work)
        (buffers_after output rows errors work) (outcome_of result) }
{
    work.fill(BLANK);
    copy_bytes(input, output);
    let last = both_passes(input, output, rows, errors, work);
    work.fill(BLANK);
    if last.full {
        wipe(input.len(), output, rows, errors);
        return Err(Refusal::TooFewRows);
    }
    let room = errors.len() / ERROR_WIDTH;
    if room < last.errors {
        wipe(input.len(), output, rows, errors);
        return Err(Refusal::TooFewErrors);
    }
    Ok(Counts {
        rows: last.rows,
        errors: last.errors,
    })
}

// Checks a module. The output gets the module with its slots filled; the rows, the errors and the counts are the
// answer. Nothing is asked of the caller: what is lent too short is refused.
pub fn type_check_module(
    input: &[u8],
    output: &mut [u8],
    rows: &mut [u32],
    errors: &mut [u32],
    work: &mut [u32],
) -> Result<Counts, Refusal>
    ensures { Checked input.now
        (buffers_before output rows errors work)
        (buffers_after output rows errors work) (outcome_of result) }
{
    early_refusal(input, output.len(), work.len())?;
    let words = WORK_WIDTH * (name_count(input) as usize);
    run(input, output, rows, errors, &mut work[..words])
}
