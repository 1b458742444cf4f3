// The request's demands, as the contract of two calls of the entry.
#![tactic(auto)]

ghost use Rattle.type_check.specs.Post.{outcome_of};
ghost use Rattle.demands.specs.Demands.{run_of, Demands};

use refusal::Refusal;
use type_check::{Counts, type_check_module};

// The answers of two calls.
#[derive(Clone, Copy, Debug, PartialEq, Eq)]
pub struct Answers {
    pub first: Result<Counts, Refusal>,
    pub second: Result<Counts, Refusal>,
}

// Checks two modules, each with buffers of its own.
pub fn type_check_both(
    input: &[u8],
    output: &mut [u8],
    rows: &mut [u32],
    errors: &mut [u32],
    work: &mut [u32],
    input_2: &[u8],
    output_2: &mut [u8],
    rows_2: &mut [u32],
    errors_2: &mut [u32],
    work_2: &mut [u32],
) -> Answers
    ensures { Demands
        (run_of input.now output rows errors work (outcome_of result.first))
        (run_of input_2.now output_2 rows_2 errors_2 work_2 (outcome_of result.second)) }
{
    let first = type_check_module(input, output, rows, errors, work);
    let second = type_check_module(input_2, output_2, rows_2, errors_2, work_2);
    Answers { first, second }
}
