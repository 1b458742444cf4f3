// One case: the checker is run with what the case lends, and what it leaves is compared.
use crate::case::{Check, WORD, asks_messages, read_check};
use crate::errors::errors_match;
use crate::lent::{fill_all, lent_match};
use crate::messages::judge_messages;
use crate::output::output_matches;
use crate::row_numbers::rows_match;
use refusal::Refusal;
use type_check::{Counts, type_check_module};

// What becomes of a case: it is accepted or refused as expected, or it differs.
#[derive(Clone, Copy, PartialEq, Eq)]
pub(crate) enum Verdict {
    Good,
    Refused,
    Differs,
}

// A refusal is as expected or not.
fn judge_refusal(check: &Check, refusal: Refusal) -> Verdict {
    if refusal.number() == check.number && refusal.place() == check.place {
        Verdict::Refused
    } else {
        Verdict::Differs
    }
}

// Whether the rows, the errors and the output are those of the case.
fn results_match(check: &Check, output: &[u8], rows: &[u32], errors: &[u32]) -> bool {
    let length = check.module.len();
    let error_words = check.errors.len() / WORD;
    if output.len() < length || errors.len() < error_words {
        return false;
    }
    let mut numbers = [0u32; 3001];
    rows_match(check.rows, rows, check.row_count, &mut numbers)
        && errors_match(check.errors, &errors[..error_words], &numbers)
        && output_matches(check.module, &output[..length], check.slots, &numbers)
}

// Whether the case is accepted with these counts and results.
fn judge_acceptance(
    check: &Check,
    counts: Counts,
    output: &[u8],
    rows: &[u32],
    errors: &[u32],
) -> Verdict {
    if check.number == 0
        && counts.rows == check.row_count
        && counts.errors == check.error_count
        && results_match(check, output, rows, errors)
    {
        Verdict::Good
    } else {
        Verdict::Differs
    }
}

// Fills what is lent, runs the checker on the module of the case and compares.
fn judge_lent(
    check: &Check,
    output: &mut [u8],
    rows: &mut [u32],
    errors: &mut [u32],
    work: &mut [u32],
) -> Verdict {
    fill_all(output, rows, errors, work);
    let answer = type_check_module(check.module, output, rows, errors, work);
    if !lent_match(check, output, rows, errors, work) {
        return Verdict::Differs;
    }
    match answer {
        Ok(counts) => judge_acceptance(check, counts, output, rows, errors),
        Err(refusal) => judge_refusal(check, refusal),
    }
}

// Lends what a case of a check says, runs the checker and compares. A case that is not whole, or that asks for more
// than there is, differs.
fn judge_check(
    case: &[u8],
    output: &mut [u8],
    rows: &mut [u32],
    errors: &mut [u32],
    work: &mut [u32],
) -> Verdict {
    let Some(check) = read_check(case) else {
        return Verdict::Differs;
    };
    let lent = check.lent;
    if output.len() < lent.output
        || rows.len() < lent.rows
        || errors.len() < lent.errors
        || work.len() < lent.work
    {
        return Verdict::Differs;
    }
    judge_lent(
        &check,
        &mut output[..lent.output],
        &mut rows[..lent.rows],
        &mut errors[..lent.errors],
        &mut work[..lent.work],
    )
}

// A case of either sort.
pub(crate) fn judge(
    case: &[u8],
    output: &mut [u8],
    rows: &mut [u32],
    errors: &mut [u32],
    work: &mut [u32],
) -> Verdict {
    if asks_messages(case) {
        judge_messages(case, output, rows, errors, work)
    } else {
        judge_check(case, output, rows, errors, work)
    }
}
