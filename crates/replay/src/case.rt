// A case is a list of words, least byte first: its length in bytes; what is asked, a check or messages; the length of
// the module. Of a check then come the bytes of output, the words of rows, of errors and of work that are lent; the
// number and the place of the refusal, or 0 and 0; how many rows, errors and slots there are, and names whose working
// words are cleared; then the module; the rows in any numbering from 1; the errors, and the row of each slot in byte
// order, by that numbering. src/messages.rt has what comes of messages.
ghost use Rattle.std.specs.Prelude.{◌≡◌, ◌<◌, ◌^◌, IfSome, IfNone};
ghost use Rattle.replay.specs.Words.{part_word};
ghost use Rattle.replay.specs.Cases.{WholeCheck, IsCheckOf};

use crate::expected::word_of;
use fallible::ERROR_WIDTH;
use rows::ROW_WIDTH;

// The bytes of the words before the module.
pub(crate) const HEAD: usize = 52;

// What is asked: a check is 0.
pub(crate) const MESSAGES: u32 = 1;

// Bytes of a word.
pub(crate) const WORD: usize = 4;

// A word of the case, as a length.
pub(crate) fn size(case: &[u8], i: usize) -> usize
    ensures is { result ≡ part_word case.now i }
    ensures small { result < 2 ^ 32 }
{
    word_of(case, i) as usize
}

// Whether messages are asked for.
pub(crate) fn asks_messages(case: &[u8]) -> bool {
    word_of(case, 1) == MESSAGES
}

// The bytes and words that are lent for a check.
#[derive(Clone, Copy)]
pub(crate) struct Lent {
    pub output: usize,
    pub rows: usize,
    pub errors: usize,
    pub work: usize,
}

// A case of a check.
#[derive(Clone, Copy)]
pub(crate) struct Check<'a> {
    pub lent: Lent,
    pub number: u32,
    pub place: usize,
    pub row_count: u32,
    pub error_count: usize,
    pub name_count: u32,
    pub module: &'a [u8],
    pub rows: &'a [u8],
    pub errors: &'a [u8],
    pub slots: &'a [u8],
}

// The case by its parts, if it is whole.
pub(crate) fn read_check<'a>(case: &'a [u8]) -> Option<Check<'a>>
    ensures some { IfSome result (λ check. IsCheckOf case.now check) }
    ensures none { IfNone result (¬ (WholeCheck case.now)) }
{
    let (head, rest) = case.split_at_checked(HEAD)?;
    let lent = Lent {
        output: size(head, 3),
        rows: size(head, 4),
        errors: size(head, 5),
        work: size(head, 6),
    };
    let row_count = word_of(head, 9);
    let error_count = size(head, 10);
    let (module, rest) = rest.split_at_checked(size(head, 2))?;
    let (rows, rest) = rest.split_at_checked(WORD * ROW_WIDTH * row_count as usize)?;
    let (errors, slots) = rest.split_at_checked(WORD * ERROR_WIDTH * error_count)?;
    if slots.len() != WORD * size(head, 11) || case.len() != size(head, 0) {
        return None;
    }
    Some(Check {
        lent,
        number: word_of(head, 7),
        place: size(head, 8),
        row_count,
        error_count,
        name_count: word_of(head, 12),
        module,
        rows,
        errors,
        slots,
    })
}
