// What is lent to the checker: every word and byte holds a value of its place before a case, and is looked at after it.
use crate::case::{Check, WORD};

// Working words of a name.
const NAME_WIDTH: usize = 4;

// The buffers: of bytes, and of words.
#[derive(Clone, Copy)]
pub(crate) enum Buffer {
    Bytes,
    Rows,
    Errors,
    Work,
}

// A word or a byte that is lent.
pub(crate) trait Item: Copy + PartialEq {
    // What the one at this place of a buffer holds before a case: never 0.
    fn before(buffer: Buffer, i: usize) -> Self;

    fn is_zero(self) -> bool;
}

impl Item for u32 {
    // Another word in each buffer, and larger than any row number, count or place.
    fn before(buffer: Buffer, i: usize) -> u32 {
        let first = match buffer {
            Buffer::Bytes => 1,
            Buffer::Rows => 1000000001,
            Buffer::Errors => 2000000001,
            Buffer::Work => 3000000001,
        };
        first + (i % 1000000) as u32
    }

    fn is_zero(self) -> bool {
        self == 0
    }
}

impl Item for u8 {
    fn before(_buffer: Buffer, i: usize) -> u8 {
        (i % 251 + 1) as u8
    }

    fn is_zero(self) -> bool {
        self == 0
    }
}

// By index: the compiler then sees how far the places go, and fills many items at once.
pub(crate) fn fill<T: Item>(items: &mut [T], buffer: Buffer) {
    for i in 0..items.len() {
        items[i] = T::before(buffer, i);
    }
}

// Fills what is lent.
pub(crate) fn fill_all(output: &mut [u8], rows: &mut [u32], errors: &mut [u32], work: &mut [u32]) {
    fill(output, Buffer::Bytes);
    fill(rows, Buffer::Rows);
    fill(errors, Buffer::Errors);
    fill(work, Buffer::Work);
}

// Whether the items before a place are all there, and 0.
fn are_zero<T: Item>(items: &[T], end: usize) -> bool {
    items.len() >= end && items[..end].iter().all(|item| item.is_zero())
}

// Whether the items from a place on are as they were. None ends the loop early, so many are compared at once.
pub(crate) fn are_kept<T: Item>(items: &[T], from: usize, buffer: Buffer) -> bool {
    let mut kept = true;
    for i in from..items.len() {
        kept &= items[i] == T::before(buffer, i);
    }
    kept
}

// How far the checker writes in what is lent.
#[derive(Clone, Copy, Default)]
struct Written {
    output: usize,
    rows: usize,
    errors: usize,
    work: usize,
}

// Accepted it writes the module, its rows and its errors; refused with 6 or 7 it clears what is lent; refused with
// another number it writes nothing.
fn written_in(check: &Check) -> Written {
    let output = check.module.len();
    let work = NAME_WIDTH * check.name_count as usize;
    match check.number {
        0 => Written {
            output,
            rows: check.rows.len() / WORD,
            errors: check.errors.len() / WORD,
            work,
        },
        6 | 7 => Written {
            output,
            rows: check.lent.rows,
            errors: check.lent.errors,
            work,
        },
        _ => Written::default(),
    }
}

// Whether what the checker does not write is as it was.
fn rest_kept(w: Written, output: &[u8], rows: &[u32], errors: &[u32], work: &[u32]) -> bool {
    are_kept(output, w.output, Buffer::Bytes)
        && are_kept(rows, w.rows, Buffer::Rows)
        && are_kept(errors, w.errors, Buffer::Errors)
        && are_kept(work, w.work, Buffer::Work)
}

// Whether the output, the rows and the errors are 0 as far as they are written.
fn results_cleared(w: Written, output: &[u8], rows: &[u32], errors: &[u32]) -> bool {
    are_zero(output, w.output) && are_zero(rows, w.rows) && are_zero(errors, w.errors)
}

// Whether the words and bytes that hold no result are as the case demands: the working words of the names are 0, of a
// case that is refused the results are 0 too, and all others are as they were.
pub(crate) fn lent_match(
    check: &Check,
    output: &[u8],
    rows: &[u32],
    errors: &[u32],
    work: &[u32],
) -> bool {
    let w = written_in(check);
    rest_kept(w, output, rows, errors, work)
        && are_zero(work, w.work)
        && (check.number == 0 || results_cleared(w, output, rows, errors))
}
