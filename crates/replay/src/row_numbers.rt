// The rows of a case and the checker's: row by row, the checker's number of each is found. No two rows of a case are
// alike, so where the counts are equal this is one to one.
use crate::expected::{number_of, word_of};
use rows::ROW_WIDTH;

// The row of this number from 0 in a case, its parts by the checker's numbers.
fn translated(expected: &[u8], i: u32, numbers: &[u32]) -> [u32; ROW_WIDTH] {
    let at = ROW_WIDTH * i as usize;
    let kind = word_of(expected, at);
    let first = word_of(expected, at + 1);
    let second = word_of(expected, at + 2);
    let name = word_of(expected, at + 3);
    let size = word_of(expected, at + 4);
    match kind {
        6 | 7 | 8 | 10 | 11 => [kind, number_of(numbers, first), second, name, size],
        9 | 12 | 13 => [
            kind,
            number_of(numbers, first),
            number_of(numbers, second),
            name,
            size,
        ],
        _ => [kind, first, second, name, size],
    }
}

// The number from 1 of a row among the checker's. Most rows differ in their first words.
fn find_row(rows: &[u32], count: u32, row: &[u32]) -> Option<u32> {
    for (n, words) in (1..=count).zip(rows.chunks_exact(ROW_WIDTH)) {
        if words.iter().eq(row) {
            return Some(n);
        }
    }
    None
}

// Finds the checker's number of each row of the case.
pub(crate) fn rows_match(expected: &[u8], rows: &[u32], count: u32, numbers: &mut [u32]) -> bool {
    for i in 0..count {
        let row = translated(expected, i, numbers);
        let place = i as usize + 1;
        match find_row(rows, count, &row) {
            Some(n) if place < numbers.len() => numbers[place] = n,
            _ => return false,
        }
    }
    true
}
