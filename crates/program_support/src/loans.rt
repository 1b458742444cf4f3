// What document 01's report program lends, and so do the others: 3,000 rows, 2,000 errors, 16,376 working words, an
// output as long as the longest module. The input has room for one byte more, so that a module that is too long is
// seen.
use fallible::ERROR_WIDTH;
use layout::MAX_BYTES;
use rows::ROW_WIDTH;

pub const INPUT: usize = MAX_BYTES + 1;

pub const OUTPUT: usize = MAX_BYTES;

pub const ROW_COUNT: usize = 3000;

pub const ROWS: usize = ROW_COUNT * ROW_WIDTH;

pub const ERROR_COUNT: usize = 2000;

pub const ERRORS: usize = ERROR_COUNT * ERROR_WIDTH;

pub const WORK: usize = 16376;
