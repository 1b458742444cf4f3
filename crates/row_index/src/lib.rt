// Rows looked up by a hash of their words. Of each bucket the highest row is kept, and of each row the one before it
// in its bucket. Rows that find no place in the index are looked for one after the other. Behind the rows the index has
// the table of digits, for the literals: every walk is lent the index.
#![tactic(auto)]

ghost use Rattle.std.specs.Prelude.{◌≡◌, ◌*◌, ◌≤◌, ◌<◌, length};
ghost use Rattle.rows.specs.Row.{row_width, Distinct};
ghost use Rattle.rows.specs.Search.{Found};
ghost use Rattle.row_index.specs.Index.{heads, bucket_of, with_row, with_rows, RowsIndexed, Followed};

use rows::{Words, alike, row_at};

// The words of an index: the highest row of each bucket, then, for each row that has a place, the one before it in its
// bucket, then the worth of each byte as a digit.
pub const LENGTH: usize = 4352;

// Where the digits start.
pub const DIGITS: usize = 4096;

// How many buckets there are.
const HEADS: usize = 512;

// How many rows have a place.
const PLACES: u32 = 3584;

// How many rows of a bucket are passed before the rows are looked through one after the other: rows that were made to
// share a bucket cost little more than without an index.
const STEPS: u32 = 16;

// The bucket of a row.
fn bucket_of(row: Words) -> usize
    ensures { (result ≡ bucket_of row) × (result < heads) }
{
    let kind = (row.kind as u64) * 268435399;
    let first = (row.first as u64) * 165580141;
    let second = (row.second as u64) * 228826127;
    let name = (row.name as u64) * 141422323;
    ((kind + first + second + name) / 262144 % 512) as usize
}

// The row past row m that has these words, of those that have a place. It is put into both callers, as `find` is.
#[inline(always)]
fn follow(rows: &[u32], index: &[u16; LENGTH], m: u32, count: u32, row: Words) -> Option<u32>
    requires rows_indexed { RowsIndexed rows.now count index.now }
    requires m_le_count { (m ≤ count) × (row_width * count ≤ length rows.now) }
    ensures { Followed rows.now m count row result }
{
    let mut n = index[bucket_of(row)] as u32;
    for _ in 0..STEPS {
        if n <= m {
            return None;
        }
        if alike(row_at(rows, n), row) {
            return Some(n);
        }
        n = index[HEADS + (n as usize) - 1] as u32;
    }
    rows::find(rows, m, n.max(m), row)
}

// The row past row m that has these words. No two rows are alike. It is put into each of its two callers, since both
// ask it all the time.
#[inline(always)]
pub fn find(rows: &[u32], index: &[u16; LENGTH], m: u32, count: u32, row: Words) -> Option<u32>
    requires rows_indexed { RowsIndexed rows.now count index.now }
    requires m_le_count { (m ≤ count) × (row_width * count ≤ length rows.now) × Distinct rows.now count }
    ensures { Found rows.now m count row result }
{
    if let Some(n) = follow(rows, index, m, count, row) {
        return Some(n);
    }
    if count <= PLACES {
        return None;
    }
    rows::find(rows, m.max(PLACES), count, row)
}

// Row n, which has these words, comes into its bucket, if there is a place for it.
pub fn link(index: &mut [u16; LENGTH], n: u32, row: Words)
    requires { 1 ≤ n }
    ensures { index.new ≡ with_row index.old n row }
{
    if PLACES < n {
        return;
    }
    let place = HEADS + (n as usize) - 1;
    let bucket = bucket_of(row);
    index[place] = index[bucket];
    index[bucket] = n as u16;
}

// The first `count` rows come into their buckets, one after the other.
pub fn link_all(rows: &[u32], count: u32, index: &mut [u16; LENGTH])
    requires { row_width * count ≤ length rows.now }
    ensures { index.new ≡ with_rows index.old rows.now 0 count }
{
    for n in 0..count {
        link(index, n + 1, row_at(rows, n + 1));
    }
}
