// The questions about rows that somebody lends: assignable, castable with the number of pairs that were tried, words.
// Each tests the rows first (test 8) and asks nothing of its caller.
#![tactic(auto)]

ghost use Rattle.std.specs.Prelude.{◌≡◌, map};
ghost use Rattle.types.specs.Table.{Decides, unfolded};
ghost use Rattle.relations.specs.Relations.{types_are_assignable, pair, strips};
ghost use Rattle.relations.specs.TypeRows.{OneType, TwoTypes};
ghost use Rattle.queries.specs.CastSearch.{searched, cast_search};
ghost use Rattle.queries.specs.Entry.{Answers, Measures, answered_of, searched_of, measured_of};

use refusal::Refusal;
use relations::{WordSize, cast_fits, types_are_assignable, word_size};

// What the search of a cast finds: whether a pair fits, and how many were tried, the one that fits included.
#[derive(Clone, Copy, Debug, PartialEq, Eq)]
pub struct CastSearch {
    pub fits: bool,
    pub pairs: u64,
}

// Whether the rows obey the rules, and n is a type row.
fn one_type(rows: &[u32], count: u32, n: u32) -> bool
    ensures { Decides (OneType rows.now count n) result }
{
    validate_rows::is_table(rows, count) && validate_rows::is_type(rows, count, n)
}

// Whether the rows obey the rules, and both m and n are type rows.
fn two_types(rows: &[u32], count: u32, m: u32, n: u32) -> bool
    ensures { Decides (TwoTypes rows.now count m n) result }
{
    one_type(rows, count, m) && validate_rows::is_type(rows, count, n)
}

// The search over the strips of target, each with source as it stands.
fn search_targets(rows: &[u32], count: u32, source: u32, target: u32) -> CastSearch
    requires { TwoTypes rows.now count source target }
    ensures { result ≡ searched (map (pair (unfolded rows.now source)) (strips (unfolded rows.now target))) }
{
    let mut to = target;
    let mut pairs: u64 = 1;
    loop {
        if cast_fits(rows, count, source, to) {
            return CastSearch { fits: true, pairs };
        }
        if types::kind(rows, count, to) != types::DISTINCT_ALIAS {
            return CastSearch { fits: false, pairs };
        }
        to = types::part(rows, count, to);
        pairs += 1;
    }
}

// The search of a cast: the strips of source, and for each of them the strips of target.
fn search_cast(rows: &[u32], count: u32, source: u32, target: u32) -> CastSearch
    requires { TwoTypes rows.now count source target }
    ensures { result ≡ cast_search (unfolded rows.now source) (unfolded rows.now target) }
{
    let mut from = source;
    let mut before: u64 = 0;
    loop {
        let found = search_targets(rows, count, from, target);
        let pairs = before + found.pairs;
        if found.fits {
            return CastSearch { fits: true, pairs };
        }
        if types::kind(rows, count, from) != types::DISTINCT_ALIAS {
            return CastSearch { fits: false, pairs };
        }
        from = types::part(rows, count, from);
        before = pairs;
    }
}

// Whether the type of row source may be assigned to that of row target.
pub fn assignable(rows: &[u32], count: u32, target: u32, source: u32) -> Result<bool, Refusal>
    ensures { Answers rows.now count target source
        (types_are_assignable (unfolded rows.now target) (unfolded rows.now source)) (answered_of result) }
{
    if !two_types(rows, count, target, source) {
        return Err(Refusal::UnsoundLoan);
    }
    Ok(types_are_assignable(rows, count, target, source))
}

// Whether the type of row source may be cast to that of row target, and how many pairs were tried to find out.
pub fn castable(rows: &[u32], count: u32, source: u32, target: u32) -> Result<CastSearch, Refusal>
    ensures { Answers rows.now count source target
        (cast_search (unfolded rows.now source) (unfolded rows.now target)) (searched_of result) }
{
    if !two_types(rows, count, source, target) {
        return Err(Refusal::UnsoundLoan);
    }
    Ok(search_cast(rows, count, source, target))
}

// How many words the type of row n has.
pub fn words(rows: &[u32], count: u32, n: u32) -> Result<WordSize, Refusal>
    ensures { Measures rows.now count n (measured_of result) }
{
    if !one_type(rows, count, n) {
        return Err(Refusal::UnsoundLoan);
    }
    Ok(word_size(rows, count, n))
}
