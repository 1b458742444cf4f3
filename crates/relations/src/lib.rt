// Relations between the types of rows: assignable, castable, and the words of a type.
// A row is known only by the questions of the crate `types`.
#![tactic(auto)]

ghost use Rattle.std.specs.Prelude.{◌≡◌, ◌+◌};
ghost use Rattle.types.specs.Table.{unfolded};
ghost use Rattle.types.specs.Post.{TypePart};
ghost use Rattle.relations.specs.Relations.{types_are_assignable, pair, is_integral_kind};
ghost use Rattle.relations.specs.Relations.{cast_kinds, cast_fits, is_castable_to};
ghost use Rattle.relations.specs.Strips.{last_strip, is_strip_of};
ghost use Rattle.relations.specs.WordSize.{word_size_of};
ghost use Rattle.relations.specs.TypeRows.{OneType, TwoTypes};

// The largest number of words that is answered.
const LARGEST: u32 = 65535;

// A number that no row has.
const NO_ROW: u32 = 0;

// How many words a type has. The two others are answers too and no errors, which a caller is told as words (`as_word`).
#[derive(Clone, Copy, PartialEq, Eq)]
pub enum WordSize {
    Words(u32),
    TooLarge,
    Unknown,
}

// Whether a value of the type source may be assigned to a place of the type target.
pub fn types_are_assignable(rows: &[u32], count: u32, target: u32, source: u32) -> bool
    requires { TwoTypes rows.now count target source }
    ensures { result ≡ types_are_assignable (unfolded rows.now target) (unfolded rows.now source) }
{
    let mut to = target;
    let mut from = source;
    loop {
        if to == from {
            return true;
        }
        let t = types::desugar(rows, count, to);
        let s = types::desugar(rows, count, from);
        if t == s {
            return true;
        }
        if types::kind(rows, count, t) != types::POINTER {
            return false;
        }
        if types::kind(rows, count, s) != types::POINTER {
            return false;
        }
        let pointee = types::part(rows, count, s);
        if types::kind(rows, count, pointee) != types::ARRAY {
            return false;
        }
        to = types::part(rows, count, t);
        from = types::part(rows, count, pointee);
    }
}

// Whether a kind is one of the direct types with reinterpretation.
pub fn is_integral(kind: u32) -> bool
    ensures { result ≡ is_integral_kind kind }
{
    kind == types::U16 || kind == types::I16
}

// Whether a cast turns types of these two kinds into each other.
fn cast_kinds(source: u32, target: u32) -> bool
    ensures { result ≡ cast_kinds source target }
{
    match (source, target) {
        (types::POINTER, types::POINTER | types::U16) | (types::U16, types::POINTER) => true,
        _ => is_integral(source) && is_integral(target),
    }
}

// Whether a pair fits as it stands.
pub fn cast_fits(rows: &[u32], count: u32, source: u32, target: u32) -> bool
    requires { TwoTypes rows.now count source target }
    ensures { result ≡ cast_fits (pair (unfolded rows.now source) (unfolded rows.now target)) }
{
    let from = types::kind(rows, count, source);
    let to = types::kind(rows, count, target);
    cast_kinds(from, to)
        || types::desugar(rows, count, source) == types::desugar(rows, count, target)
}

// The last strip of a type: no distinct alias is left at its top.
fn last_strip(rows: &[u32], count: u32, n: u32) -> u32
    requires { OneType rows.now count n }
    ensures { TypePart rows.now count (n + 1) (last_strip (unfolded rows.now n)) result }
{
    types::strip_to(rows, count, n, NO_ROW)
}

// Whether what n desugars to is a distinct alias among the strips of top.
fn is_strip_of(rows: &[u32], count: u32, n: u32, top: u32) -> bool
    requires { TwoTypes rows.now count n top }
    ensures { result ≡ is_strip_of (unfolded rows.now n) (unfolded rows.now top) }
{
    let wanted = types::desugar(rows, count, n);
    types::kind(rows, count, wanted) == types::DISTINCT_ALIAS
        && types::strip_to(rows, count, top, wanted) == wanted
}

// Whether a value of the type source may be cast to the type target: some pair of their strips fits. Where two strips
// that are distinct aliases are equal, so are the last ones: a pair without a last strip need not be tried.
pub fn is_castable_to(rows: &[u32], count: u32, source: u32, target: u32) -> bool
    requires { TwoTypes rows.now count source target }
    ensures { result ≡ is_castable_to (unfolded rows.now source) (unfolded rows.now target) }
{
    let from = last_strip(rows, count, source);
    let to = last_strip(rows, count, target);
    cast_fits(rows, count, from, to)
        || is_strip_of(rows, count, from, target)
        || is_strip_of(rows, count, to, source)
}

// How many words the type of row n has.
pub fn word_size(rows: &[u32], count: u32, n: u32) -> WordSize
    requires { OneType rows.now count n }
    ensures { result ≡ word_size_of (unfolded rows.now n) }
{
    match types::words(rows, count, n) {
        words @ 0..=LARGEST => WordSize::Words(words),
        size_words::TOO_LARGE_WORD => WordSize::TooLarge,
        _ => WordSize::Unknown,
    }
}
