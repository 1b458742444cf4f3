// The fifth word of a row, its size: how many words its type has, or one of two words that stand for no number.
#![tactic(auto)]

ghost use Rattle.std.specs.Prelude.{◌≡◌};
ghost use Rattle.size_words.specs.SizeWords.{capped, known, array_word, field_word};

// The two words are lent words, which a C caller reads, and so numbers.
// The type has more than 65,535 words.
pub const TOO_LARGE_WORD: u32 = 65536;

// Unknown is inside.
pub const UNKNOWN_WORD: u32 = 65537;

// The word, unless one of two parts has Unknown inside.
pub fn known_word(first: u32, second: u32, word: u32) -> u32
    ensures { result ≡ known first second word }
{
    if first == UNKNOWN_WORD || second == UNKNOWN_WORD {
        UNKNOWN_WORD
    } else {
        word
    }
}

// Words counted no further than 65,536.
fn capped_words(words: u64) -> u32
    ensures { result ≡ capped words }
{
    words.min(u64::from(TOO_LARGE_WORD)) as u32
}

// The size of an array, from its element's.
pub fn array_word(element: u32, size: u32) -> u32
    ensures { result ≡ array_word element size }
{
    let words = capped_words(u64::from(size) * u64::from(element));
    known_word(element, 0, words)
}

// The size of a field cell, from its type's and its rest's.
pub fn field_word(ty: u32, rest: u32) -> u32
    ensures { result ≡ field_word ty rest }
{
    let words = capped_words(u64::from(ty) + u64::from(rest));
    known_word(ty, rest, words)
}
