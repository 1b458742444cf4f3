// The words of a case. Those that are numbers of its rows are translated to the checker's numbers.
ghost use Rattle.std.specs.Prelude.{◌≡◌, get_or};
ghost use Rattle.replay.specs.Words.{part_word};

use record_bytes::word;

// The word of this number in a part of a case; 0 past its end.
pub(crate) fn word_of(part: &[u8], i: usize) -> u32
    ensures { result ≡ part_word part.now i }
{
    if part.len() / 4 <= i {
        return 0;
    }
    word(part, 4 * i)
}

// The checker's number of a row of the case. 0 stays 0.
pub(crate) fn number_of(numbers: &[u32], n: u32) -> u32
    ensures { result ≡ get_or numbers.now n 0 }
{
    numbers.get(n as usize).copied().unwrap_or(0)
}
