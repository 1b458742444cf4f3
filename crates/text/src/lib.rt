// Bytes written into a lent text, and lengths of texts counted no further than one past the longest.
#![tactic(auto)]

ghost use Rattle.std.specs.Prelude.{◌≡◌, length};
ghost use Rattle.text.specs.Text.{decimal};
ghost use Rattle.text.specs.Length.{capped};
ghost use Rattle.text.specs.Written.{Fits, Written};

// How long a text may be, and what stands for every greater length.
pub const LONGEST: u32 = 1048576;

pub const TOO_LONG: u32 = LONGEST + 1;

// A length, counted no further than one past the longest.
pub fn cap(length: u64) -> u32
    ensures { result ≡ capped length }
{
    length.min(TOO_LONG as u64) as u32
}

// How many bytes there are, counted no further than one past the longest.
pub fn capped_length(bytes: &[u8]) -> u32
    ensures { result ≡ capped (length bytes.now) }
{
    cap(bytes.len() as u64)
}

// Copies bytes into a text, and returns the place behind them.
// Text and place stay apart: a writer that holds the lent text needs a clause on whose it is in each contract, which is no
// plainer. A loop: the library for C is to need no function from outside but memset, and a copy of slices needs two.
pub fn put(text: &mut [u8], at: usize, bytes: &[u8]) -> usize
    requires { Fits bytes.now text.old at }
    ensures { Written bytes.now text.old text.new at result }
{
    let mut i: usize = 0;
    while i < bytes.len() {
        let place = at + i;
        text[place] = bytes[i];
        i += 1;
    }
    at + bytes.len()
}

// How many decimal digits a number has.
pub fn decimal_length(n: u32) -> u32
    ensures { result ≡ length (decimal n) }
{
    n.checked_ilog10().unwrap_or(0) + 1
}

// Writes a number in decimal, its last digit first, and returns the place behind it.
pub fn put_decimal(text: &mut [u8], at: usize, n: u32) -> usize
    requires { Fits (decimal n) text.old at }
    ensures { Written (decimal n) text.old text.new at result }
{
    let end = at + (decimal_length(n) as usize);
    let mut rest = n;
    for place in (at..end).rev() {
        text[place] = b'0' + ((rest % 10) as u8);
        rest /= 10;
    }
    end
}
