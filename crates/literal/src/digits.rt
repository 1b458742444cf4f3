// The table of digits: what each byte is worth in a literal.
ghost use Rattle.std.specs.Prelude.{◌≡◌, length};
ghost use Rattle.literal.specs.Digits.{bytes, DigitTable};

// How many bytes there are.
pub const BYTES: usize = 256;

// Each byte's worth as a digit: digits and letters of either case have their worth in base 36, every other byte has
// 255, which is a digit of no base.
const DIGIT_VALUES: [u8; 256] = [
    255, 255, 255, 255, 255, 255, 255, 255, 255, 255, 255, 255, 255, 255, 255, 255, 255, 255, 255,
    255, 255, 255, 255, 255, 255, 255, 255, 255, 255, 255, 255, 255, 255, 255, 255, 255, 255, 255,
    255, 255, 255, 255, 255, 255, 255, 255, 255, 255, 0, // '0'
    1, 2, 3, 4, 5, 6, 7, 8, 9, 255, 255, 255, 255, 255, 255, 255, 10, // 'A'
    11, 12, 13, 14, 15, 16, 17, 18, 19, 20, 21, 22, 23, 24, 25, 26, 27, 28, 29, 30, 31, 32, 33, 34,
    35, 255, 255, 255, 255, 255, 255, 10, // 'a'
    11, 12, 13, 14, 15, 16, 17, 18, 19, 20, 21, 22, 23, 24, 25, 26, 27, 28, 29, 30, 31, 32, 33, 34,
    35, 255, 255, 255, 255, 255, 255, 255, 255, 255, 255, 255, 255, 255, 255, 255, 255, 255, 255,
    255, 255, 255, 255, 255, 255, 255, 255, 255, 255, 255, 255, 255, 255, 255, 255, 255, 255, 255,
    255, 255, 255, 255, 255, 255, 255, 255, 255, 255, 255, 255, 255, 255, 255, 255, 255, 255, 255,
    255, 255, 255, 255, 255, 255, 255, 255, 255, 255, 255, 255, 255, 255, 255, 255, 255, 255, 255,
    255, 255, 255, 255, 255, 255, 255, 255, 255, 255, 255, 255, 255, 255, 255, 255, 255, 255, 255,
    255, 255, 255, 255, 255, 255, 255, 255, 255, 255, 255, 255, 255, 255, 255, 255, 255, 255, 255,
    255, 255, 255, 255, 255, 255, 255, 255, 255, 255, 255, 255, 255, 255, 255, 255, 255, 255, 255,
    255,
];

// Writes the table of digits. A constant array is built anew wherever it is named, so literals are read with a table
// that was written once. A loop: the library for C is to need no function from outside but memset.
pub fn put_digits(table: &mut [u16])
    requires { length table.old ≡ bytes }
    ensures { DigitTable table.new }
{
    let values = DIGIT_VALUES;
    let mut byte: usize = 0;
    while byte < BYTES {
        table[byte] = values[byte] as u16;
        byte += 1;
    }
}
