// Integer literals: `u16::from_str_radix` on bytes.
#![tactic(auto)]

pub mod digits;

ghost use Rattle.std.specs.Prelude.{◌≡◌, ◌≤◌};
ghost use Rattle.literal.specs.Literal.{parse_digits, from_str_radix, parsed_value};
ghost use Rattle.literal.specs.Digits.{DigitTable};

use digits::{BYTES, put_digits};

const MIN_BASE: u32 = 2;

const MAX_BASE: u32 = 36;

const U16_MAX: u32 = 65535;

// Reads digits without a sign: none if there are none, a byte is no digit of the base or the value passes `u16::MAX`.
fn parse_digits(digits: &[u8], base: u32, table: &[u16]) -> Option<u16>
    requires le_base { (2 ≤ base) × (base ≤ 36) }
    requires digit_table { DigitTable table.now }
    ensures { parsed_value result ≡ parse_digits base digits.now }
{
    if digits.is_empty() {
        return None;
    }
    let mut value: u32 = 0;
    for &byte in digits {
        let digit = u32::from(table[usize::from(byte)]);
        if base <= digit {
            return None;
        }
        value = value * base + digit;
        if U16_MAX < value {
            return None;
        }
    }
    Some(value as u16)
}

// Reads a literal: perhaps a `+`, then digits of a base of 2 to 36, letters of either case. The table is lent.
pub fn from_str_radix_with(text: &[u8], base: u32, table: &[u16]) -> Option<u16>
    requires { DigitTable table.now }
    ensures { parsed_value result ≡ from_str_radix base text.now }
{
    if base < MIN_BASE || MAX_BASE < base {
        return None;
    }
    match text {
        [b'+', digits @ ..] => parse_digits(digits, base, table),
        _ => parse_digits(text, base, table),
    }
}

// Reads a literal with a table of its own.
pub fn from_str_radix(text: &[u8], base: u32) -> Option<u16>
    ensures { parsed_value result ≡ from_str_radix base text.now }
{
    let mut table = [0u16; BYTES];
    put_digits(&mut table);
    from_str_radix_with(text, base, &table)
}
