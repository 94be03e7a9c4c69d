//! Whole numbers in decimal.

ghost use Rattle.std.specs.Prelude.{◌≡◌, ◌++◌, OnOk, decimal};
ghost use Rattle.cbt_lex.specs.Decimals.{number_of, digits_from, one_more};

use cbt_base::{NoMemory, Text};
use itoa::Buffer;

/// The number below 2^64 that a word is in decimal, without a leading zero.
pub fn number(word: &str) -> Option<u64>
    ensures { result ≡ number_of word.now }
{
    match word.as_bytes() {
        [] | [b'0', _, ..] => None,
        digits => all_digits(digits),
    }
}

// The number of decimal digits, where there are no other bytes and it is below 2^64.
fn all_digits(digits: &[u8]) -> Option<u64>
    ensures { result ≡ digits_from 0 digits.now }
{
    let mut number: u64 = 0;
    for digit in digits {
        number = with_digit(number, *digit)?;
    }
    Some(number)
}

// A number with one digit more.
fn with_digit(number: u64, digit: u8) -> Option<u64>
    ensures { result ≡ one_more number digit }
{
    if digit.is_ascii_digit() {
        number.checked_mul(10)?.checked_add(u64::from(digit - b'0'))
    } else {
        None
    }
}

/// Puts a number at the end of a text, in decimal.
pub fn push_number(out: &mut Text, n: u64) -> Result<(), NoMemory>
    ensures { OnOk result (out.new ≡ out.old ++ decimal n) }
{
    let mut buffer = Buffer::new();
    out.push_str(buffer.format(n))
}
