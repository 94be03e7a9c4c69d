//! Whole numbers at the front of a text.
ghost use Rattle.std.specs.Prelude.{◌≡◌, ◌^◌, ◌+◌, ◌-◌, ◌*◌, IsTrue, nat_lt, if◌then◌else◌, Some, None};
ghost use Rattle.cbt_lex.specs.Decimals.{is_digit};
ghost use Rattle.cbt_syntax.specs.Readings.{Reads};
ghost use Rattle.cbt_syntax.specs.Numbers.{digits, decimal_at, goes_on, ended, negative_at, positive_at, number_at};

use crate::fault::SyntaxFault;
use crate::pieces::behind_first;

/// The whole number at the front, and what stands behind it.
#[tactic(auto, unfolding(crate::specs::Numbers::number_at))]
pub(crate) fn number(text: &str) -> Result<(i128, &str), SyntaxFault>
    ensures { Reads (λ x. (x.0, x.1.now)) result (number_at text.now) }
{
    match text.as_bytes() {
        [b'-', ..] => negative(behind_first(text)),
        _ => positive(text),
    }
}

// A number behind its minus sign.
fn negative(text: &str) -> Result<(i128, &str), SyntaxFault>
    ensures { Reads (λ x. (x.0, x.1.now)) result (negative_at text.now) }
{
    let (n, rest) = decimal(text)?;
    if n == 0 || n > 1 << 63 {
        return Err(SyntaxFault::NotWhole);
    }
    ended(-i128::from(n), rest)
}

fn positive(text: &str) -> Result<(i128, &str), SyntaxFault>
    ensures { Reads (λ x. (x.0, x.1.now)) result (positive_at text.now) }
{
    let (n, rest) = decimal(text)?;
    ended(i128::from(n), rest)
}

// A number, unless it would go on as one that is not whole.
fn ended(number: i128, text: &str) -> Result<(i128, &str), SyntaxFault>
    ensures { Reads (λ x. (x.0, x.1.now)) result (ended number text.entry.now) }
{
    match text.as_bytes() {
        [b'.' | b'e' | b'E', ..] => Err(SyntaxFault::NotWhole),
        _ => Ok((number, text)),
    }
}

// A decimal number without a leading zero.
fn decimal(text: &str) -> Result<(u64, &str), SyntaxFault>
    ensures { Reads (λ x. (x.0, x.1.now)) result (decimal_at text.now) }
{
    match text.as_bytes() {
        [b'0', ..] => Ok((0, behind_first(text))),
        [digit, ..] if digit.is_ascii_digit() => {
            more_digits(u64::from(*digit - b'0'), behind_first(text))
        }
        _ => Err(SyntaxFault::Malformed),
    }
}

// The number that some digits make with those at the front.
fn more_digits(first: u64, text: &str) -> Result<(u64, &str), SyntaxFault>
    ensures { Reads (λ x. (x.0, x.1.now)) result (digits first text.now) }
{
    let mut n = first;
    for (at, byte) in text.as_bytes().iter().enumerate() {
        if !byte.is_ascii_digit() {
            return Ok((n, text.split_at(at).1));
        }
        match with_digit(n, *byte) {
            Some(more) => n = more,
            None => return Err(SyntaxFault::NotWhole),
        }
    }
    Ok((n, text.split_at(text.len()).1))
}

// The number with one more digit, where it stays below 2^64.
fn with_digit(n: u64, digit: u8) -> Option<u64>
    requires { IsTrue (is_digit digit) }
    ensures { result ≡ (if nat_lt (n * 10 + (digit - 48)) (2 ^ 64) then Some (n * 10 + (digit - 48)) else None) }
{
    n.checked_mul(10)?.checked_add(u64::from(digit - b'0'))
}
