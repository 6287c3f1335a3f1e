//! Parsing words as amounts, prices and numbers below a limit.

ghost use Rattle.std.specs.Prelude.{◌≡◌, ◌<◌, ◌≤◌, IfSome};
ghost use Rattle.ctt_script.specs.Amounts.{amount_of, negated, price_of, number_below};

use ctt_text::number;

/// The greatest amount in a journal, which is the greatest `i64`.
const GREATEST: u128 = 9_223_372_036_854_775_807;

/// Parses an amount: decimal digits only, with a value of at most 9,223,372,036,854,775,807.
pub(crate) fn amount(word: &[u8]) -> Option<u64>
    ensures amount { result ≡ amount_of word.now }
    ensures small { IfSome result (λ n. n ≤ 9223372036854775807) }
{
    if word.is_empty() {
        return None;
    }
    let mut value: u128 = 0;
    for byte in word {
        if !byte.is_ascii_digit() {
            return None;
        }
        value = value * 10 + u128::from(*byte - b'0');
        if value > GREATEST {
            return None;
        }
    }
    Some(value as u64)
}

fn negate(amount: u64) -> i64
    requires { amount ≤ 9223372036854775807 }
    ensures { result ≡ negated amount }
{
    -(amount as i64)
}

/// Parses a price: an amount, with an optional `-` in front.
pub(crate) fn price(word: &[u8]) -> Option<i64>
    ensures { result ≡ price_of word.now }
{
    let (first, rest) = word.split_first()?;
    if *first == b'-' {
        Some(negate(amount(rest)?))
    } else {
        Some(amount(word)? as i64)
    }
}

/// Parses a decimal number less than `limit`.
pub(crate) fn number_below(word: &[u8], limit: u16) -> Option<u16>
    ensures number { result ≡ number_below limit word.now }
    ensures small { IfSome result (λ n. n < limit) }
{
    let number = number(word)?;
    if number < u32::from(limit) {
        Some(number as u16)
    } else {
        None
    }
}
