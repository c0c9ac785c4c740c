//! Numbers in a format line: decimals without a leading zero, and ratios of two.

ghost use Rattle.std.specs.Prelude.{◌≡◌, ◌<◌};
ghost use Rattle.std.specs.Char.{is_ascii_digit};
ghost use Rattle.std.specs.List.{list_all};
ghost use Rattle.fmtp.specs.Decimals.{decimal_of, coprime, ratio_of, rate_of};

use crate::texts::split_at_first;
use records::Ratio;

/// The number from 1 to `limit` that a text writes.
pub fn decimal(text: &[u8], limit: u32) -> Option<u32>
    ensures { result ≡ decimal_of limit text.now }
{
    if text.starts_with(b"0") || !is_digits(text) {
        return None;
    }
    let number = str::from_utf8(text).ok()?.parse::<u32>().ok()?;
    (number <= limit).then_some(number)
}

fn is_digits(text: &[u8]) -> bool
    ensures { result ≡ list_all is_ascii_digit text.now }
{
    text.iter().all(|octet| octet.is_ascii_digit())
}

/// Two numbers from 1 to `limit` with the separator between them, and with no common divisor.
pub fn ratio(text: &[u8], separator: u8, limit: u32) -> Option<Ratio>
    ensures { result ≡ ratio_of separator limit text.now }
{
    let (front, rest) = split_at_first(text, separator);
    let numerator = decimal(front, limit)?;
    let denominator = decimal(rest?, limit)?;
    is_coprime(numerator, denominator).then_some(Ratio {
        numerator,
        denominator,
    })
}

/// Frames a second: a whole number, or a fraction.
pub fn frame_rate(text: &[u8]) -> Option<Ratio>
    ensures { result ≡ rate_of text.now }
{
    const LIMIT: u32 = 999_999;
    decimal(text, LIMIT)
        .map(|numerator| Ratio {
            numerator,
            denominator: 1,
        })
        .or_else(|| ratio(text, b'/', LIMIT).filter(|rate| rate.denominator > 1))
}

// Whether no number above 1 divides both, by Euclid's algorithm.
fn is_coprime(a: u32, b: u32) -> bool
    requires a_positive { 0 < a }
    requires b_positive { 0 < b }
    ensures { result ≡ coprime a b }
{
    let mut x = a;
    let mut y = b;
    while y != 0 {
        (x, y) = (y, x % y);
    }
    x == 1
}
