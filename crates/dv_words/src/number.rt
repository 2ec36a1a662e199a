//! Numbers in words.
ghost use Rattle.std.specs.Prelude.{◌≡◌, ◌≤◌, IfSome};
ghost use Rattle.std.specs.List.{list_all};
ghost use Rattle.std.specs.Char.{is_ascii_digit};
ghost use Rattle.dv_words.specs.Numbers.{is_number, magnitude, number_from, number_of, page_number};

use specials::decimal_value;

/// Without the minus sign, where there is one.
fn magnitude(text: &[u8]) -> &[u8]
    ensures { result.now ≡ magnitude text.now }
{
    match text {
        [b'-', digits @ ..] => digits,
        _ => text,
    }
}

/// An optional minus sign and one to ten digits.
fn is_number(text: &[u8]) -> bool
    ensures { result ≡ is_number text.now }
{
    let digits = magnitude(text);
    are_digits(digits) && 1 <= digits.len() && digits.len() <= 10
}

fn are_digits(bytes: &[u8]) -> bool
    ensures { result ≡ list_all is_ascii_digit bytes.now }
{
    bytes.iter().all(|byte| byte.is_ascii_digit())
}

/// The number that the text writes.
pub fn number(text: &[u8]) -> Option<i64>
    ensures { result ≡ number_of text.now }
{
    if !is_number(text) {
        return None;
    }
    let size = decimal_value(magnitude(text)) as i64;
    if text[0] == b'-' {
        Some(-size)
    } else {
        Some(size)
    }
}

/// The number that the text writes, where it is from `low` to `high`.
pub fn number_from(text: &[u8], low: u32, high: u32) -> Option<u32>
    ensures value { result ≡ number_from low high text.now }
    ensures bounds { IfSome result (λ n. (low ≤ n) × (n ≤ high)) }
{
    match number(text) {
        Some(number) if i64::from(low) <= number && number <= i64::from(high) => Some(
            number as u32,
        ),
        _ => None,
    }
}

/// A signed number of 32 bits.
pub fn page_number(text: &[u8]) -> Option<i64>
    ensures { result ≡ page_number text.now }
{
    match number(text) {
        Some(number) if -2_147_483_648 <= number && number <= 2_147_483_647 => Some(number),
        _ => None,
    }
}
