//! Dimensions: a number and a unit.
ghost use Rattle.std.specs.Prelude.{◌≡◌, ◌≤◌, ◌<◌, ◌^◌, ◌+◌, length, IfSome, true};
ghost use Rattle.std.specs.List.{list_all};
ghost use Rattle.std.specs.Char.{is_ascii_digit};
ghost use Rattle.specials.specs.Dimension.{dimension_of, part_of, scaled_points, size_of, unit_of};
ghost use Rattle.specials.specs.Units.{ratio_of};

use crate::decimals::{decimal_value, split_digits};

/// The dimension that the text is, in scaled points cut towards zero: an optional minus sign, up to seven digits, optionally a point and
/// up to six digits, with at least one digit in all, and a unit of `pt pc in cm mm bp dd cc sp`. `None` for every other text, and where
/// the size is above 2^31-1.
pub fn dimension(text: &[u8]) -> Option<i64>
    ensures { result ≡ dimension_of text.now }
{
    match text {
        [b'-', size @ ..] => Some(-i64::from(read_size(size)?)),
        _ => Some(i64::from(read_size(text)?)),
    }
}

/// A dimension without its sign, in scaled points.
fn read_size(text: &[u8]) -> Option<u32>
    ensures { result ≡ size_of text.now }
{
    let (whole, rest) = split_digits(text);
    let (part, unit) = split_part(rest);
    let ratio = ratio(unit)?;
    if whole.len() > 7 || part.len() > 6 || whole.len() + part.len() == 0 {
        return None;
    }
    let size = scaled_points(whole, part, ratio);
    if size < 1 << 31 {
        Some(size as u32)
    } else {
        None
    }
}

/// Behind the whole digits: the digits after a point, where there is one, and the unit.
fn split_part(rest: &[u8]) -> (&[u8], &[u8])
    ensures part { result.0.now ≡ part_of rest.now }
    ensures unit { result.1.now ≡ unit_of rest.now }
    ensures digits { list_all is_ascii_digit result.0.now ≡ true }
{
    match rest {
        [b'.', rest @ ..] => split_digits(rest),
        _ => rest.split_at(0),
    }
}

/// How many points one of the unit has, as numerator and denominator.
fn ratio(unit: &[u8]) -> Option<(u128, u128)>
    ensures value { result ≡ ratio_of unit.now }
    ensures small { IfSome result (λ ratio. (ratio.0 ≤ 14856) × (0 < ratio.1) × (ratio.1 ≤ 65536)) }
{
    match unit {
        b"pt" => Some((1, 1)),
        b"pc" => Some((12, 1)),
        b"in" => Some((7227, 100)),
        b"cm" => Some((7227, 254)),
        b"mm" => Some((7227, 2540)),
        b"bp" => Some((7227, 7200)),
        b"dd" => Some((1238, 1157)),
        b"cc" => Some((14856, 1157)),
        b"sp" => Some((1, 65536)),
        _ => None,
    }
}

/// The number `whole.part` of a unit in scaled points, cut.
fn scaled_points(whole: &[u8], part: &[u8], ratio: (u128, u128)) -> u128
    requires whole { list_all is_ascii_digit whole.now ≡ true }
    requires part { list_all is_ascii_digit part.now ≡ true }
    requires few_whole { length whole.now ≤ 7 }
    requires few_part { length part.now ≤ 6 }
    requires small { (ratio.0 ≤ 14856) × (0 < ratio.1) × (ratio.1 ≤ 65536) }
    ensures { result ≡ scaled_points whole.now part.now ratio }
{
    let ten = 10_u128.pow(part.len() as u32);
    let number = u128::from(decimal_value(whole)) * ten + u128::from(decimal_value(part));
    let parts = number * 65536 * ratio.0;
    parts / (ten * ratio.1)
}
