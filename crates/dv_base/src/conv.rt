//! From units of a DVI file to pixels.
ghost use Rattle.std.specs.Prelude.{◌≡◌, ◌↔◌, ◌*◌, ◌+◌, ◌-◌, ◌/◌, ◌^◌, ◌<◌, ◌≤◌, pos, ◌*ℤ◌, ◌-ℤ◌, ◌<ℤ◌, ◌≤ℤ◌, unsigned_abs, IsSome, IfSome, IsTrue, MatchOption};
ghost use Rattle.dv_base.specs.Rounding.{IsNearest, IsCeiling, IsFine, half_up, rounded, ceiling};
ghost use Rattle.dv_base.specs.Brought.{IsWay, brought};
ghost use Rattle.dv_base.specs.Excess.{IsReach, Tells, excess};
ghost use Rattle.dv_base.specs.Lowest.{gcd};
ghost use Rattle.dv_base.specs.RoundingLaws.{rounded-nearest};
ghost use Rattle.dv_base.specs.UnitPixels.{pixels_of_one, unit_length, IsSameNumber, IsUsable};

use crate::units::Units;
use std::marker::Model;

/// Turns lengths in DVI units into whole pixels, by exact fractions.
///
/// A length of `x` units is `x · top / bottom` pixels, where `top / bottom` is `num · mag · dpi / (254000 · 1000 · den)` in lowest
/// terms (DVI format, preamble: `num / den` of 10^-7 metres, of which an inch has 254,000, and `mag / 1000`). In lowest terms almost
/// all products fit 64 bits, and their division is several times as fast as that of 128 bits.
#[derive(Clone, Copy, Debug, PartialEq, Eq, Drop)]
pub struct Conv {
    top: u128,
    bottom: u128,
}

impl Model for Conv {
    ghost use Rattle.std.specs.Prelude.{ℕ, ◌<◌, ◌^◌};
    ghost use Rattle.dv_base.specs.Rounding.{Fraction, IsFine};
    ghost use Rattle.dv_base.specs.UnitPixels.{IsKept};

    ghost Value = { Fraction };

    ghost view = { λ c. record { top = c.top; bottom = c.bottom } };

    ghost invariant = { λ c. IsKept c.top c.bottom };

    ghost inverse = { λ f. record { top = f.top; bottom = f.bottom } };
}

/// The number, where it is at least 1.
fn positive(number: i64) -> Option<u128>
    ensures { MatchOption result (number ≤ℤ pos 0) (λ n. (number ≡ pos n) × (0 < n)) }
{
    match u128::try_from(number) {
        Ok(n) if n > 0 => Some(n),
        _ => None,
    }
}

/// The greatest common divisor, by Euclid's steps.
fn greatest_divisor(a: u128, b: u128) -> u128
    ensures { result ≡ gcd a b }
{
    let mut greater = a;
    let mut less = b;
    while less > 0 {
        let rest = greater % less;
        greater = less;
        less = rest;
    }
    greater
}

/// The whole part of a quotient, divided in 64 bits where both numbers fit.
fn quotient(above: u128, below: u128) -> u128
    requires { 0 < below }
    ensures { result ≡ above / below }
{
    match (u64::try_from(above), u64::try_from(below)) {
        (Ok(above), Ok(below)) => u128::from(above / below),
        _ => above / below,
    }
}

/// What leads from a range, from `least` to `most`, to the whole part of a quotient: 0 where it is inside, 1 where it is the next above
/// them, -1 where it is the next below them; `None` where it is further.
// By products alone. Each of them is of two numbers of 64 bits, so the processor takes one step for it.
#[inline(always)]
fn way_to(above: u128, below: u64, least: u64, most: u64) -> Option<i64>
    requires below { below < 2 ^ 62 }
    requires some { 0 < below }
    requires most { most < 2 ^ 63 }
    ensures { IfSome result (IsWay least most (above / below)) }
{
    let below = u128::from(below);
    let (low, high) = (u128::from(least) * below, u128::from(most + 1) * below);
    if above < low {
        return if above + below >= low { Some(-1) } else { None };
    }
    if above < high {
        return Some(0);
    }
    if above < high + below { Some(1) } else { None }
}

/// An excess that isn't told: it is too large, so that no number of pixels with it is near enough.
const UNTOLD: i64 = 1 << 61;

/// The most that a reach may be: far below what isn't told.
const MOST_REACH: u128 = (1 << 59) - 1;

/// A number of units or pixels, times the top or the bottom of a fraction.
#[inline(always)]
fn product(number: i64, by: u128) -> i128
    requires number { unsigned_abs number < 2 ^ 42 }
    requires by { by < 2 ^ 60 }
    ensures value { result ≡ number *ℤ pos by }
    ensures bound { unsigned_abs result < 2 ^ 102 }
{
    i128::from(number) * i128::from(by as i64)
}

impl Conv {
    /// The conversion of a document's units; `None` exactly where one of them is below 1, or where a unit is so large that
    /// 2^31 - 1 units are 2^30 pixels or more.
    pub fn new(units: &Units) -> Option<Conv>
        requires num { units.now.num <ℤ pos (2 ^ 31) }
        requires den { units.now.den <ℤ pos (2 ^ 31) }
        requires mag { units.now.mag <ℤ pos (2 ^ 31) }
        requires dpi { units.now.dpi ≤ℤ pos 10000 }
        ensures some { IsSome result ↔ IsUsable units.now }
        ensures value { IfSome result (λ conv. conv ≡ pixels_of_one units.now) }
        ensures same { IfSome result (λ conv. IsSameNumber conv (unit_length units.now)) }
    {
        let top = positive(units.num)? * positive(units.mag)? * positive(units.dpi)?;
        let bottom = 254_000 * 1_000 * positive(units.den)?;
        if top * 0x7fff_ffff < bottom * 0x4000_0000 {
            let divisor = greatest_divisor(top, bottom);
            Some(Conv {
                top: top / divisor,
                bottom: bottom / divisor,
            })
        } else {
            None
        }
    }

    /// The length `x` in pixels, rounded to the nearest whole number, a half away from zero.
    pub fn round(&self, x: i64) -> i64
        requires { unsigned_abs x < 2 ^ 40 }
        ensures value { result ≡ rounded self.now x }
        ensures nearest { IsNearest self.now x result }
        ensures fine { IsFine self.now }
        ensures bound { 2 * unsigned_abs result * (2 ^ 31 - 1) ≤ unsigned_abs x * 2 ^ 31 + (2 ^ 31 - 1) }
    {
        let length = u128::from(x.unsigned_abs());
        let pixels = quotient(2 * length * self.top + self.bottom, 2 * self.bottom) as i64;
        if x < 0 { -pixels } else { pixels }
    }

    /// `n` pixels, brought to at most `drift` from a length that is not negative, rounded; `None` where they are more than one pixel
    /// too far.
    #[inline(always)]
    fn near_size(&self, length: u64, n: i64, drift: i64) -> Option<i64>
        requires length { length < 2 ^ 40 }
        requires n { unsigned_abs n < 2 ^ 42 }
        requires least { pos 0 ≤ℤ drift }
        requires most { drift ≤ℤ pos 1000 }
        ensures value { IfSome result (λ pixels. pixels ≡ brought (pos (half_up self.now length)) drift n) }
        ensures bound { IfSome result (λ pixels. unsigned_abs pixels < 2 ^ 43) }
    {
        let most = n + drift;
        if most < 0 {
            return None;
        }
        let least = (n - drift).max(0);
        // both are below 2^60
        let (top, bottom) = (self.top as u64, self.bottom as u64);
        let above = u128::from(2 * length) * u128::from(top) + u128::from(bottom);
        let way = way_to(above, 2 * bottom, least.unsigned_abs(), most.unsigned_abs())?;
        Some(n + way)
    }

    /// `n` pixels, brought to at most `drift` from the length `x`, rounded to the nearest whole number. Where they are near enough, or
    /// one pixel too far, products tell it and nothing is divided, so it is faster than [`Conv::round`].
    #[inline(always)]
    pub fn near(&self, x: i64, n: i64, drift: i64) -> i64
        requires x { unsigned_abs x < 2 ^ 40 }
        requires n { unsigned_abs n < 2 ^ 42 }
        requires least { pos 0 ≤ℤ drift }
        requires most { drift ≤ℤ pos 1000 }
        ensures value { result ≡ brought (rounded self.now x) drift n }
        ensures fine { IsFine self.now }
    {
        let _ = &self.top;
        let size = x.unsigned_abs();
        if x < 0 {
            match self.near_size(size, -n, drift) {
                Some(pixels) => -pixels,
                None => self.far(x, n, drift),
            }
        } else {
            match self.near_size(size, n, drift) {
                Some(pixels) => pixels,
                None => self.far(x, n, drift),
            }
        }
    }

    /// The same by a division.
    #[inline(never)]
    fn far(&self, x: i64, n: i64, drift: i64) -> i64
        requires x { unsigned_abs x < 2 ^ 40 }
        requires least { pos 0 ≤ℤ drift }
        requires most { drift ≤ℤ pos 1000 }
        ensures { result ≡ brought (rounded self.now x) drift n }
    {
        let exact = self.round(x);
        n.clamp(exact - drift, exact + drift)
    }

    /// How far `n` pixels are beyond the length `x`, in parts of a pixel of which the fraction's bottom are one: sums of lengths and of
    /// pixels have the sum of their excesses. Where that is 2^60 or more in size, it isn't told, and the answer is 2^61.
    #[inline(always)]
    pub fn excess(&self, x: i64, n: i64) -> i64
        requires x { unsigned_abs x < 2 ^ 40 }
        requires n { unsigned_abs n < 2 ^ 42 }
        ensures { Tells result (excess self.now x n) }
    {
        let beyond = product(n, self.bottom) - product(x, self.top);
        if beyond.unsigned_abs() < 1 << 60 {
            beyond as i64
        } else {
            UNTOLD
        }
    }

    /// An excess in either direction with which pixels are at most `drift` from the rounded length.
    pub fn reach(&self, drift: i64) -> i64
        requires least { pos 0 ≤ℤ drift }
        requires most { drift ≤ℤ pos 1000 }
        ensures { IsReach self.now drift result }
    {
        let double = u128::from(2 * drift.unsigned_abs() + 1) * self.bottom;
        ((double - 1) / 2).min(MOST_REACH) as i64
    }

    /// The least whole number of pixels that is not below the length `x`.
    pub fn ceil(&self, x: i64) -> i64
        requires { unsigned_abs x < 2 ^ 40 }
        ensures value { result ≡ ceiling self.now x }
        ensures least { IsCeiling self.now x result }
        ensures fine { IsFine self.now }
        ensures bound { unsigned_abs result * (2 ^ 31 - 1) ≤ unsigned_abs x * 2 ^ 30 + (2 ^ 31 - 1) }
        ensures some { pos 0 <ℤ x → pos 1 ≤ℤ result }
    {
        let length = u128::from(x.unsigned_abs());
        if x < 0 {
            -(quotient(length * self.top, self.bottom) as i64)
        } else {
            quotient(length * self.top + self.bottom - 1, self.bottom) as i64
        }
    }
}
