//! Widths at a size, to the last unit as TeX has them.
ghost use Rattle.std.specs.Prelude.{◌≡◌, ◌*◌, ◌/◌, ◌^◌, ◌<◌, ◌≤◌};
ghost use Rattle.dv_base.specs.Scale.{IsHalvings, halvings, scaled};
ghost use Rattle.dv_base.specs.ScaleLaws.{halvings-least};

/// The least size, in units, that is halved before it is multiplied.
const TOO_LARGE: u32 = 0x80_0000;

/// The size, halved until it is below 2^23, and how often it was halved.
fn halved(size: u32) -> (u32, u32)
    requires { size < 2 ^ 27 }
    ensures times { result.1 ≡ halvings size }
    ensures value { result.0 ≡ size / 2 ^ result.1 }
    ensures small { result.0 < 2 ^ 23 }
    ensures few { result.1 ≤ 4 }
{
    let mut reduced = size;
    let mut times = 0;
    while reduced >= TOO_LARGE {
        reduced /= 2;
        times += 1;
    }
    (reduced, times)
}

/// `size · bytes / (65536 · 2^bits)`, cut to a whole number, by products with one byte of `bytes` at a time.
fn fraction(size: u64, bytes: u64, bits: u32) -> u64
    requires size { size < 2 ^ 23 }
    requires bytes { bytes < 2 ^ 24 }
    requires bits { bits ≤ 4 }
    ensures value { result ≡ size * bytes / (65536 * 2 ^ bits) }
    ensures bound { result < 2 ^ 31 }
{
    let high = bytes / 0x1_0000;
    let middle = bytes / 0x100 % 0x100;
    let low = bytes % 0x100;
    ((low * size / 0x100 + middle * size) / 0x100 + high * size) >> bits
}

/// The width, in the units of the size `z`, of a character whose width is the fix_word `fix` (TFM format: in units of 2^-20 of
/// the size; TeX: The Program, section 572).
///
/// Sizes of 2^23 and more are halved first, so that no product needs more than 32 bits in TeX; what the halving loses is part of
/// the result: `scale(8388609, 1 << 20)` is 8388608.
pub fn scale(z: u32, fix: i32) -> i64
    requires positive { 0 < z }
    requires bound { z < 2 ^ 27 }
    ensures value { result ≡ scaled z fix }
    ensures least { IsHalvings z (halvings z) }
{
    let (size, times) = halved(z);
    let size = u64::from(size);
    let alpha = 16 * 2u64.pow(times);
    let first = i64::from(fix.div_euclid(0x100_0000));
    let others = fix.rem_euclid(0x100_0000) as u64;
    fraction(size, others, 4 - times) as i64 + first * (alpha * size) as i64
}
