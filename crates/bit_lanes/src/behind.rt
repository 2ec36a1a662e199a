//! What stands behind a row.
ghost use Rattle.std.specs.Prelude.{◌≡◌, ℕ, ◌+◌, ◌-◌, ◌*◌, ◌/◌, ◌<◌, ◌≤◌, ◌++◌, length, take, replicate};
ghost use Rattle.std.specs.Int.{bit_at};
ghost use Rattle.bit_lanes.specs.Bits.{bit};

/// The byte with its first `count` bits, and 0 behind them.
fn front_bits(byte: u8, count: usize) -> u8
    requires some { 0 < count }
    requires few { count ≤ 8 }
    ensures front { (j : ℕ) → j < count → bit_at result (7 - j) ≡ bit_at byte (7 - j) }
    ensures behind { (j : ℕ) → count ≤ j → j < 8 → bit_at result (7 - j) ≡ 0 }
{
    byte & (u8::MAX << (8 - count))
}

/// Clears the bits from the place `width` on up to the next byte's beginning.
fn clear_in_byte(to: &mut [u8], width: usize)
    requires { width ≤ 8 * length to.old }
    ensures front { (i : ℕ) → i < width → bit to.new i ≡ bit to.old i }
    ensures behind { (i : ℕ) → width ≤ i → i < 8 * ((width + 7) / 8) → bit to.new i ≡ 0 }
    ensures len { length to.new ≡ length to.old }
{
    if width % 8 > 0 {
        let whole = width / 8;
        to[whole] = front_bits(to[whole], width % 8);
    }
}

/// Clears the bytes from the place `start` on.
fn clear_bytes(to: &mut [u8], start: usize)
    requires { start ≤ length to.old }
    ensures { to.new ≡ take start to.old ++ replicate (length to.old - start) 0 }
{
    to[start..].fill(0);
}

/// Clears the bits from the place `width` on.
pub fn clear_behind(to: &mut [u8], width: usize)
    requires { width ≤ 8 * length to.old }
    ensures front { (i : ℕ) → i < width → bit to.new i ≡ bit to.old i }
    ensures behind { (i : ℕ) → width ≤ i → bit to.new i ≡ 0 }
    ensures len { length to.new ≡ length to.old }
{
    clear_in_byte(to, width);
    clear_bytes(to, width.div_ceil(8));
}
