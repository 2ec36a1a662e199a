//! Eight bits that lie across two bytes.
ghost use Rattle.std.specs.Prelude.{◌≡◌, ℕ, ◌+◌, ◌-◌, ◌*◌, ◌<◌, length, [], ◌∷◌};
ghost use Rattle.std.specs.Int.{bit_at};
ghost use Rattle.bit_lanes.specs.Bits.{bit};

/// The eight bits of two bytes from the bit `shift` on.
pub fn window(high: u8, low: u8, shift: u8) -> u8
    requires { shift < 8 }
    ensures { (j : ℕ) → j < 8 → bit_at result (7 - j) ≡ bit (high ∷ low ∷ []) (shift + j) }
{
    (high << shift) | (low >> 1 >> (7 - shift))
}

/// The eight bits that lie `shift` bits behind the beginning of a byte. Past the end of the bytes they are 0.
pub fn window_at(from: &[u8], at: usize, shift: u8) -> u8
    requires inside { at < length from.now }
    requires shift { shift < 8 }
    ensures { (j : ℕ) → j < 8 → bit_at result (7 - j) ≡ bit from.now (8 * at + shift + j) }
{
    let low = if at + 1 < from.len() { from[at + 1] } else { 0 };
    window(from[at], low, shift)
}
