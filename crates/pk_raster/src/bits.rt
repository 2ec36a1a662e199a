//! Bits of bytes, the highest of a byte first.
ghost use Rattle.std.specs.Prelude.{◌≡◌, ℕ, ◌+◌, ◌-◌, ◌*◌, ◌<◌, ◌≤◌, length, ◌++◌, take, drop, replicate};
ghost use Rattle.std.specs.Int.{bit_at};
ghost use Rattle.bit_lanes.specs.Bits.{bits};

/// The byte with the bits from `from` to `end` set, bit 0 being the highest.
pub fn with_ones(byte: u8, from: usize, end: usize) -> u8
    requires order { from < end }
    requires inside { end ≤ 8 }
    ensures ones { (j : ℕ) → from ≤ j → j < end → bit_at result (7 - j) ≡ 1 }
    ensures before { (j : ℕ) → j < from → bit_at result (7 - j) ≡ bit_at byte (7 - j) }
    ensures behind { (j : ℕ) → end ≤ j → j < 8 → bit_at result (7 - j) ≡ bit_at byte (7 - j) }
{
    byte | ((u8::MAX >> from) & (u8::MAX << (8 - end)))
}

/// Sets the bits from `start` to `end`.
pub fn blacken(row: &mut [u8], start: usize, end: usize)
    requires order { start ≤ end }
    requires inside { end ≤ 8 * length row.old }
    ensures { bits row.new ≡ take start (bits row.old) ++ (replicate (end - start) 1 ++ drop end (bits row.old)) }
{
    let mut at = start;
    while at < end {
        let from = at % 8;
        let count = (8 - from).min(end - at);
        row[at / 8] = with_ones(row[at / 8], from, from + count);
        at += count;
    }
}
