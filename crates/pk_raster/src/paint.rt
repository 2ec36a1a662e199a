//! A run in a row.
ghost use Rattle.std.specs.Prelude.{◌≡◌, ℕ, List, ◌+◌, ◌-◌, ◌*◌, ◌<◌, ◌≤◌, ◌++◌, length, replicate};
ghost use Rattle.bit_lanes.specs.Bits.{bits};
ghost use Rattle.pk_raster.specs.Bits.{colour};

use crate::bits::blacken;

/// Lays pixels of one colour from `start` to `end`, behind the pixels of a row that is blank from `start` on.
pub fn paint(row: &mut [u8], black: bool, start: usize, end: usize)
    requires order { start ≤ end }
    requires inside { end ≤ 8 * length row.old }
    ensures { (part : List ℕ) → length part ≡ start → bits row.old ≡ part ++ replicate (8 * length row.old - start) 0 → bits row.new ≡ (part ++ replicate (end - start) (colour black)) ++ replicate (8 * length row.old - end) 0 }
{
    if black {
        blacken(row, start, end);
    }
}
