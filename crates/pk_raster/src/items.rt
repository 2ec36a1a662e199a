//! Runs and repeat counts of a raster.
ghost use Rattle.std.specs.Prelude.{◌≡◌, ℕ, ◌+◌, ◌-◌, ◌*◌, ◌^◌, ◌<◌, ◌≤◌, length, drop, IfOk, IfErr};
ghost use Rattle.pk_raster.specs.Numbers.{nybbles};
ghost use Rattle.pk_raster.specs.Reading.{Takes, Misses};

use crate::board::RasterFault;
use crate::packed::{number, nybble};

/// A run or a repeat count, as it is read: `MANY` stands for itself and for all greater counts.
#[derive(Clone, Copy)]
pub enum Piece {
    Run(u64),
    Repeat(u64),
}

/// The run or repeat count at a place, and the place behind it. Places count nybbles.
pub fn item(raster: &[u8], dyn_f: u8, at: usize) -> Result<(Piece, usize), RasterFault>
    requires few { length raster.now < 2 ^ 60 }
    requires inside { at ≤ 2 * length raster.now }
    requires flag { dyn_f ≤ 13 }
    ensures found { IfOk result (λ r. Takes dyn_f (nybbles raster.now) at r.0 r.1) }
    ensures further { IfOk result (λ r. at < r.1) }
    ensures fault { IfErr result (λ e. Misses dyn_f (drop at (nybbles raster.now)) e) }
{
    if at == 2 * raster.len() {
        return Err(RasterFault::RunsShort);
    }
    let first = nybble(raster, at);
    if first == 15 {
        return Ok((Piece::Repeat(1), at + 1));
    }
    if first < 14 {
        return match number(raster, dyn_f, first, at + 1) {
            Some((count, next)) => Ok((Piece::Run(count), next)),
            None => Err(RasterFault::RunsShort),
        };
    }
    if at + 1 == 2 * raster.len() {
        return Err(RasterFault::RunsShort);
    }
    let second = nybble(raster, at + 1);
    if second > 13 {
        return Err(RasterFault::RepeatTwice);
    }
    match number(raster, dyn_f, second, at + 2) {
        Some((count, next)) => Ok((Piece::Repeat(count), next)),
        None => Err(RasterFault::RunsShort),
    }
}
