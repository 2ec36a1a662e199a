//! The rows of a raster of runs.
ghost use Rattle.std.specs.Prelude.{◌≡◌, ◌≢◌, ℕ, List, ◌+◌, ◌-◌, ◌*◌, ◌^◌, ◌<◌, ◌≤◌, ◌++◌, length, replicate, OnOk, IfErr, IfOk};
ghost use Rattle.std.specs.List.{flat_map};
ghost use Rattle.bit_lanes.specs.Bits.{bits};
ghost use Rattle.pk_raster.specs.Bits.{colour, padded};
ghost use Rattle.pk_raster.specs.Numbers.{nybbles};
ghost use Rattle.pk_raster.specs.Raster.{IsRaster, FaultIs};
ghost use Rattle.pk_raster.specs.Filling.{IsFresh};
ghost use Rattle.pk_raster.specs.Progress.{Reached, Refuses};
ghost use Rattle.pk_raster.specs.declared.board.RasterFault.TheVariants.{OutOfMemory};

use crate::board::{Board, RasterFault};
use crate::items::{Piece, item};
use crate::lay::lay;
use crate::packed::MANY;

/// Takes one run or repeat count: the place behind it, and whether the next run is black.
fn step(
    raster: &[u8],
    dyn_f: u8,
    at: usize,
    black: bool,
    board: &mut Board,
) -> Result<(usize, bool), RasterFault>
    requires few { length raster.now < 2 ^ 60 }
    requires inside { at ≤ 2 * length raster.now }
    requires flag { dyn_f ≤ 13 }
    requires small { length board.old.row.items < 2 ^ 58 }
    requires below { board.old.filled < board.old.width }
    requires fits { board.old.width ≤ 8 * length board.old.row.items }
    requires some { board.old.repeat < board.old.left }
    ensures further { IfOk result (λ r. at < r.0) }
    ensures size { OnOk result (length board.new.row.items ≡ length board.old.row.items) }
    ensures ok { (c0 w h : ℕ) → h * w < 2 ^ 40 → Reached dyn_f c0 w h (nybbles raster.now) at (colour black) board.old → IfOk result (λ r. Reached dyn_f c0 w h (nybbles raster.now) r.0 (colour r.1) board.new) }
    ensures err { (c0 w h : ℕ) → h * w < 2 ^ 40 → Reached dyn_f c0 w h (nybbles raster.now) at (colour black) board.old → IfErr result (Refuses dyn_f c0 w h (nybbles raster.now)) }
{
    let (piece, next) = item(raster, dyn_f, at)?;
    match piece {
        Piece::Repeat(count) => {
            if board.repeat > 0 {
                return Err(RasterFault::RepeatTwice);
            }
            if count >= board.left as u64 {
                return Err(RasterFault::RunsPast);
            }
            board.repeat = count as usize;
            Ok((next, black))
        }
        Piece::Run(count) => {
            if count >= MANY {
                return Err(RasterFault::RunsPast);
            }
            lay(board, black, count as usize)?;
            Ok((next, !black))
        }
    }
}

/// The rows of a raster of runs, on a board that is fresh.
pub fn decode(raster: &[u8], dyn_f: u8, black: bool, board: &mut Board) -> Result<(), RasterFault>
    requires few { length raster.now < 2 ^ 60 }
    requires flag { dyn_f ≤ 13 }
    requires small { length board.old.row.items < 2 ^ 58 }
    requires fresh { IsFresh board.old }
    ensures found { OnOk result ((rows : List (List ℕ)) × IsRaster dyn_f (colour black) board.old.width board.old.left (nybbles raster.now) rows × (bits board.new.rows.items ≡ flat_map (padded (8 * length board.old.row.items)) rows)) }
    ensures none { IfErr result (λ e. e ≢ OutOfMemory → (rows : List (List ℕ)) → IsRaster dyn_f (colour black) board.old.width board.old.left (nybbles raster.now) rows → ⊥) }
    ensures fault { IfErr result (FaultIs dyn_f board.old.width board.old.left (nybbles raster.now)) }
{
    let mut at = 0;
    let mut black = black;
    'items: while board.left > 0 {
        let (next, colour) = step(raster, dyn_f, at, black, board)?;
        at = next;
        black = colour;
    }
    if 2 * raster.len() - at > 1 {
        return Err(RasterFault::BadLength);
    }
    Ok(())
}
