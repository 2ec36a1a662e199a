//! Runs, laid on a board.
ghost use Rattle.std.specs.Prelude.{◌≡◌, ℕ, List, ◌+◌, ◌-◌, ◌*◌, ◌^◌, ◌<◌, ◌≤◌, ◌++◌, length, replicate, OnOk, IfErr};
ghost use Rattle.std.specs.List.{concat};
ghost use Rattle.bit_lanes.specs.Bits.{bits};
ghost use Rattle.pk_raster.specs.Bits.{colour};
ghost use Rattle.pk_raster.specs.Filling.{Shows, Ran, PastIs, Ended};
ghost use Rattle.pk_raster.specs.declared.board.RasterFault.TheVariants.{OutOfMemory};

use crate::board::{Board, RasterFault, add_row};
use crate::paint::paint;

/// Lays pixels up to a place in the row.
fn fill_to(board: &mut Board, black: bool, end: usize)
    requires order { board.old.filled ≤ end }
    requires inside { end ≤ 8 * length board.old.row.items }
    ensures row { (part : List ℕ) → length part ≡ board.old.filled → bits board.old.row.items ≡ part ++ replicate (8 * length board.old.row.items - board.old.filled) 0 → bits board.new.row.items ≡ (part ++ replicate (end - board.old.filled) (colour black)) ++ replicate (8 * length board.old.row.items - end) 0 }
    ensures length { length board.new.row.items ≡ length board.old.row.items }
    ensures same { board.new ≡ record board.old { row = board.new.row; filled = end } }
{
    paint(&mut board.row, black, board.filled, end);
    board.filled = end;
}

/// Ends the row in work, which stands once and as often again as its repeat count says.
fn end_row(board: &mut Board) -> Result<(), RasterFault>
    requires few { board.old.repeat < board.old.left }
    ensures ok { OnOk result (Ended board.old board.new) }
    ensures err { IfErr result (λ e. e ≡ OutOfMemory) }
{
    let times = 1 + board.repeat;
    add_row(&mut board.rows, &mut board.row, times)?;
    board.left -= times;
    board.repeat = 0;
    board.filled = 0;
    Ok(())
}

/// Lays a run, over as many rows as it takes.
pub fn lay(board: &mut Board, black: bool, count: usize) -> Result<(), RasterFault>
    requires few { length board.old.row.items < 2 ^ 58 }
    requires below { board.old.filled < board.old.width }
    requires fits { board.old.width ≤ 8 * length board.old.row.items }
    requires some { board.old.repeat < board.old.left }
    ensures closed { OnOk result (board.new.left ≡ 0 → (board.new.filled ≡ 0) × (board.new.repeat ≡ 0)) }
    ensures room { OnOk result (0 < board.new.left → board.new.repeat < board.new.left) }
    ensures size { OnOk result (length board.new.row.items ≡ length board.old.row.items) }
    ensures ok { (part : List ℕ) (made : List (List ℕ)) → Shows board.old part made → OnOk result (Ran (colour black) count board.old part made board.new) }
    ensures err { (part : List ℕ) (made : List (List ℕ)) → Shows board.old part made → IfErr result (λ e. PastIs (colour black) count board.old part e) }
{
    let mut rest = count;
    'rows: while rest >= board.width - board.filled {
        let end = board.width;
        let laid = end - board.filled;
        if board.left <= board.repeat {
            return Err(RasterFault::RunsPast);
        }
        fill_to(board, black, end);
        end_row(board)?;
        rest -= laid;
    }
    if rest == 0 {
        return Ok(());
    }
    if board.left <= board.repeat {
        return Err(RasterFault::RunsPast);
    }
    let end = board.filled + rest;
    fill_to(board, black, end);
    Ok(())
}
