//! The rows of a glyph, as they are filled.
ghost use Rattle.std.specs.Prelude.{◌≡◌, ℕ, List, ◌+◌, ◌-◌, ◌*◌, ◌^◌, ◌<◌, ◌≤◌, ◌++◌, length, replicate, OnOk, IfErr};
ghost use Rattle.std.specs.List.{concat};
ghost use Rattle.pk_raster.specs.declared.board.RasterFault.TheVariants.{OutOfMemory};

use std::alloc::AllocError;

/// The rows of a glyph that are done, and the row in work.
#[derive(Drop)]
pub struct Board {
    /// The pixels of a row.
    pub width: usize,

    /// How many pixels of the row in work are laid.
    pub filled: usize,

    /// How often the row in work stands again.
    pub repeat: usize,

    /// How many rows aren't done, the one in work included.
    pub left: usize,

    /// The row in work, blank behind its pixels.
    pub row: Vec<u8>,

    /// The rows that are done.
    pub rows: Vec<u8>,
}

/// Adds the row `times` times, and clears it.
pub fn add_row(rows: &mut Vec<u8>, row: &mut [u8], times: usize) -> Result<(), AllocError>
    ensures added { OnOk result (rows.new.items ≡ rows.old.items ++ concat (replicate times row.old)) }
    ensures cleared { OnOk result (row.new ≡ replicate (length row.old) 0) }
{
    for _time in 0..times {
        rows.extend_from_slice(row)?;
    }
    row.fill(0);
    Ok(())
}

/// Why a raster is refused.
#[derive(Drop)]
pub enum RasterFault {
    RunsShort,
    RunsPast,
    RepeatTwice,
    BadLength,
    OutOfMemory,
}

impl From<AllocError> for RasterFault {
    ghost from_gives = { λ _ e. e ≡ OutOfMemory };

    fn from(_error: AllocError) -> Self {
        RasterFault::OutOfMemory
    }
}
