//! Rasters without runs: the pixels of the rows, one after another.
ghost use Rattle.std.specs.Prelude.{◌≡◌, ℕ, List, ◌*◌, ◌^◌, ◌<◌, ◌≤◌, length, OnOk, IfErr, ◌≢◌, []};
ghost use Rattle.std.specs.List.{flat_map};
ghost use Rattle.bit_lanes.specs.Bits.{bits};
ghost use Rattle.pk_raster.specs.Bits.{padded};
ghost use Rattle.pk_raster.specs.Raster.{IsPlain, PlainFaultIs};
ghost use Rattle.pk_raster.specs.declared.board.RasterFault.TheVariants.{OutOfMemory};

use crate::board::RasterFault;
use bit_lanes::align_row;

/// The rows of a raster without runs, each padded to the bytes of `row`.
pub fn plain(
    raster: &[u8],
    width: usize,
    height: usize,
    row: &mut [u8],
    rows: &mut Vec<u8>,
) -> Result<(), RasterFault>
    requires few { length raster.now < 2 ^ 58 }
    requires wide { width ≤ 8 * length row.old }
    requires limit { height * width < 2 ^ 40 }
    requires empty { rows.old.items ≡ [] }
    ensures found { OnOk result ((made : List (List ℕ)) × IsPlain width height (bits raster.now) made × (bits rows.new.items ≡ flat_map (padded (8 * length row.old)) made)) }
    ensures none { IfErr result (λ e. e ≢ OutOfMemory → (made : List (List ℕ)) → IsPlain width height (bits raster.now) made → ⊥) }
    ensures fault { IfErr result (PlainFaultIs width height (bits raster.now)) }
{
    let need = height * width;
    if 8 * raster.len() < need {
        return Err(RasterFault::RunsShort);
    }
    if 8 * raster.len() - need >= 8 {
        return Err(RasterFault::BadLength);
    }
    let mut start = 0;
    for index in 0..height {
        align_row(raster, start, width, row);
        rows.extend_from_slice(row)?;
        start += width;
    }
    Ok(())
}
