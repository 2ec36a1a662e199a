//! The bitmap that a character's packet draws.
ghost use Rattle.std.specs.Prelude.{◌≡◌, ◌≢◌, ◌≤◌, ◌<◌, ◌+◌, ◌*◌, ◌^◌, ℕ, List, length, unsigned_abs, IfOk, IfErr, ◌/◌};
ghost use Rattle.bit_lanes.specs.Bits.{bits};
ghost use Rattle.pk_raster.specs.Numbers.{nybbles};
ghost use Rattle.pk_raster.specs.Raster.{IsPlain, IsRaster, FaultIs, PlainFaultIs};
ghost use Rattle.pk_raster.specs.Glyph.{size_bytes, first_size, sizes_len, width, height, right_offset, down_offset, bitmap_bytes, stride, dyn_f, first_colour, Draws, Pads};
ghost use Rattle.pk_raster.specs.GlyphFaults.{RowsFaultIs};
ghost use Rattle.pk_raster.specs.declared.board.RasterFault.TheVariants.{OutOfMemory};

use crate::board::{Board, RasterFault};
use crate::decode::decode;
use crate::part::by_form;
use crate::plain::plain;
use dv_base::{signed, unsigned};
use std::alloc::Global;

/// The sizes of a glyph in pixels. `hoff` and `voff` lead from the upper left pixel to the reference pixel.
#[derive(Clone, Copy)]
pub struct Sizes {
    pub w: u32,
    pub h: u32,
    pub hoff: i32,
    pub voff: i32,
}

/// How many bytes stand before the raster.
pub fn sizes_len(flag: u8) -> usize
    ensures value { result ≡ sizes_len flag }
    ensures few { result ≤ 28 }
{
    by_form(flag, 8, 13, 28)
}

/// How many bytes a size has.
fn size_bytes(flag: u8) -> usize
    ensures value { result ≡ size_bytes flag }
    ensures some { 1 ≤ result }
    ensures few { result ≤ 4 }
{
    by_form(flag, 1, 2, 4)
}

/// The sizes, which stand behind the width and the escapements.
#[tactic(auto, unfolding(crate::specs::Glyph::width, crate::specs::Glyph::height, crate::specs::Glyph::right_offset, crate::specs::Glyph::down_offset))]
pub fn read_sizes(flag: u8, content: &[u8]) -> Sizes
    requires { sizes_len flag ≤ length content.now }
    ensures w { result.w ≡ width flag content.now }
    ensures h { result.h ≡ height flag content.now }
    ensures hoff { result.hoff ≡ right_offset flag content.now }
    ensures voff { result.voff ≡ down_offset flag content.now }
    ensures right { unsigned_abs result.hoff ≤ 2 ^ 31 }
    ensures down { unsigned_abs result.voff ≤ 2 ^ 31 }
{
    let first = by_form(flag, 4, 5, 12);
    let n = size_bytes(flag);
    Sizes {
        w: unsigned(content, first, n),
        h: unsigned(content, first + n, n),
        hoff: signed(content, first + 2 * n, n),
        voff: signed(content, first + 3 * n, n),
    }
}

/// How many bytes a bitmap has.
pub fn bitmap_bytes(sizes: &Sizes) -> u64
    ensures { result ≡ bitmap_bytes sizes.now.w sizes.now.h }
{
    sizes.h as u64 * ((sizes.w as u64 + 7) / 8)
}

/// The rows of a raster of pixels.
fn plain_rows(alloc: Global, w: usize, h: usize, raster: &[u8]) -> Result<Vec<u8>, RasterFault>
    requires few { length raster.now < 2 ^ 58 }
    requires small { bitmap_bytes w h ≤ 65535 }
    requires wide { 0 < w }
    requires high { 0 < h }
    ensures found { IfOk result (λ v. (rows : List (List ℕ)) × IsPlain w h (bits raster.now) rows × Pads w rows v.items) }
    ensures none { IfErr result (λ e. e ≢ OutOfMemory → (rows : List (List ℕ)) → IsPlain w h (bits raster.now) rows → ⊥) }
    ensures fault { IfErr result (PlainFaultIs w h (bits raster.now)) }
{
    let mut row = vec![in alloc; 0u8; (w + 7) / 8]?;
    let mut rows = Vec::new(alloc);
    plain(raster, w, h, &mut row, &mut rows)?;
    Ok(rows)
}

/// The rows of a raster of runs.
fn run_rows(
    alloc: Global,
    flag: u8,
    w: usize,
    h: usize,
    raster: &[u8],
) -> Result<Vec<u8>, RasterFault>
    requires flag { dyn_f flag ≤ 13 }
    requires few { length raster.now < 2 ^ 58 }
    requires small { bitmap_bytes w h ≤ 65535 }
    requires wide { 0 < w }
    requires high { 0 < h }
    ensures found { IfOk result (λ v. (rows : List (List ℕ)) × IsRaster (dyn_f flag) (first_colour flag) w h (nybbles raster.now) rows × Pads w rows v.items) }
    ensures none { IfErr result (λ e. e ≢ OutOfMemory → (rows : List (List ℕ)) → IsRaster (dyn_f flag) (first_colour flag) w h (nybbles raster.now) rows → ⊥) }
    ensures fault { IfErr result (FaultIs (dyn_f flag) w h (nybbles raster.now)) }
{
    let mut board = Board {
        width: w,
        filled: 0,
        repeat: 0,
        left: h,
        row: vec![in alloc; 0u8; (w + 7) / 8]?,
        rows: Vec::new(alloc),
    };
    decode(raster, flag / 16, flag / 8 % 2 == 1, &mut board)?;
    let Board { rows, .. } = board;
    Ok(rows)
}

/// The rows that a raster draws, each padded to whole bytes.
pub fn draw(alloc: Global, flag: u8, sizes: &Sizes, raster: &[u8]) -> Result<Vec<u8>, RasterFault>
    requires flag { flag < 240 }
    requires few { length raster.now < 2 ^ 58 }
    requires small { bitmap_bytes sizes.now.w sizes.now.h ≤ 65535 }
    ensures found { IfOk result (λ v. (rows : List (List ℕ)) × Draws flag sizes.now.w sizes.now.h raster.now rows × Pads sizes.now.w rows v.items) }
    ensures none { IfErr result (λ e. e ≢ OutOfMemory → (rows : List (List ℕ)) → Draws flag sizes.now.w sizes.now.h raster.now rows → ⊥) }
    ensures fault { IfErr result (RowsFaultIs flag sizes.now.w sizes.now.h raster.now) }
{
    if sizes.w == 0 || sizes.h == 0 {
        return if raster.is_empty() {
            Ok(Vec::new(alloc))
        } else {
            Err(RasterFault::BadLength)
        };
    }
    if flag / 16 == 14 {
        plain_rows(alloc, sizes.w as usize, sizes.h as usize, raster)
    } else {
        run_rows(alloc, flag, sizes.w as usize, sizes.h as usize, raster)
    }
}
