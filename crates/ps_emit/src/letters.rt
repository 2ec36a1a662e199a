//! The glyphs of a font.
ghost use Rattle.std.specs.Prelude.{◌≡◌, ◌≤◌, ◌<◌, ◌+◌, ◌++◌, ◌^◌, length, unsigned_abs, ℤ};
ghost use Rattle.font_set.specs.Views.{bitmap_of};
ghost use Rattle.ps_subset.specs.MaskEffects.{row_marks, rows_mark};
ghost use Rattle.ps_subset.specs.Fonts.{printed};
ghost use Rattle.ps_subset.specs.FontText.{hex_text};
ghost use Rattle.ps_emit.specs.Letters.{glyph_of};
ghost use Rattle.ps_emit.specs.LetterLines.{behind_rows, letter_head, letter_tail};

use bit_lanes::is_blank;
use dv_base::Line;
use pk_raster::Glyph;

/// What stands behind a glyph's rows has at most this many bytes.
pub const TAIL: usize = 260;

/// Whether the first byte, where there is one, has a black pixel among its first `columns`.
fn front_marks(columns: usize, bytes: &[u8]) -> bool
    requires { columns ≤ 8 }
    ensures { result ≡ row_marks columns bytes.now }
{
    if bytes.is_empty() {
        return false;
    }
    u32::from(bytes[0]) >> (8 - columns) != 0
}

/// Whether a row has a black pixel among its first `columns`.
fn row_marks(columns: usize, row: &[u8]) -> bool
    ensures { result ≡ row_marks columns row.now }
{
    let (whole, rest) = row.split_at(row.len().min(columns / 8));
    !is_blank(whole) || front_marks(columns % 8, rest)
}

/// Whether one of so many rows of `columns` pixels has a black one.
fn rows_mark(columns: u32, rows: u32, bytes: &[u8]) -> bool
    ensures { result ≡ rows_mark columns rows bytes.now }
{
    if columns == 0 {
        return false;
    }
    let columns = columns as usize;
    let wide = (columns + 7) / 8;
    let mut rest = bytes;
    let mut left = rows;
    while left > 0 && !rest.is_empty() {
        let (row, behind) = rest.split_at(rest.len().min(wide));
        if row_marks(columns, row) {
            return true;
        }
        rest = behind;
        left -= 1;
    }
    false
}

/// The glyph as it is printed: a blank one has a single white pixel, which is the reference pixel.
pub fn printed<'g>(glyph: &Glyph<'g>) -> Glyph<'g>
    ensures { (width : ℤ) → glyph_of (bitmap_of result) width ≡ printed (glyph_of (bitmap_of glyph.now) width) }
{
    if rows_mark(glyph.w, glyph.h, glyph.rows) {
        return *glyph;
    }
    Glyph {
        w: 1,
        h: 1,
        hoff: 0,
        voff: 0,
        rows: b"\0",
    }
}

/// What stands before the rows of a glyph, on a line that may hold anything before.
pub fn head(line: &mut Line, code: u8, glyph: &Glyph<'_>)
    ensures value { line.new ≡ letter_head code (bitmap_of glyph.now) }
    ensures len { length line.new ≤ 260 }
{
    line.clear();
    line.number(code);
    line.text(b"[");
    line.field(glyph.w);
    line.field(glyph.h);
    line.text(b"true[1 0 0 1 ");
    line.field(glyph.hoff);
    line.number(glyph.voff);
    line.text(b"]{<");
}

/// What stands behind the rows of a glyph with these sizes in pixels.
fn behind(line: &mut Line, pixels: i64, w: i64, h: i64, hoff: i64, voff: i64)
    requires room { length line.old + 260 ≤ 1024 }
    requires sizes { (unsigned_abs w < 2 ^ 32) × (unsigned_abs h < 2 ^ 32) }
    requires offsets { (unsigned_abs hoff < 2 ^ 32) × (unsigned_abs voff < 2 ^ 32) }
    ensures { line.new ≡ line.old ++ behind_rows pixels w h hoff voff }
{
    line.text(b">}");
    line.field(pixels);
    line.text(b"0 ");
    line.field(-hoff);
    line.field(-voff);
    line.field(w - hoff);
    line.number(h - voff);
    line.text(b"]D\n");
}

/// What stands behind the rows.
pub fn tail(line: &mut Line, glyph: &Glyph<'_>, pixels: i64)
    requires { length line.old + 260 ≤ 1024 }
    ensures { line.new ≡ line.old ++ letter_tail (bitmap_of glyph.now) pixels }
{
    behind(
        line,
        pixels,
        i64::from(glyph.w),
        i64::from(glyph.h),
        i64::from(glyph.hoff),
        i64::from(glyph.voff),
    );
}

/// At most 32 bytes as hexadecimal digits.
pub fn digits(line: &mut Line, bytes: &[u8])
    requires few { length bytes.now ≤ 32 }
    requires room { length line.old + 64 ≤ 1024 }
    ensures value { line.new ≡ line.old ++ hex_text 32 bytes.now }
    ensures len { length line.new ≤ length line.old + 64 }
{
    let mut digits = [0; 64];
    let text = &mut digits[..2 * bytes.len()];
    match hex::encode_to_slice(bytes, text) {
        Ok(()) => line.text(text),
        Err(_) => unreachable!(),
    }
}
