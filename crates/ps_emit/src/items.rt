//! The pieces of a page's lines. Each function appends its piece to a line.
ghost use Rattle.std.specs.Prelude.{◌≡◌, ◌≤◌, ◌<◌, ◌+◌, ◌*◌, ◌++◌, ◌^◌, length, take, codes, decimal, pos, ◌-ℤ◌, if◌then◌else◌, unsigned_abs, None};
ghost use Rattle.ps_subset.specs.Fraction.{same_ℤ};
ghost use Rattle.ps_subset.specs.Prolog.{line};
ghost use Rattle.ps_subset.specs.Items.{font_line, move_line, row_delta, row_end, stretch_end};
ghost use Rattle.ps_subset.specs.Lines.{signed_field};
ghost use Rattle.ps_subset.specs.Strings.{escape, string_text};
ghost use Rattle.ps_emit.specs.Bounds.{IsNearPixel, IsNearNext};
ghost use Rattle.ps_emit.specs.Pages.{page_begin};

use crate::pen::Pen;
use dv_base::{FontId, Line};
use ps_subset::escape;

/// A block that the machine passes over is announced by this line.
pub fn announced(out: &mut Line, count: usize)
    requires { length out.old + 52 ≤ 1024 }
    ensures value { out.new ≡ out.old ++ line (codes "%TeXblock: " ++ decimal count) }
    ensures len { length out.new ≤ length out.old + 52 }
{
    out.text(b"%TeXblock: ");
    out.number(count);
    out.text(b"\n");
}

/// The comment of a page and the line that begins it, on a line that may hold anything before.
pub fn page(out: &mut Line, comments: bool, label: i32, number: u32)
    ensures { out.new ≡ page_begin comments label number }
{
    out.clear();
    if comments {
        out.text(b"%%Page: ");
        out.field(label);
        out.number(number);
        out.text(b"\n");
    }
    out.text(b"bop\n");
}

/// The line that moves to a pixel, where the place isn't there. Where the place is `lost` it names the pixel.
fn way(out: &mut Line, lost: bool, from: (i64, i64), to: (i64, i64))
    requires room { length out.old + 90 ≤ 1024 }
    requires from { (unsigned_abs from.0 < 2 ^ 33) × (unsigned_abs from.1 < 2 ^ 33) }
    requires to { IsNearPixel to }
    ensures value { out.new ≡ out.old ++ move_line (record { x = from.0; y = from.1; font = None; delta = pos 0; lost = lost }) to.0 to.1 }
    ensures len { length out.new ≤ length out.old + 90 }
{
    if lost {
        out.field(to.0);
        out.field(to.1);
        out.text(b"a\n");
    } else if from.1 == to.1 {
        if from.0 != to.0 {
            out.field(to.0 - from.0);
            out.text(b"w\n");
        }
    } else if from.0 == to.0 {
        out.field(to.1 - from.1);
        out.text(b"x\n");
    } else {
        out.field(to.0);
        out.field(to.1);
        out.text(b"a\n");
    }
}

/// The line that moves to a pixel from what the lines before have left.
pub fn move_to(out: &mut Line, pen: &Pen, to: (i64, i64))
    requires room { length out.old + 90 ≤ 1024 }
    requires to { IsNearPixel to }
    ensures value { out.new ≡ out.old ++ move_line pen.now to.0 to.1 }
    ensures len { length out.new ≤ length out.old + 90 }
{
    way(out, pen.lost, (pen.x, pen.y), to);
}

/// A rule of so many columns and rows at the place.
pub fn rule(out: &mut Line, columns: i64, rows: i64)
    requires { length out.old + 84 ≤ 1024 }
    ensures value { out.new ≡ out.old ++ (signed_field columns ++ (signed_field rows ++ line (codes "v"))) }
    ensures len { length out.new ≤ length out.old + 84 }
{
    out.field(columns);
    out.field(rows);
    out.text(b"v\n");
}

/// The line that sets a font, where it isn't the one that is set.
pub fn font(out: &mut Line, pen: &Pen, id: FontId)
    requires room { length out.old + 44 ≤ 1024 }
    ensures value { out.new ≡ out.old ++ font_line pen.now id }
    ensures len { length out.new ≤ length out.old + 44 }
{
    let is_set = match pen.font {
        Some(font) => font == id,
        None => false,
    };
    if !is_set {
        out.text(b"F");
        out.number(id.number());
        out.text(b" F\n");
    }
}

/// A code as a string has it.
fn code(out: &mut Line, code: u8)
    requires { length out.old + 4 ≤ 1024 }
    ensures value { out.new ≡ out.old ++ escape code }
    ensures len { length out.new ≤ length out.old + 4 }
{
    let mut spelled = [0; 4];
    let len = escape(code, &mut spelled);
    out.text(&spelled[..len]);
}

/// A string of at most 50 codes.
pub fn string(out: &mut Line, codes: &[u8])
    requires few { length codes.now ≤ 50 }
    requires room { length out.old + 202 ≤ 1024 }
    ensures value { out.new ≡ out.old ++ string_text codes.now }
    ensures len { length out.new ≤ length out.old + 202 }
{
    out.text(b"(");
    for c in codes {
        code(out, *c);
    }
    out.text(b")");
}

/// The end of a stretch's line, where the next item is so many pixels on in its row: a way of its own name, one near the kept way, or `b`.
fn row_way(out: &mut Line, delta: i64, dx: i64)
    requires room { length out.old + 43 ≤ 1024 }
    requires delta { unsigned_abs delta < 2 ^ 35 }
    requires way { unsigned_abs dx < 2 ^ 34 }
    ensures value { out.new ≡ out.old ++ row_end delta dx }
    ensures len { length out.new ≤ length out.old + 43 }
{
    match dx {
        0 => out.text(b"p\n"),
        -4 => out.text(b"l\n"),
        -3 => out.text(b"m\n"),
        -2 => out.text(b"n\n"),
        -1 => out.text(b"o\n"),
        1 => out.text(b"q\n"),
        2 => out.text(b"r\n"),
        3 => out.text(b"s\n"),
        4 => out.text(b"t\n"),
        _ => match dx - delta {
            -4 => out.text(b"c\n"),
            -3 => out.text(b"d\n"),
            -2 => out.text(b"e\n"),
            -1 => out.text(b"f\n"),
            0 => out.text(b"g\n"),
            1 => out.text(b"h\n"),
            2 => out.text(b"i\n"),
            3 => out.text(b"j\n"),
            4 => out.text(b"k\n"),
            _ => {
                out.field(dx);
                out.text(b"b\n");
            }
        },
    }
}

/// The way that is kept behind a way of so many pixels: that one, unless it has a name of its own.
fn kept_way(delta: i64, dx: i64) -> i64
    requires delta { unsigned_abs delta < 2 ^ 35 }
    requires way { unsigned_abs dx < 2 ^ 34 }
    ensures value { result ≡ row_delta delta dx }
    ensures bound { unsigned_abs result < 2 ^ 35 }
{
    match dx {
        0 | -4 | -3 | -2 | -1 | 1 | 2 | 3 | 4 => delta,
        _ => dx,
    }
}

/// The way that is kept behind a stretch, where (x, y) is the pixel behind it and `next` that of the next item.
pub fn delta_behind(delta: i64, x: i64, y: i64, next: (i64, i64)) -> i64
    requires delta { unsigned_abs delta < 2 ^ 35 }
    requires x { unsigned_abs x < 2 ^ 33 }
    requires next { IsNearPixel next }
    ensures value { result ≡ if same_ℤ y next.1 then row_delta delta (next.0 -ℤ x) else delta }
    ensures bound { unsigned_abs result < 2 ^ 35 }
{
    if y == next.1 {
        kept_way(delta, next.0 - x)
    } else {
        delta
    }
}

/// The end of a stretch's line: (x, y) is the pixel behind the stretch, and `next` that of the next item.
pub fn end(out: &mut Line, delta: i64, x: i64, y: i64, next: Option<(i64, i64)>)
    requires room { length out.old + 84 ≤ 1024 }
    requires delta { unsigned_abs delta < 2 ^ 35 }
    requires x { unsigned_abs x < 2 ^ 33 }
    requires next { IsNearNext next }
    ensures value { out.new ≡ out.old ++ stretch_end delta x y next }
    ensures len { length out.new ≤ length out.old + 84 }
{
    match next {
        None => out.text(b"p\n"),
        Some(to) => {
            if y == to.1 {
                row_way(out, delta, to.0 - x);
            } else {
                out.field(to.0);
                out.field(to.1);
                out.text(b"y\n");
            }
        }
    }
}
