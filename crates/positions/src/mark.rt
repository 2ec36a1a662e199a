//! What a page puts on the paper.
use dv_base::FontId;

/// A character of a real font: the pixel of its reference point, its place in units, and its width in both.
#[derive(Clone, Copy, Debug, PartialEq, Eq, Drop)]
pub struct GlyphMark {
    pub font: FontId,
    pub code: u8,
    /// Pixels right of the DVI origin.
    pub x: i64,
    /// Pixels below the DVI origin.
    pub y: i64,
    /// Units right of the DVI origin.
    pub h: i64,
    /// Units below the DVI origin.
    pub v: i64,
    /// The width in units.
    pub width: i64,
    /// The width in pixels.
    pub pixels: i64,
}

/// A rule of `w` columns and `rows` rows of pixels, whose lower left pixel is (x, y).
#[derive(Clone, Copy, Debug, PartialEq, Eq, Drop)]
pub struct RuleMark {
    pub x: i64,
    pub y: i64,
    pub w: i64,
    pub rows: i64,
    /// Its place in units.
    pub h: i64,
    pub v: i64,
    /// The height in units.
    pub a: i64,
    /// The width in units.
    pub b: i64,
}

/// A special and where it stands, in pixels and in units.
#[derive(Clone, Copy, Debug, PartialEq, Eq, Drop)]
pub struct SpecialMark<'a> {
    pub bytes: &'a [u8],
    pub x: i64,
    pub y: i64,
    pub h: i64,
    pub v: i64,
}
