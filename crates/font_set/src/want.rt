//! What the fonts of a run are for.

/// Which files of its fonts a run needs.
#[derive(Clone, Copy, Debug, PartialEq, Eq, Drop)]
pub enum Want {
    /// Widths alone: each font is real, and only its TFM file is read.
    Widths,
    /// Widths and packets: a font is virtual where it has a VF file.
    Packets,
    /// Widths, packets, and the bitmaps of real fonts.
    Rasters,
}

/// What a font is.
#[derive(Clone, Copy, Debug, PartialEq, Eq, Drop)]
pub enum Kind {
    /// Its key is known, and its files aren't read.
    Known,
    Real,
    Virtual,
}
