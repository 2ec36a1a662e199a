//! What follows from the format for all files.
ghost use Rattle.pk_raster.specs.Laws.{OneFont, WholeRows};

/// Bytes are a PK file of one font at most. A caller cites what this ensures; the call does nothing.
pub fn one_font()
    ensures { OneFont }
{}

/// The rows of each bitmap have as many bytes as its sizes say, bits 0 behind their pixels, and no more than
/// 65,535; its offsets fit 32 bits.
pub fn whole_rows()
    ensures { WholeRows }
{}
