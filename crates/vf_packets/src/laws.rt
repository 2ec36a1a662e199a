//! What follows from the format for all bytes.
ghost use Rattle.vf_packets.specs.Laws.{OneFont};

use dvi_ops::one_spelling;

/// Bytes are at most one VF file's. A caller cites what this ensures; the call does nothing.
pub fn one_font()
    ensures { OneFont }
{
    one_spelling();
}
