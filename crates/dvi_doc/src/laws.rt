//! What follows from the grammar for all bytes.
ghost use Rattle.dvi_doc.specs.Laws.{OneDocument};

use dvi_ops::one_spelling;

/// Bytes are at most one document. A caller cites what this ensures; the call does nothing.
pub fn one_document()
    ensures { OneDocument }
{
    one_spelling();
}
