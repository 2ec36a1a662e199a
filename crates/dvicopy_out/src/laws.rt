//! What follows from the definitions alone.
ghost use Rattle.dvicopy_out.specs.Cuts.{CutsHoldFirstPages};
ghost use Rattle.dvicopy_out.specs.Keyed.{CopyKeepsMarks};
ghost use Rattle.dvicopy_out.specs.RealFonts.{CopyDefinesReal};
ghost use Rattle.dvicopy_out.specs.Units.{CopyKeepsPages};
ghost use Rattle.dvicopy_out.specs.Writable.{CopyIsDocument};

use dvi_ops::{one_spelling, shortest_spelling};
use vf_expand::exact_pages;

/// A copy whose numbers have 32 bits and whose pages have ten counts is a document: that of its preamble, its pages with their counts
/// and commands, its definitions and its postamble. A caller cites what this ensures; the call does nothing.
pub fn copies_are_documents()
    ensures { CopyIsDocument }
{
    shortest_spelling();
}

/// The pages of that document have the counts and, in units and by the keys of their fonts, exactly the marks that were copied, at any
/// resolutions and any drift limit, in any set of fonts in which the copied ones are real and have the same widths. A caller cites what
/// this ensures; the call does nothing.
pub fn copies_keep_pages()
    ensures { CopyKeepsPages }
{}

/// Each font that the document defines is a font of the set that is real and loaded. A caller cites what this ensures; the call does
/// nothing.
pub fn copies_define_real_fonts()
    ensures { CopyDefinesReal }
{}

/// With the drift limit 0, at any two resolutions, across and down, the pages of a copy have exactly the marks of the chosen pages, in units
/// and in pixels, by the keys of their fonts. A caller cites what this ensures; the call does nothing.
pub fn copies_keep_marks()
    ensures { CopyKeepsMarks }
{
    copies_keep_pages();
    exact_pages();
}

/// Wherever a copy is cut, the whole commands at its front, with the fonts that they define before the first bop, give complete pages that
/// are the first chosen ones, in counts and in marks by the keys of their fonts; and the marks of an unfinished page are a front of the next
/// one's. A caller cites what this ensures; the call does nothing.
pub fn cuts_hold_first_pages()
    ensures { CutsHoldFirstPages }
{
    one_spelling();
    shortest_spelling();
}
