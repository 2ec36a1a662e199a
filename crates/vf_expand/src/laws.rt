//! What follows from the definitions alone.
ghost use Rattle.std.specs.Prelude.{◌≡◌, ◌↔◌, ℕ, List, Some, None};
ghost use Rattle.dvi_ops.specs.Placed.{Placed};
ghost use Rattle.positions.specs.Place.{Place};
ghost use Rattle.font_set.specs.Fonts.{FontSet};
ghost use Rattle.dvi_doc.specs.Document.{PageOf};
ghost use Rattle.dvi_doc.specs.View.{ReadDoc, IsRead};
ghost use Rattle.font_set.specs.Programs.{Program, page_program};
ghost use Rattle.font_set.specs.Search.{page_of};
ghost use Rattle.font_set.specs.Tree.{IsTreeOf, Tree, tree_of};
ghost use Rattle.font_set.specs.Expand.{expand};
ghost use Rattle.vf_expand.specs.Alike.{CountAlike, FaultlessAlike, MarksOfPageAlike};
ghost use Rattle.vf_expand.specs.Grid.{Grid};
ghost use Rattle.vf_expand.specs.Pages.{frame_marks, first_there};
ghost use Rattle.font_set.specs.Shapes.{shapes_of};
ghost use Rattle.vf_expand.specs.Shown.{marks_expanded};
ghost use Rattle.vf_expand.specs.Faultless.{MarkedIsFaultless};
ghost use Rattle.vf_expand.specs.Page.{IsPage};

use dvi_doc::one_document;
use dvi_ops::one_reading;
use font_set::one_font;

/// The tree of commands is the one tree whose commands they are, front to back. A caller cites what this ensures; the call does
/// nothing.
pub fn trees()
    ensures { (cs : List Placed) (t : Tree) → (tree_of cs ≡ Some t) ↔ IsTreeOf cs t }
{}

/// The marks of a frame are those of its expanded tree, in which each character of a virtual font stands for the tree of its packet. A
/// caller cites what this ensures; the call does nothing.
pub fn expanding()
    ensures { (g : Grid) (set : FontSet) (n : ℕ) (program : Program) (p : Place) → marks_expanded g set (expand (shapes_of set) n program) (record { place = p; font = None }) ≡ first_there set program.first (frame_marks g set n program p) }
{}

/// A page by its place among a document's pages does with fonts what the document's page does. A caller cites what this ensures; the
/// call does nothing.
pub fn pages_by_place()
    ensures { (r : ReadDoc) (k : ℕ) (p : PageOf) → IsRead r → IsPage r k p → page_of r k ≡ page_program r.fonts p.commands }
{
    one_document();
    one_reading();
}

/// A page whose marks are defined has no fault of its own, but for a push that is too deep and for too many commands. A caller cites
/// what this ensures; the call does nothing.
pub fn marked_pages()
    ensures { MarkedIsFaultless }
{}

/// With the fonts of two sets that have them from the same files, a page has no fault with the one where it has none with the other, runs
/// as many commands, and has alike marks. A caller cites what this ensures; the call does nothing.
pub fn alike_pages()
    ensures faultless { FaultlessAlike }
    ensures count { CountAlike }
    ensures marks { MarksOfPageAlike }
{
    one_font();
}
