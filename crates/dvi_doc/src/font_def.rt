//! A font definition of a document, by its place.
ghost use Rattle.std.specs.Prelude.{◌≡◌};
ghost use Rattle.dvi_ops.specs.View.{def_view};
ghost use Rattle.dvi_doc.specs.Standing.{Stands, definition_at};

use dvi_ops::{Def, definition_end, definition_of, one_spelling};

/// A font definition of a document: its place, in bytes from the start of the file. [`Doc::definition`](crate::Doc::definition) tells what it
/// says.
// A document may define a hundred thousand fonts, and most of what they say is asked for once or never: so of a definition its place is
// kept, and it is read when it is asked for.
#[derive(Clone, Copy, Debug, PartialEq, Eq)]
pub struct FontDef {
    pub at: u32,
}

impl FontDef {
    /// What the definition says that stands at this place of a file.
    pub(crate) fn read<'a>(&self, bytes: &'a [u8]) -> Def<'a>
        requires { Stands bytes.now self.now }
        ensures { def_view result ≡ definition_at bytes.now self.now.at }
    {
        one_spelling();
        let at = self.at as usize;
        match definition_end(bytes, at) {
            Some(end) => definition_of(&bytes[at..end]),
            None => unreachable!(),
        }
    }
}
