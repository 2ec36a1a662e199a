//! The copy of a document: a DVI file with the same pages, and no virtual font.
//!
//! A [`Measure`] is a canvas that counts the bytes of a page's copy. [`copy`] measures all pages, and then writes the copy to a tray: the
//! preamble, a definition of each real font, the pages, each a list of marks, and the postamble. Each of the two has a call of its own,
//! [`measure_copy`] and [`write_copy`], for who has something to do between them.
//!
//! ```text
//! let mut walker = Walker::new(alloc, conv, conv, 2)?;
//! copy(alloc, &doc, &fonts, &mut walker, &pages, 1_000, &name, &mut tray)?;
//! ```
#![tactic(auto)]

mod copying;
mod fault;
mod front;
mod laws;
mod measure;
mod numbers;
mod pen;
mod script;
mod writer;

pub use copying::{Measured, copy, measure_copy, write_copy};
pub use fault::CopyFault;
pub use laws::{
    copies_are_documents, copies_define_real_fonts, copies_keep_marks, copies_keep_pages,
    cuts_hold_first_pages,
};
pub use measure::Measure;

#[cfg(test)]
mod tests;
