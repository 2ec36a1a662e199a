//! The fonts of a run.
//!
//! [`Fonts`] knows fonts by their keys and numbers them from 0. It loads a font from the files of a shelf, and lends what they tell:
//! widths, bitmaps, and the packets of virtual fonts with the fonts that are local to them. [`Fonts::load_page`] loads all that
//! a page needs, through virtual fonts in virtual fonts, so that a walk over the page meets no fault of a font any more.
//!
//! ```text
//! let mut fonts = Fonts::new(alloc, units, conv, Want::Rasters);
//! let id = fonts.know(&key)?;
//! fonts.load(shelf, id)?;
//! let width = fonts.width(id, b'A');
//! ```
#![tactic(auto)]

mod agenda;
mod fault;
mod files;
mod font;
mod fonts;
mod laws;
mod load;
#[cfg(test)]
mod load_tests;
mod local;
mod look;
mod quick;
mod skim;
#[cfg(test)]
mod tests;
mod turn;
mod want;

pub use fault::{FontFault, FontKeyParts, LoadFault};
pub use fonts::Fonts;
pub use laws::{can_be_had, covers_later, one_font, one_key, order_of_tree};
pub use want::{Kind, Want};
