//! The walk over a page of a DVI file, through the packets of virtual fonts that it runs, which gives the page's marks to a canvas.
//!
//! A page is a string of commands. They move a place, save it and give it back, select fonts, and put characters, rules and specials
//! where the place is. A character of a virtual font is again a string of commands, its packet, with fonts of its own. A [`Walker`]
//! reads the commands one by one from the page's bytes and the packets', moves a [`Pos`](positions::Pos), and hands each mark to a
//! [`Canvas`](positions::Canvas) as it comes. It keeps the places of the open pushes and nothing else of the page.
//!
//! ```text
//! let mut walker = Walker::new(alloc, across, down, 2)?;
//! fonts.load_page(shelf, &doc, page)?;
//! walker.page(&doc, page, &fonts, &mut canvas)?;
//! ```
#![tactic(auto)]

mod fault;
mod glyphs;
mod grid;
mod home;
mod laws;
mod mark_laws;
mod met;
mod nop;
mod paint;
mod plain;
mod run;
mod shift;
mod walker;

pub use fault::WalkFault;
pub use laws::{alike_pages, expanding, marked_pages, pages_by_place, trees};
pub use mark_laws::{exact_pages, painted_rules};
pub use walker::Walker;

#[cfg(test)]
mod tests;
