//! The listing of a DVI file: its preamble, its fonts, and for each chosen page a line for each command, with the place of the page
//! behind it.
//!
//! A character is one character here, of a virtual font too: its width is that of its font's TFM file, and no other file is asked for. A
//! TFM file is read at the first character in its font. A listing ends before the first command that can't be run, and what stands
//! before it has been written.
//!
//! ```text
//! let mut fonts = Fonts::new(alloc, units, conv, Want::Widths);
//! tray.begin(alloc, "-");
//! list(alloc, &doc, &mut fonts, shelf, &conv, &pages, &job, tray)?;
//! ```
#![tactic(auto)]

mod fault;
mod fonts;
mod gathered;
mod lines;
mod listing;
mod moves;
mod quick;
mod state;
mod turn;

pub use fault::ListFault;
pub use listing::list;

#[cfg(test)]
mod tests;
