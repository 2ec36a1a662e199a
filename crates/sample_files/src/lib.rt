//! A document without a file: `sample.dvi`, with the metrics and the bitmaps of its one font `smp`, made in memory.
//!
//! It has as many pages as are asked for, 2,400 characters and a rule on each, and is the same each time: the characters are drawn by
//! a generator of numbers that starts anew with each document. So a program can be tried, and timed, where no document is at hand.
//!
//! ```text
//! let document = document(alloc, 10)?; // sample.dvi, 36,952 bytes
//! let widths = widths(alloc)?;         // smp.tfm, 176 bytes
//! let bitmaps = bitmaps(alloc)?;       // smp.300pk, 572 bytes
//! ```
#![tactic(auto)]

mod dvi_file;
mod laws;
mod letters;
mod page;
mod pk_file;
#[cfg(test)]
mod tests;
mod tfm_file;

pub use dvi_file::document;
pub use laws::lengths;
pub use pk_file::bitmaps;
pub use tfm_file::widths;
