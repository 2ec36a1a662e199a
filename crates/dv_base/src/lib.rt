//! Numbers, lengths, names, and the outside world of a run.
//!
//! The readers of files and the walk over pages stand on this crate. It reads big-endian numbers ([`Cursor`], [`unsigned`], [`signed`]), turns
//! units of a DVI file into pixels ([`Conv`]) and fix_words into units ([`scale`]), keeps names in place ([`FileName`], [`FontId`]), and says
//! what a run asks of the outside: a [`Shelf`] gives files, a [`Tray`] takes an output and messages. There are two of each: of real files,
//! and in memory.
//!
//! ```text
//! let conv = Conv::new(&Units { num: 25_400_000, den: 473_628_672, mag: 1_000, dpi: 600 })?;
//! let pixels = conv.round(65_536);
//!
//! let mut shelf = FileShelf::new(&rt);
//! if let Got::Bytes(bytes) = shelf.get(alloc, "cmr10.tfm", 1_000_000) { .. }
//!
//! let mut tray = FileTray::new(&rt);
//! if tray.begin(alloc, "story.ps") == Begun::Ready {
//!     write_all(&mut tray, b"%!PS-Adobe-2.0\n")?;
//!     tray.finish()?;
//! }
//! ```
#![tactic(auto)]

mod conv;
mod cursor;
mod file_shelf;
mod file_tray;
mod fix_word;
mod font_id;
mod line;
mod mem_shelf;
mod mem_tray;
mod name;
mod number;
#[cfg(test)]
mod number_tests;
mod shelf;
#[cfg(test)]
mod shelf_tests;
mod site;
mod tray;
mod units;

pub use conv::Conv;
pub use cursor::Cursor;
pub use file_shelf::FileShelf;
pub use file_tray::FileTray;
pub use fix_word::scale;
pub use font_id::{FontId, Spot};
pub use line::Line;
pub use mem_shelf::MemShelf;
pub use mem_tray::MemTray;
pub use name::{FileName, font_name, is_font_name};
pub use number::{signed, unsigned};
pub use shelf::{Got, Shelf};
pub use site::Site;
pub use tray::{Begun, Put, Tray, WriteFault, write_all};
pub use units::Units;
