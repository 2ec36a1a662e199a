//! The PostScript text of a job, written line after line to a tray.
//!
//! An [`Emitter`] is a canvas: whoever walks over a page gives it the page's marks, and it writes their lines. Around the pages stand the
//! calls that write what the text has besides:
//!
//! ```text
//! let mut emitter = Emitter::new(tray, &fonts, true, false);
//! emitter.prologue(&setup, &headers)?;
//! emitter.begin_section()?;
//! emitter.fonts(&usage)?;
//! emitter.begin_page(label, 1)?;
//! walker.page(&doc, 0, &fonts, &mut emitter)?;
//! emitter.end_page()?;
//! emitter.end_section()?;
//! emitter.trailer()?;
//! ```
#![tactic(auto)]

mod emitter;
mod head;
mod items;
pub mod laws;
mod letters;
mod pen;
mod setup;
mod sheet;
mod stretch;
#[cfg(test)]
mod tests;

pub use dv_base::WriteFault;
pub use emitter::Emitter;
pub use setup::Setup;
