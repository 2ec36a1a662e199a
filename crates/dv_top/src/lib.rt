//! The whole program: words, files and documents in, a text or a message out.
//!
//! [`run_tool`] does all of it over a shelf and a tray. The program hands it those of real files; here they are in memory.
//!
//! ```
//! let mut shelf = MemShelf::new(alloc);
//! shelf.add("rule.dvi", &document)?;
//! let mut tray = MemTray::new(alloc, 4_000, 100)?;
//! // the words are: dvips -D 300 -o rule.ps rule
//! let outcome = run_tool(alloc, &words, &mut shelf, &mut tray);
//! if outcome.status() == 0 {
//!     // the text is tray.written(), and tray.said() is empty
//! }
//! ```
#![tactic(auto)]

mod check;
mod choose;
mod copy;
mod draft;
mod headers;
mod heads;
mod label;
mod list;
#[cfg(test)]
mod list_tests;
mod load;
mod message;
mod notes;
#[cfg(test)]
mod notes_tests;
mod outcome;
mod output;
mod plan;
mod print;
mod read;
mod run;
mod sample;
mod scale;
mod setup;
mod tell;
#[cfg(test)]
mod tests;
#[cfg(test)]
mod tool_tests;
mod walk;
mod warnings;
mod write;

pub use outcome::Outcome;
pub use run::run_tool;
