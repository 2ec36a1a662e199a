//! The words of a command line, and the pages that they choose.
//!
//! [`read_words`] turns words into a [`Job`]: what one of the tools is asked to do, with every default filled in. Where they ask for
//! nothing, the fault names the first word that no accepted list has there.
//!
//! ```
//! match read_words(alloc, &words)? {
//!     Job::Print(job) => {
//!         let pages = select(alloc, &doc, &job.windows, job.parity, job.limit, job.reverse, job.collated)?;
//!         // the places of the chosen pages in doc.pages(), in output order
//!     }
//!     Job::List(job) => {}
//!     Job::Copy(job) => {}
//!     Job::Sample { pages } => {}
//! }
//! ```
#![tactic(auto)]

mod draft;
mod fault;
mod job;
mod laws;
mod names;
mod number;
mod opened;
mod page_index;
mod pages;
mod ranges;
mod read;
mod requested;
mod selection;
#[cfg(test)]
mod selection_tests;
mod setting;
mod spans;
mod step;
#[cfg(test)]
mod tests;
mod tool;
mod word;
mod words;

pub use fault::WordFault;
pub use job::{CopyJob, Job, ListJob, PrintJob};
pub use laws::one_job;
pub use names::Names;
pub use pages::{Parity, Window, WindowList, Windows};
pub use selection::{SelectFault, select};
pub use words::read_words;
