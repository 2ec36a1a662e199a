//! DVI documents: their pages by place, and the fonts that they define.
//!
//! A document begins with a preamble; then come pages, each from a bop to an eop; then a postamble with the font definitions, and at
//! least four bytes 223. [`Doc::read`] answers a document exactly where the bytes are one, and else a fault that is true of them. It
//! borrows the bytes, keeps no commands, and looks at each byte about once.
//!
//! ```
//! let doc = Doc::read(alloc, &bytes)?;
//! for number in 0..doc.pages().len() {
//!     let body = doc.body(number); // the commands between bop and eop, for next_cmd
//! }
//! ```
#![tactic(auto)]

mod doc;
mod fault;
mod font;
mod font_def;
mod fonts;
mod found;
mod front;
mod laws;
mod page;
mod pages;
mod parts;
mod postamble;
mod step;
mod tail;
mod trailer;

pub use doc::Doc;
pub use fault::DocFault;
pub use font::FontKey;
pub use font_def::FontDef;
pub use laws::one_document;
pub use page::Page;

#[cfg(test)]
mod tests;
