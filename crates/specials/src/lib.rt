//! What the specials of a DVI file say, and the dimensions that users write.
//!
//! TeX puts `\special{..}` into a DVI file as bytes that it doesn't read. [`read_special`] tells what they say to a PostScript driver:
//!
//! ```
//! match read_special(b"papersize=210mm,297mm") {
//!     Special::Paper(width, height) => {} // 39158276 and 55380990 scaled points
//!     Special::Header(name) => {}         // a file to be sent before the pages
//!     Special::Literal(text) => {}        // PostScript to be passed on
//!     Special::BadPaper | Special::Unknown => {}
//! }
//! ```
//!
//! [`dimension`] reads one dimension, as `210mm` or `-.5in`, and [`is_file_name`] says which names of files may be given. No call takes
//! memory.
#![tactic(auto)]

mod commas;
mod decimals;
mod dimensions;
mod file_names;
mod special;
#[cfg(test)]
mod tests;

pub use commas::split_at_comma;
pub use decimals::decimal_value;
pub use dimensions::dimension;
pub use file_names::is_file_name;
pub use special::{Special, read_special};
