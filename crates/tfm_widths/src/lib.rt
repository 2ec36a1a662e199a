//! The widths of a font's characters, from its TFM file.
//!
//! `Tfm::read` takes the bytes of a file and checks all that it uses of them; `Tfm::width` then tells the width of a character as
//! a fix_word, in units of 2^-20 of the font's size, which `dv_base::scale` multiplies by the size as TeX does:
//!
//! ```text
//! let tfm = Tfm::read(alloc, &bytes)?;
//! let units = tfm.width(b'A').map(|fix_word| scale(size, fix_word));
//! ```
//!
//! Heights, depths, italic corrections, ligatures, kerns and recipes are not read.
#![tactic(auto)]

mod fault;
mod layout;
#[cfg(test)]
mod real_tests;
#[cfg(test)]
mod tests;
mod tfm;

pub use fault::TfmFault;
pub use tfm::Tfm;
