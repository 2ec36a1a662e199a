//! VF files: virtual fonts, whose characters are lists of DVI commands (D. Knuth, "Virtual fonts: more fun for grand wizards",
//! TUGboat 11:1; also the program VFtoVP).
//!
//! [`Vf::read`] tests a whole file and keeps its bytes; [`Vf::packet`] then lends the commands of a character, and
//! [`Vf::local`] tells the font that a number means in them.
//!
//! ```text
//! let vf = Vf::read(alloc, bytes)?;
//! if let Some(commands) = vf.packet(b'A') {
//!     // the commands begin in the font `vf.first_local()`
//! }
//! ```
//!
//! What a file is, and what it tells, stands in `specs/File.antt` (`IsVf`), a packet's commands in `specs/Programs.antt`. `read`
//! answers `Ok` exactly where the bytes are such a file, memory aside, and each fault where its sentence in
//! `specs/Faults.antt` is true of them.
#![tactic(auto)]

mod fault;
mod laws;
mod local;
mod packet;
mod program;
mod read;
mod vf;

pub use fault::VfFault;
pub use laws::one_font;
pub use local::Local;
pub use vf::Vf;

#[cfg(test)]
mod tests;
