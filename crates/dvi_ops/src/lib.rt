//! The commands of DVI files, each told from its bytes.
//!
//! A DVI file is a string of commands: one byte, the operation, and then its operands, big endian. Packets of virtual fonts hold
//! the same commands. This crate reads one command at a place and tells where the next begins; it lends texts from the bytes and
//! needs no memory for that.
//!
//! ```
//! // set4 with the code -1 has five bytes, and nop stands behind it
//! let bytes = [131, 255, 255, 255, 255, 138];
//! let (cmd, next) = next_cmd(&bytes, 0)?;   // Cmd::Set(-1), 5
//! let (nop, end) = next_cmd(&bytes, next)?; // Cmd::Nop, 6
//! ```
//!
//! Whether commands stand in the right order is no question for this crate.
#![tactic(auto)]

mod cmd;
mod definition;
mod following;
mod laws;
mod length;
mod number;
mod number_index;
mod plain;
mod put;
mod read;

pub use cmd::{Cmd, Def, Head, OpFault, Tail};
pub use definition::{definition_end, definition_of};
pub use following::command_at;
pub use laws::{one_reading, one_spelling, shortest_spelling, spelled_has_room};
pub use number_index::{NumberIndex, Numbers};
pub use plain::{is_nop, pass};
pub use put::{CmdBytes, put_cmd};
pub use read::next_cmd;

#[cfg(test)]
mod tests;
