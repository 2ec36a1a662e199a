//! Places as outcomes name them.

use crate::name::FileName;

/// A place at which a command stands, with the name of the font where it is in a packet.
#[derive(Clone, Copy, PartialEq, Eq, Drop)]
pub enum Site {
    /// A place in the DVI file, counted in bytes from its start.
    Page { at: u32 },
    /// A place in the packet of a character, counted in bytes from the packet's first command.
    Packet { font: FileName, code: u8, at: u32 },
}
