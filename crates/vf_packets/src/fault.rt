//! Why a VF file is refused.
ghost use Rattle.std.specs.Prelude.{◌≡◌};
ghost use Rattle.vf_packets.specs.declared.fault.VfFault.TheVariants.{OutOfMemory};

use std::alloc::AllocError;
use thiserror::Error;

/// Why a VF file is refused: what stands in its bytes. A `usize` is a place in the file, a `u8` a code, an `i64` the number of a
/// local font.
#[derive(Clone, Copy, Debug, PartialEq, Eq, Error)]
pub enum VfFault {
    /// They don't begin with 247, 202 and the whole rest of a preamble.
    #[error("BadPreamble")]
    BadPreamble,

    /// A definition begins here after a packet, or a byte 247 or 249 to 255 stands here where a definition or packet is due.
    #[error("BadOrder")]
    BadOrder(usize),

    /// The definition or packet that begins here runs past the end.
    #[error("Short")]
    Short(usize),

    /// The packet of this code isn't a list of whole commands that a packet may hold.
    #[error("BadOp")]
    BadOp(u8),

    /// The code has two packets.
    #[error("Twice")]
    Twice(u8),

    /// The local font of this number is defined twice.
    #[error("FontTwice")]
    FontTwice(i64),

    /// The name of this local font, its area included, is empty, has more than 255 bytes, or has a byte outside 33 to 126 or a `/`.
    #[error("BadName")]
    BadName(i64),

    /// What stands after the last definition or packet isn't one or more bytes 248 and nothing else.
    #[error("NoPost")]
    NoPost,

    /// There is no memory left. This may come at any time.
    #[error("OutOfMemory")]
    OutOfMemory,
}

impl From<AllocError> for VfFault {
    ghost from_gives = { λ _ e. e ≡ OutOfMemory };

    fn from(_error: AllocError) -> Self {
        VfFault::OutOfMemory
    }
}
