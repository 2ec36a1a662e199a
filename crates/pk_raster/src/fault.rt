//! Why a PK file is refused.
ghost use Rattle.std.specs.Prelude.{◌≡◌};
ghost use Rattle.pk_raster.specs.declared.fault.PkFault.TheVariants.{OutOfMemory};

use std::alloc::AllocError;
use thiserror::Error;

/// Why a PK file is refused: what stands in its bytes. A `usize` is a place in the file, a `u8` a code.
#[derive(Clone, Copy, Debug, PartialEq, Eq, Error)]
pub enum PkFault {
    /// They don't begin with 247, 89 and the whole rest of a preamble.
    #[error("BadPreamble")]
    BadPreamble,

    /// A flag byte 247 to 255 stands here in the body, or a byte other than 246 after the postamble.
    #[error("Undefined")]
    Undefined(usize),

    /// The special, number or character whose flag byte stands here runs past the end.
    #[error("Short")]
    Short(usize),

    /// The end comes where a flag byte is due.
    #[error("NoPost")]
    NoPost,

    /// The code stands twice.
    #[error("Twice")]
    Twice(u8),

    /// The length of this character is too short for its sizes, or leaves whole bytes of raster unused.
    #[error("BadLength")]
    BadLength(u8),

    /// The raster of this character ends before its pixels.
    #[error("RunsShort")]
    RunsShort(u8),

    /// A run or a repeat of this character passes its last row.
    #[error("RunsPast")]
    RunsPast(u8),

    /// A row of this character has a second repeat count, or a repeat count begins inside another.
    #[error("RepeatTwice")]
    RepeatTwice(u8),

    /// The bytes of the bitmaps up to some glyph are more than the caller allows.
    #[error("Space")]
    Space,

    /// There is no memory left. This may come at any time.
    #[error("OutOfMemory")]
    OutOfMemory,
}

impl From<AllocError> for PkFault {
    ghost from_gives = { λ _ e. e ≡ OutOfMemory };

    fn from(_error: AllocError) -> Self {
        PkFault::OutOfMemory
    }
}
