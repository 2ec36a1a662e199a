//! Why bytes are no document.
ghost use Rattle.std.specs.Prelude.{◌≡◌};
ghost use Rattle.dvi_doc.specs.declared.fault.DocFault.TheVariants.{OutOfMemory};

use std::alloc::{AllocError, AllocFailed};
use thiserror::Error;

/// Why bytes are no document. Places are counted from 0 at the first byte.
#[derive(Clone, Copy, Debug, PartialEq, Eq, Drop, Error)]
pub enum DocFault {
    /// The bytes don't begin with a whole `pre`.
    #[error("NoPreamble")]
    NoPreamble,
    /// The id byte of `pre` or `post_post` at this place isn't 2.
    #[error("BadId")]
    BadId { at: u32 },
    /// The bytes end with fewer than four bytes 223, or 249 doesn't stand six places before the first of these.
    #[error("NoTrailer")]
    NoTrailer,
    /// The pointer of the `post_post` at this place isn't the place of `post`.
    #[error("BadPostPointer")]
    BadPostPointer { at: u32 },
    /// The pointer of this `bop` or `post` isn't the place of the last `bop` before it, or -1 where there is none.
    #[error("BadBackPointer")]
    BadBackPointer { at: u32 },
    /// A command stands where it may not; or the trailer's 249 at this place lies inside another command.
    #[error("BadOrder")]
    BadOrder { at: u32 },
    /// The byte at this place begins no command.
    #[error("Undefined")]
    Undefined { at: u32 },
    /// The command at this place runs past the end.
    #[error("Short")]
    Short { at: u32 },
    /// The postamble defines this font twice.
    #[error("FontTwice")]
    FontTwice { k: i64 },
    /// A definition of this font before the postamble has no equal one in it.
    #[error("FontDiffers")]
    FontDiffers { k: i64 },
    /// The name of this font, its area included, is empty, has more than 255 bytes, or has a byte outside 33 to 126 or a `/`.
    #[error("BadName")]
    BadName { k: i64 },
    /// The size or the design size of this font isn't from 1 to 2^27 - 1.
    #[error("BadSize")]
    BadSize { k: i64 },
    /// The document has `found` pages, modulo 65536, and `post` tells another number.
    #[error("PageCount")]
    PageCount { found: u32, told: u32 },
    /// One of num, den and mag in `post` isn't that of `pre`.
    #[error("PostDiffers")]
    PostDiffers,
    /// Memory was refused.
    #[error("OutOfMemory")]
    OutOfMemory,
}

impl From<AllocError> for DocFault {
    ghost from_gives = { λ _ e. e ≡ OutOfMemory };

    fn from(_error: AllocError) -> Self {
        DocFault::OutOfMemory
    }
}

impl<T: Drop> From<AllocFailed<T>> for DocFault {
    ghost from_gives = { λ _ e. e ≡ OutOfMemory };

    fn from(_error: AllocFailed<T>) -> Self {
        DocFault::OutOfMemory
    }
}
