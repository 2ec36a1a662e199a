//! Why a document wasn't copied.
use positions::NoFault;
use vf_expand::WalkFault;

/// Why a document wasn't copied.
#[derive(Drop)]
pub enum CopyFault {
    /// A walk over one of the pages stopped; no output was begun.
    Walk(WalkFault<NoFault>),
    /// The copy would have more than 2,147,483,647 bytes; no output was begun.
    CopyTooLong,
    /// The tray failed.
    WriteFault,
    /// There was no memory; no output was begun.
    OutOfMemory,
}
