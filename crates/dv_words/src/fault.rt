//! Why words ask for nothing.

/// Why words ask for nothing.
#[derive(Clone, Copy, Debug, PartialEq, Eq)]
pub enum WordFault {
    /// Some accepted list begins with the words before the index, and none with this word too; where the list merely ends too early,
    /// the index is its length.
    Bad { index: usize },
    /// There was no memory.
    OutOfMemory,
}
