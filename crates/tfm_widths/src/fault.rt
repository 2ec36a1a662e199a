//! Why bytes are no TFM file.
use thiserror::Error;

/// Why bytes are no TFM file (TFM format, 'The file': lengths, char_info words and widths).
#[derive(Clone, Copy, Debug, PartialEq, Eq, Drop, Error)]
pub enum TfmFault {
    /// There are fewer bytes than 24, or fewer than the 4 · lf that the first halfword tells.
    #[error("Short")]
    Short,
    /// One of the twelve lengths is 2^15 or more, they don't add up, or the header, the widths or the range of codes is too small
    /// or too large.
    #[error("BadLengths")]
    BadLengths,
    /// The first byte of this width, counted from 0, is neither 0 nor 255.
    #[error("BadWidth")]
    BadWidth(u32),
    /// The width index of this code is outside the table of widths.
    #[error("BadIndex")]
    BadIndex(u8),
    /// There is no memory for the widths.
    #[error("OutOfMemory")]
    OutOfMemory,
}
