//! Rows of bits and blank bytes, sixteen bytes at a time. The bits of bytes stand one byte after another, the highest bit of a byte first.
//!
//! ```
//! let mut row = [0xff];
//! align_row(&[0xab, 0x8c], 3, 3, &mut row); // 010, the bits 3, 4 and 5 of 10101011 10001100
//! assert!(row == [0x40]);
//! assert!(is_blank(&[0, 0, 0]));
//! ```
//!
//! What the bits of bytes are stands in `specs/Bits.antt`, a row of them in `specs/Rows.antt`, and laws of bits in `specs/BitLaws.antt`. No
//! call takes memory.
#![tactic(auto)]

mod align;
mod behind;
mod blank;
#[cfg(test)]
mod tests;
mod window;

pub use align::align_row;
pub use blank::is_blank;
