//! PK files: packed bitmaps of the glyphs of a font (T. Rokicki, "Packed (PK) font file format", TUGboat 6:3).
//!
//! [`Pk::read`] reads a whole file and unpacks each bitmap; [`Pk::look`] then lends a glyph by its code, with its rows
//! padded to bytes, as printers take them.
//!
//! ```text
//! let pk = Pk::read(alloc, &bytes, 1 << 30)?;
//! if let Look::Here(glyph) = pk.look(b'A') {
//!     let stride = (glyph.w as usize + 7) / 8;
//!     for row in glyph.rows.chunks(stride) { .. }
//! }
//! ```
//!
//! What a file is, and which font it tells, stands in `specs/File.antt` (`IsPk`), the parts of its body in `specs/Parts.antt`,
//! a glyph in `specs/Glyph.antt`, and its two rasters in `specs/Raster.antt`. `read` answers `Ok` exactly where the bytes are
//! a PK file whose bitmaps fit, memory aside, and each fault where its sentence in `specs/Faults.antt` is true of them.
#![tactic(auto)]

mod bits;
mod board;
mod decode;
mod fault;
mod glyph;
mod items;
mod laws;
mod lay;
mod packed;
mod paint;
mod part;
mod pk;
mod plain;
mod read;

pub use fault::PkFault;
pub use laws::{one_font, whole_rows};
pub use pk::{Glyph, Look, Pk};

#[cfg(test)]
mod tests;
