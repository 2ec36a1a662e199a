//! Why a font, or the fonts of a page, are refused.
ghost use Rattle.std.specs.Prelude.{◌≡◌};
ghost use Rattle.font_set.specs.declared.fault.FontFault.TheVariants.{OutOfMemory};

use dv_base::{FileName, FontId, Spot};
use pk_raster::PkFault;
use std::alloc::AllocError;
use tfm_widths::TfmFault;
use vf_packets::VfFault;

/// A local font whose size or design size, in DVI units, isn't from 1 to 2^27 - 1.
#[derive(Clone, Copy, Drop)]
pub struct FontKeyParts {
    pub name: FileName,
    pub size: i64,
    pub design: i64,
}

/// Why a font is not known, or not loaded. A name is that of a file.
#[derive(Drop)]
pub enum FontFault {
    /// The file isn't there. Of the candidates for a font's bitmaps it is the last one.
    Missing(FileName),
    /// The file has more bytes than such a file may have.
    FileTooLong(FileName),
    /// The file couldn't be read.
    ReadFault(FileName),
    Tfm(FileName, TfmFault),
    Pk(FileName, PkFault),
    Vf(FileName, VfFault),
    /// 1,000 fonts are known, and this one isn't.
    TooManyFonts,
    BadSize(FontKeyParts),
    /// With its bitmaps the bitmaps of all fonts would be more than 1,073,741,824 bytes.
    RasterSpace,
    OutOfMemory,
}

impl From<AllocError> for FontFault {
    ghost from_gives = { λ _ e. e ≡ OutOfMemory };

    fn from(_error: AllocError) -> FontFault {
        FontFault::OutOfMemory
    }
}

/// Why the fonts of a page are not loaded.
#[derive(Drop)]
pub enum LoadFault {
    /// The command there selects a number that its frame doesn't define.
    UndefinedFont(Spot),
    /// A character is set there, and no font is selected.
    NoFont(Spot),
    /// The code isn't from 0 to 255, or the font has no width for it.
    NoChar(FontId, i64),
    /// The virtual font has no packet for the code.
    NoPacket(FontId, u8),
    /// The font has no bitmap for the code.
    NoGlyph(FontId, u8),
    /// The font's bitmap for the code would have this many bytes, which are more than 65,535.
    GlyphTooBig(FontId, u8, u64),
    Font(FontFault),
}
