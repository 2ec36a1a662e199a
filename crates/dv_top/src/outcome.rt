//! How a run ends.
ghost use Rattle.std.specs.Prelude.{◌≡◌};
ghost use Rattle.dv_top.specs.Status.{status_of};
ghost use Rattle.dv_top.specs.declared.outcome.Outcome.TheVariants as variant;

use dv_base::{FileName, Site, Units, WriteFault};
use dvi_doc::DocFault;
use pk_raster::PkFault;
use std::alloc::AllocError;
use tfm_widths::TfmFault;
use vf_packets::VfFault;

/// How a run ended. A `font` is the name of a font, a `name` that of a file, a `spot` the place of a command.
#[derive(Clone, Copy, Drop)]
pub enum Outcome {
    /// The text was written whole.
    Done,
    /// The bytes are no DVI document.
    BadDvi {
        kind: DocFault,
    },
    /// The bytes are no TFM file.
    BadTfm {
        name: FileName,
        kind: TfmFault,
    },
    /// The bytes are no PK file.
    BadPk {
        name: FileName,
        kind: PkFault,
    },
    /// The bytes are no VF file.
    BadVf {
        name: FileName,
        kind: VfFault,
    },
    /// The shelf has no file of this name. Of the candidates for a font's bitmaps it is the last one.
    Missing {
        name: FileName,
    },
    /// The file of this name has more bytes than its limit.
    FileTooLong {
        name: FileName,
    },
    /// The command selects a number that its page or packet doesn't define.
    UndefinedFont {
        spot: Site,
    },
    /// A character is set, and no font is selected.
    NoFont {
        spot: Site,
    },
    /// A pop has no push in its page or packet.
    StackUnder {
        spot: Site,
    },
    /// A push is still open at the end of its page or packet; the place is that of the page's eop, or the packet's length.
    StackLeft {
        spot: Site,
    },
    /// The push would be open as the 1,001st, over the page and the packets around it.
    StackDeep {
        spot: Site,
    },
    /// The command would pass 2^31 - 1 units.
    Overflow {
        spot: Site,
    },
    /// The code isn't from 0 to 255, or the font has no width for it.
    NoChar {
        font: FileName,
        code: i64,
    },
    /// The virtual font has no packet for the code.
    NoPacket {
        font: FileName,
        code: u8,
    },
    /// The font has no bitmap for the code.
    NoGlyph {
        font: FileName,
        code: u8,
    },
    /// A character of this virtual font is met 16 packets deep.
    NestDeep {
        font: FileName,
        code: u8,
    },
    /// The font's bitmap for the code would have this many bytes, which are more than 65,535.
    GlyphTooBig {
        font: FileName,
        code: u8,
        bytes: u64,
    },
    /// The size or the design size of a local font, in DVI units, isn't from 1 to 2^27 - 1.
    BadSize {
        font: FileName,
        size: i64,
        design: i64,
    },
    /// These units turn into no pixels.
    BadConv {
        units: Units,
    },
    /// A page of this number is asked for and isn't there.
    NoSuchPage {
        number: i64,
    },
    /// More than 1,000,000 pages would be printed.
    TooManyPages,
    /// The page of this number, counted from 1 in the order of the output, costs a printer what it needs, which is more than it has.
    PageTooBig {
        page: u32,
        need: u64,
        have: u64,
    },
    /// There are more than 64 headers.
    TooManyHeaders,
    /// A copy would have more than 2,147,483,647 bytes.
    CopyTooLong,
    /// More than 1,000 fonts are selected.
    TooManyFonts,
    /// The chosen pages have more than 50,000,000 commands, those of packets counted.
    TooManySteps,
    /// The bitmaps of all fonts would be more than 1,073,741,824 bytes.
    RasterSpace,
    /// The word at this index is the first that no accepted list has there.
    BadWords {
        index: usize,
    },
    /// The file of this name couldn't be read.
    ReadFault {
        name: FileName,
    },
    /// The output couldn't be written.
    WriteFault,
    /// Memory was refused.
    OutOfMemory,
}

impl Outcome {
    /// The exit status: 0 where all was written, 1 where the input is to blame, 2 for the words, 3 for a fault of reading, 4 for a
    /// fault of writing, 5 for want of memory.
    pub fn status(&self) -> u8
        ensures { result ≡ status_of self.now }
    {
        match self {
            Outcome::Done => 0,
            Outcome::BadWords { .. } => 2,
            Outcome::ReadFault { .. } => 3,
            Outcome::WriteFault => 4,
            Outcome::OutOfMemory => 5,
            _ => 1,
        }
    }
}

impl From<AllocError> for Outcome {
    ghost from_gives = { λ _ outcome. outcome ≡ variant.OutOfMemory };

    fn from(_: AllocError) -> Outcome {
        Outcome::OutOfMemory
    }
}

impl From<WriteFault> for Outcome {
    ghost from_gives = { λ _ outcome. outcome ≡ variant.WriteFault };

    fn from(_: WriteFault) -> Outcome {
        Outcome::WriteFault
    }
}
