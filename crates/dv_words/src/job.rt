//! What a run is asked to do.
use crate::names::Names;
use crate::pages::{Parity, Windows};
use dv_base::FileName;

/// What a run is asked to do.
#[derive(Drop)]
pub enum Job {
    /// Print pages of a DVI file as PostScript.
    Print(PrintJob),
    /// List the commands of a DVI file.
    List(ListJob),
    /// Copy a DVI file, with its virtual fonts expanded.
    Copy(CopyJob),
    /// Print a generated document of so many pages.
    Sample { pages: u32 },
}

/// A job of dvips.
#[derive(Drop)]
pub struct PrintJob {
    /// The DVI file; `-` for standard input.
    pub input: FileName,
    /// The text; `-` for standard output.
    pub output: FileName,
    pub windows: Windows,
    /// At most so many pages.
    pub limit: Option<u32>,
    pub reverse: bool,
    pub parity: Parity,
    /// How often the printer prints each page.
    pub copies: u32,
    /// How often the list of pages is repeated.
    pub collated: u32,
    /// The magnification over 1000, in place of the file's.
    pub mag: Option<u32>,
    /// The horizontal and the vertical resolution, in dots an inch.
    pub dpi: (u32, u32),
    /// At most so many pages a section.
    pub per_section: Option<u32>,
    /// The header files as they were given, repeated ones too.
    pub headers: Names,
    /// No warnings.
    pub quiet: bool,
    /// Whether the text has structured comments.
    pub comments: bool,
    /// Width and height in scaled points.
    pub paper: Option<(i64, i64)>,
    /// The offset of the origin, right and down, in scaled points.
    pub offset: (i64, i64),
    /// The drift limit, in pixels.
    pub drift: u32,
    /// The budget of a section.
    pub memory: u32,
    /// Whether literal specials are passed on.
    pub pass_ps: bool,
}

/// A job of dvitype.
#[derive(Drop)]
pub struct ListJob {
    /// The DVI file; `-` for standard input.
    pub input: FileName,
    /// The first page, by count 0.
    pub start: Option<i64>,
    /// At most so many pages.
    pub most: u32,
    /// The resolution, in dots an inch.
    pub dpi: u32,
    /// The magnification over 1000, in place of the file's.
    pub mag: Option<u32>,
    /// 1 where each command is listed, else 0.
    pub detail: u8,
}

/// A job of dvicopy.
#[derive(Drop)]
pub struct CopyJob {
    /// The DVI file; `-` for standard input.
    pub input: FileName,
    /// The copy; `-` for standard output.
    pub output: FileName,
    /// The first page, by count 0.
    pub start: Option<i64>,
    /// At most so many pages.
    pub most: u32,
    /// The magnification over 1000, in place of the file's.
    pub mag: Option<u32>,
}
