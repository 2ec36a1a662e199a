//! What options set.

/// What an option sets. Several tools may spell one setting by different options.
#[derive(Clone, Copy, Debug, PartialEq, Eq)]
pub enum Setting {
    /// The first page's number, behind `=` a physical one.
    First,
    /// The last page's number, behind `=` a physical one.
    Last,
    /// Several windows of pages.
    Ranges,
    /// The first page's number by count 0.
    Start,
    /// At most so many pages.
    Limit,
    /// The pages in reverse order.
    Reverse,
    /// Pages with odd numbers alone.
    Odd,
    /// Pages with even numbers alone.
    Even,
    /// Copies of each page, made by the printer.
    Copies,
    /// Copies of the whole list of pages.
    Collated,
    /// The magnification, over 1000.
    Magnification,
    /// Both resolutions, in dots an inch.
    Resolution,
    /// The horizontal resolution.
    Across,
    /// The vertical resolution.
    Down,
    /// At most so many pages a section.
    PerSection,
    /// A header file.
    Header,
    /// No warnings.
    Quiet,
    /// No structured comments.
    Bare,
    /// The output's name.
    Output,
    /// The paper by name.
    Paper,
    /// The paper by its width and height.
    PaperSize,
    /// The offset of the origin.
    Offset,
    /// The drift limit, in pixels.
    Drift,
    /// The budget of a section, in bytes of a printer's memory.
    Memory,
    /// Literal specials are passed on.
    PassPs,
    /// Whether each command is listed, 0 or 1.
    Detail,
}
