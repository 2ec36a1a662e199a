//! What the head of a text says of its job.

use dv_base::FileName;

/// The numbers of a job that stand at the head of its text.
#[derive(Clone, Copy)]
pub struct Setup {
    /// The input's name.
    pub title: FileName,
    /// How many pages follow.
    pub pages: u32,
    /// The paper's width and height, in scaled points.
    pub paper: (i64, i64),
    /// Pixels an inch, across and down.
    pub dpi: (u32, u32),
    /// The pixel of the origin, from the paper's upper left corner.
    pub origin: (i64, i64),
    /// How often each page is printed.
    pub copies: u32,
}
