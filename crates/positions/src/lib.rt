//! Places on a page, and what a page puts there.
//!
//! A `Pos` is the current place of a page, in units of the DVI file and in pixels; its calls move it, by the drift rule, past a
//! character or a rule, across and down. What a page puts on the paper are marks, and what takes marks is a `Canvas`: every
//! output of the program is one. A `MarkList` is a canvas that keeps its marks in memory:
//!
//! ```text
//! let mut pos = Pos::origin();
//! pos.right(&conv, 2, space, 65_536)?;
//! let mut list = MarkList::new(alloc);
//! list.special(&SpecialMark { bytes: b"papersize=a4", x: pos.hh, y: pos.vv, h: pos.h, v: pos.v })?;
//! ```
#![tactic(auto)]

mod canvas;
mod mark;
mod mark_list;
mod pos;
#[cfg(test)]
mod tests;

pub use canvas::{Canvas, NoFault};
pub use mark::{GlyphMark, RuleMark, SpecialMark};
pub use mark_list::{Kept, MarkList};
pub use pos::{Passed, Pos};
