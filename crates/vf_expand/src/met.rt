//! What was met on a page and is kept.
ghost use Rattle.std.specs.Prelude.{◌≡◌, ◌≤◌, vec_len};
ghost use Rattle.vf_expand.specs.Past.{AreOfPages, AreStartsOfPages};

use crate::grid::Wide;
use dv_base::FontId;

/// A character that was met: on which page, its font, whether it is a glyph or has a packet, and how wide it is.
#[derive(Clone, Copy)]
pub struct Met {
    pub page: u32,
    pub font: FontId,
    pub glyph: bool,
    pub wide: Wide,
}

/// A virtual font of which a character was met: on which page, and the font in which its packets begin.
#[derive(Clone, Copy)]
pub struct Start {
    pub page: u32,
    pub font: FontId,
    pub first: FontId,
}

/// Of each slot what was met last: most characters of a page are met again soon, and then nothing is looked up.
///
/// Pages are counted from 1, and where nothing was met stands the page 0. What was met on other pages doesn't count: so a new page forgets
/// all, and nothing has to be cleared.
#[derive(Drop)]
pub struct Glyphs {
    pub page: u32,
    pub met: Vec<Met>,
    pub starts: Vec<Option<Start>>,
    ghost begun: { 1 ≤ page },
    ghost slots: { vec_len met ≡ 4096 },
    ghost few: { vec_len starts ≡ 16 },
    ghost past: { AreOfPages page met.items },
    ghost starts_past: { AreStartsOfPages page starts.items },
}
