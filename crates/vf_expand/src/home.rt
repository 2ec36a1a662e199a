//! Where the commands of a frame stand.
ghost use Rattle.std.specs.Prelude.{◌≡◌, ◌<◌, ◌≤◌, ◌^◌, ◌+◌, pos, length, List, unsigned_abs};
ghost use Rattle.dvi_ops.specs.Placed.{Placed};
ghost use Rattle.positions.specs.Drift.{IsSpace};
ghost use Rattle.font_set.specs.Programs.{select, first_font};
ghost use Rattle.vf_expand.specs.Pages.{space_of, amount_of, inner};
ghost use Rattle.vf_expand.specs.Homes.{first_of, spot_of, scope_of, scope_in, program_in, IsGiven, IsFont};

use crate::grid::Grid;
use dv_base::{FontId, Spot, scale};
use dvi_doc::Doc;
use font_set::Fonts;
use positions::Pos;

/// Where a packet begins that is run at a place.
pub fn inner(pos: &Pos) -> Pos
    ensures { result ≡ inner pos.now }
{
    Pos {
        w: 0,
        x: 0,
        y: 0,
        z: 0,
        ..*pos
    }
}

/// What a frame is: a page, whose first byte has a place in the file, or the packet of a character.
#[derive(Clone, Copy)]
pub enum Home<'a> {
    Page { doc: &'a Doc<'a>, first: u32 },
    Packet { font: FontId, code: u8 },
}

impl<'a> Home<'a> {
    /// The spot of a command.
    pub fn spot(&self, at: usize) -> Spot
        requires { first_of self.now + at < 2 ^ 32 }
        ensures { result ≡ spot_of self.now (first_of self.now + at) }
    {
        match *self {
            Home::Page { first, .. } => Spot::Page {
                at: first + at as u32,
            },
            Home::Packet { font, code } => Spot::Packet {
                font,
                code,
                at: at as u32,
            },
        }
    }
}

/// A frame: what turns units into pixels, the fonts, where its commands stand, how many packets may be nested in it, and how many
/// pushes are open around it.
#[derive(Clone, Copy)]
pub struct Frame<'a> {
    pub grid: Grid,
    pub fonts: &'a Fonts,
    pub home: Home<'a>,
    pub nest: u32,
    pub base: usize,
}

impl<'a> Frame<'a> {
    /// The font that a number names. On a page the hint, which may be any id or none, becomes the answer: where it is the answer already, the
    /// font is found at once.
    pub fn select(&self, k: i64, hint: &mut Option<FontId>) -> Option<FontId>
        requires given { IsGiven self.now.fonts.now self.now.home }
        ensures { result ≡ select self.now.fonts.now (scope_in self.now) k }
    {
        match self.home {
            Home::Page { doc, .. } => {
                let font = doc.font(k)?;
                self.fonts.id_of(&doc.definition(font), hint)
            }
            Home::Packet { font, .. } => self.fonts.local(font, k),
        }
    }

    /// The units of an amount in the frame's commands.
    pub fn amount(&self, q: i32) -> i64
        requires given { IsGiven self.now.fonts.now self.now.home }
        ensures value { result ≡ amount_of (scope_in self.now).size q }
        ensures bound { unsigned_abs result < 2 ^ 39 }
    {
        match self.home {
            Home::Page { .. } => q as i64,
            Home::Packet { font, .. } => scale(self.fonts.size(font), q),
        }
    }

    /// The space of the selected font.
    pub fn space(&self, font: Option<FontId>) -> i64
        requires given { IsFont self.now.fonts.now font }
        ensures value { result ≡ space_of self.now.fonts.now font }
        ensures space { IsSpace result }
    {
        match font {
            None => 0,
            Some(id) => self.fonts.space(id),
        }
    }
}
