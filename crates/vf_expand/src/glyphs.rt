//! Looks at characters and virtual fonts that were met.
ghost use Rattle.std.specs.Prelude.{◌≡◌, ◌<◌, true, None, IfOk, IfSome, List, length, vec_len};
ghost use Rattle.dvi_ops.specs.Placed.{Placed};
ghost use Rattle.font_set.specs.Fonts.{FontSet, width_at};
ghost use Rattle.font_set.specs.Programs.{first_font};
ghost use Rattle.vf_expand.specs.Grid as grid;
ghost use Rattle.vf_expand.specs.Homes.{IsGiven, program_in};
ghost use Rattle.vf_expand.specs.Past.{AreOfPages, AreStartsOfPages};
ghost use Rattle.vf_expand.specs.Wide.{IsChar, AreMet, slot_of, start_of};

use crate::grid::{Grid, Wide};
use crate::home::{Frame, Home};
use crate::met::{Glyphs, Met, Start};
use dv_base::FontId;
use font_set::Fonts;
use std::alloc::{AllocError, Global};

/// How many characters are kept: of sixteen fonts one for each code.
const SLOTS: usize = 4_096;

/// How many virtual fonts are kept.
const STARTS: usize = 16;

/// Where a character is kept: fonts whose numbers differ by less than sixteen are kept beside one another.
fn slot_of(font: FontId, code: u8) -> usize
    ensures value { result ≡ slot_of font code }
    ensures inside { result < 4096 }
{
    (font.number() % 16) as usize * 256 + usize::from(code)
}

/// Whether a character is a glyph, or else has a packet, and how wide it is.
fn character(grid: &Grid, fonts: &Fonts, font: FontId, code: u8) -> (bool, Wide)
    requires given { font < length fonts.now.fonts }
    requires there { width_at fonts.now font code ≡ None → ⊥ }
    ensures { IsChar grid.now fonts.now font code result.0 result.1 }
{
    let Some(width) = fonts.width(font, code) else {
        unreachable!()
    };
    let glyph = fonts.packet(font, code).is_none();
    (glyph, grid.wide(width))
}

/// What stands in a slot where no character was met.
fn nothing() -> Met
    ensures { result.page ≡ 0 }
{
    match FontId::new(0) {
        Some(font) => Met {
            page: 0,
            font,
            glyph: false,
            wide: Wide {
                width: 0,
                pixels: 0,
                excess: 0,
            },
        },
        None => unreachable!(),
    }
}

/// Slots in which no character is kept.
fn no_characters(alloc: Global) -> Result<Vec<Met>, AllocError>
    ensures slots { IfOk result (λ met. vec_len met ≡ 4096) }
    ensures pages { IfOk result (λ met. AreOfPages 0 met.items) }
{
    let met = vec![in alloc; nothing(); SLOTS]?;
    Ok(met)
}

/// Slots in which no virtual font is kept.
fn no_starts(alloc: Global) -> Result<Vec<Option<Start>>, AllocError>
    ensures slots { IfOk result (λ starts. vec_len starts ≡ 16) }
    ensures pages { IfOk result (λ starts. AreStartsOfPages 0 starts.items) }
{
    let starts = vec![in alloc; None; STARTS]?;
    Ok(starts)
}

impl Glyphs {
    /// None was met.
    pub fn new(alloc: Global) -> Result<Glyphs, AllocError> {
        Ok(Glyphs {
            page: 1,
            met: no_characters(alloc)?,
            starts: no_starts(alloc)?,
        })
    }

    /// Forgets all of them.
    pub fn clear(&mut self)
        ensures { (g : grid.Grid) (set : FontSet) → AreMet g set self.new }
    {
        if self.page == u32::MAX {
            self.met.fill(nothing());
            self.starts.fill(None);
            self.page = 1;
        } else {
            self.page += 1;
        }
    }

    /// Whether a character is a glyph, or else has a packet, and how wide it is.
    #[inline(always)]
    pub fn find(&mut self, grid: &Grid, fonts: &Fonts, font: FontId, code: u8) -> (bool, Wide)
        requires given { font < length fonts.now.fonts }
        requires there { width_at fonts.now font code ≡ None → ⊥ }
        requires met { AreMet grid.now fonts.now self.old }
        ensures value { IsChar grid.now fonts.now font code result.0 result.1 }
        ensures met { AreMet grid.now fonts.now self.new }
    {
        let met = self.met[slot_of(font, code)];
        if met.font == font && met.page == self.page {
            (met.glyph, met.wide)
        } else {
            self.look_up(grid, fonts, font, code)
        }
    }

    /// How wide a character is that is kept and is a glyph.
    #[inline(always)]
    pub fn kept(&self, font: FontId, code: u8) -> Option<Wide>
        ensures { (g : grid.Grid) (set : FontSet) → AreMet g set self.now → IfSome result (λ wide. IsChar g set font code true wide) }
    {
        let met = self.met[slot_of(font, code)];
        if met.font == font && met.page == self.page && met.glyph {
            Some(met.wide)
        } else {
            None
        }
    }

    /// Keeps a character.
    fn keep(&mut self, font: FontId, code: u8, glyph: bool, wide: Wide)
        ensures { (g : grid.Grid) (set : FontSet) → AreMet g set self.old → IsChar g set font code glyph wide → AreMet g set self.new }
    {
        self.met[slot_of(font, code)] = Met {
            page: self.page,
            font,
            glyph,
            wide,
        };
    }

    /// The same of a character that isn't kept; it is kept then.
    #[inline(never)]
    fn look_up(&mut self, grid: &Grid, fonts: &Fonts, font: FontId, code: u8) -> (bool, Wide)
        requires given { font < length fonts.now.fonts }
        requires there { width_at fonts.now font code ≡ None → ⊥ }
        requires met { AreMet grid.now fonts.now self.old }
        ensures value { IsChar grid.now fonts.now font code result.0 result.1 }
        ensures met { AreMet grid.now fonts.now self.new }
    {
        let (glyph, wide) = character(grid, fonts, font, code);
        self.keep(font, code, glyph, wide);
        (glyph, wide)
    }

    /// The font in which the packets of a font begin.
    fn start(&mut self, fonts: &Fonts, font: FontId) -> Option<FontId>
        requires given { font < length fonts.now.fonts }
        ensures value { (g : grid.Grid) → AreMet g fonts.now self.old → result ≡ start_of fonts.now font }
        ensures met { (g : grid.Grid) → AreMet g fonts.now self.old → AreMet g fonts.now self.new }
    {
        match self.starts[(font.number() % 16) as usize] {
            Some(start) if start.font == font && start.page == self.page => Some(start.first),
            _ => self.look_up_start(fonts, font),
        }
    }

    /// The same of a font that isn't kept; it is kept then.
    #[inline(never)]
    fn look_up_start(&mut self, fonts: &Fonts, font: FontId) -> Option<FontId>
        requires given { font < length fonts.now.fonts }
        ensures value { result ≡ start_of fonts.now font }
        ensures met { (g : grid.Grid) → AreMet g fonts.now self.old → AreMet g fonts.now self.new }
    {
        let first = fonts.first_local(font)?;
        self.starts[(font.number() % 16) as usize] = Some(Start {
            page: self.page,
            font,
            first,
        });
        Some(first)
    }

    /// The font in which a frame begins.
    pub fn first(&mut self, frame: &Frame<'_>) -> Option<FontId>
        requires given { IsGiven frame.now.fonts.now frame.now.home }
        requires met { AreMet frame.now.grid frame.now.fonts.now self.old }
        ensures value { (cs : List Placed) → result ≡ first_font frame.now.fonts.now (program_in frame.now cs) }
        ensures met { AreMet frame.now.grid frame.now.fonts.now self.new }
    {
        match frame.home {
            Home::Page { .. } => None,
            Home::Packet { font, .. } => self.start(frame.fonts, font),
        }
    }
}
