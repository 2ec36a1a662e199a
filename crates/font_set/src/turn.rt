//! Reads the commands of a frame, for what they do with fonts.
ghost use Rattle.std.specs.Prelude.{◌≡◌, ◌<◌, ◌≤◌, ◌^◌, ◌+◌, ℕ, List, length, drop, slice_range, Some, IfSome, IfOk, IfErr, MatchOption};
ghost use Rattle.dvi_ops.specs.Command.{Command};
ghost use Rattle.dvi_ops.specs.Placed.{Placed, Lexes};
ghost use Rattle.dvi_ops.specs.Spelling.{Spell};
ghost use Rattle.dvi_ops.specs.View.{def_view, view};
ghost use Rattle.dvi_doc.specs.Grammar.{IsNamed, IsSized};
ghost use Rattle.font_set.specs.Programs.{HasNumber, key_in, key_by};
ghost use Rattle.font_set.specs.Locals.{KeyAnswer};
ghost use Rattle.font_set.specs.Search.{IsHome, IsTurnFault, program_of, bytes_of, first_of, spot_at, fonts_of};
ghost use Rattle.font_set.specs.Found.{Reads, IsPlaced};
ghost use Rattle.font_set.specs.Asking.{IsAsked, DoesAsked, AskedFault, KeyFault};

use crate::agenda::{Home, Place};
use crate::fault::{FontFault, LoadFault};
use crate::fonts::Fonts;
use dv_base::{FontId, Spot};
use dvi_doc::{Doc, FontKey};
use dvi_ops::{Cmd, Def, command_at, one_spelling};
use std::marker::Model;

/// What a command asks of the fonts of its frame.
#[derive(Clone, Copy, Drop)]
pub enum Asked {
    Nothing,
    /// To select the font of this number.
    Font(i64),
    /// To set the character of this code.
    Char(i64),
}

/// What a command does with fonts.
#[derive(Clone, Copy, Drop)]
pub enum Does {
    Nothing,
    Selects(FontKey),
    Sets(i64),
}

/// A command that was read, and where the next one stands.
#[derive(Clone, Copy, Drop)]
pub struct Turn {
    pub next: usize,
    pub does: Does,
}

/// A page: its document, the place of its first command in the file, and the bytes of its commands.
#[derive(Drop)]
pub struct Sheet<'a> {
    pub doc: &'a Doc<'a>,
    pub first: u32,
    pub bytes: &'a [u8],
}

impl<'a> Model for Sheet<'a> {
    ghost use Rattle.dvi_doc.specs.Grammar.{AreFonts};
    ghost use Rattle.font_set.specs.Found.{PageBytes};
    ghost use Rattle.font_set.specs.Search.{page_in};

    ghost Value = { PageBytes };

    ghost view = { λ s. record { page = page_in s.doc.now.fonts s.first s.bytes.now; bytes = s.bytes.now; first = s.first } };

    ghost invariant = { λ s. AreFonts s.doc.now.fonts };
}

impl<'a> Sheet<'a> {
    /// The definition of the font that a number names in the page, where it names one.
    pub(crate) fn definition(&self, k: i64) -> Option<Def<'a>>
        ensures found { MatchOption result (HasNumber self.now.page.scope.fonts k → ⊥) (λ font. key_in self.now.page.scope.fonts k ≡ Some (key_by (def_view font))) }
        ensures named { IfSome result (λ font. IsNamed (def_view font)) }
        ensures sized { IfSome result (λ font. IsSized (def_view font)) }
    {
        let font = self.doc.font(k)?;
        Some(self.doc.definition(font))
    }

    /// The key that a number names in the page, where it names one.
    pub(crate) fn font(&self, k: i64) -> Option<FontKey>
        ensures { KeyAnswer self.now.page.scope.fonts k result }
    {
        match self.definition(k) {
            Some(font) => Some(FontKey::of(&font)),
            None => None,
        }
    }
}

/// What a command asks of the fonts of its frame.
fn asked_by(cmd: &Cmd<'_>) -> Asked
    ensures { IsAsked (view cmd.now) result }
{
    match *cmd {
        Cmd::Set(z) | Cmd::Put(z) => Asked::Char(z),
        Cmd::Fnt(k) => Asked::Font(k),
        _ => Asked::Nothing,
    }
}

/// What the command at a place of bytes asks, and the place behind it.
fn read(bytes: &[u8], at: usize) -> (Asked, usize)
    requires inside { at < length bytes.now }
    requires spelled { (from : ℕ) × (rest : List Placed) × Lexes from (drop at bytes.now) rest }
    ensures further { at < result.1 }
    ensures within { result.1 ≤ length bytes.now }
    ensures command { (cmd : Command) × Spell cmd (slice_range bytes.now at result.1) × IsAsked cmd result.0 }
{
    let (cmd, next) = command_at(bytes, at);
    (asked_by(&cmd), next)
}

impl Fonts {
    /// The id with this number.
    pub(crate) fn numbered(&self, number: u32) -> FontId
        requires given { number < length self.now.fonts }
        ensures { result ≡ number }
    {
        let _ = &self.alloc;
        match FontId::new(number) {
            Some(id) => id,
            None => unreachable!(),
        }
    }

    /// The spot of the command at a place.
    pub(crate) fn spot(&self, sheet: &Sheet<'_>, place: &Place) -> Spot
        requires given { IsHome self.now place.now.home }
        requires short { first_of sheet.now.first place.now.home + place.now.at < 2 ^ 32 }
        ensures { result ≡ spot_at place.now.home (first_of sheet.now.first place.now.home + place.now.at) }
    {
        match place.home {
            Home::Page => Spot::Page {
                at: sheet.first + place.at as u32,
            },
            Home::Packet { font, code } => Spot::Packet {
                font: self.numbered(font),
                code,
                at: place.at as u32,
            },
        }
    }

    /// What the command at a place asks, and the place behind it.
    fn asked_at(&self, sheet: &Sheet<'_>, place: &Place) -> (Asked, usize)
        requires inside { place.now.at < place.now.end }
        requires placed { IsPlaced sheet.now self.now place.now }
        ensures further { place.now.at < result.1 }
        ensures within { result.1 ≤ place.now.end }
        ensures command { (cmd : Command) × Spell cmd (slice_range (bytes_of self.now sheet.now.bytes place.now.home) place.now.at result.1) × IsAsked cmd result.0 }
    {
        match place.home {
            Home::Page => read(sheet.bytes, place.at),
            Home::Packet { font, code } => match self.packet(self.numbered(font), code) {
                Some(bytes) => read(bytes, place.at),
                None => unreachable!(),
            },
        }
    }

    /// The key that a number names in a frame, where it names one.
    fn key_named(
        &self,
        sheet: &Sheet<'_>,
        home: &Home,
        k: i64,
    ) -> Result<Option<FontKey>, LoadFault>
        requires given { IsHome self.now home.now }
        ensures key { IfOk result (KeyAnswer (fonts_of self.now sheet.now.page home.now) k) }
        ensures fault { IfErr result (KeyFault self.now home.now k) }
    {
        match *home {
            Home::Page => Ok(sheet.font(k)),
            Home::Packet { font, .. } => match self.key_of_local(self.numbered(font), k) {
                Ok(key) => Ok(key),
                Err(parts) => Err(LoadFault::Font(FontFault::BadSize(parts))),
            },
        }
    }

    /// What a command does that asks this.
    fn answer(&self, sheet: &Sheet<'_>, place: &Place, asked: &Asked) -> Result<Does, LoadFault>
        requires given { IsHome self.now place.now.home }
        requires short { first_of sheet.now.first place.now.home + place.now.at < 2 ^ 32 }
        ensures does { IfOk result (DoesAsked (fonts_of self.now sheet.now.page place.now.home) asked.now) }
        ensures fault { IfErr result (AskedFault self.now place.now.home (fonts_of self.now sheet.now.page place.now.home) (first_of sheet.now.first place.now.home + place.now.at) asked.now) }
    {
        match *asked {
            Asked::Nothing => Ok(Does::Nothing),
            Asked::Char(z) => Ok(Does::Sets(z)),
            Asked::Font(k) => match self.key_named(sheet, &place.home, k)? {
                Some(key) => Ok(Does::Selects(key)),
                None => Err(LoadFault::UndefinedFont(self.spot(sheet, place))),
            },
        }
    }

    /// Reads the command at a place.
    pub(crate) fn turn(&self, sheet: &Sheet<'_>, place: &Place) -> Result<Turn, LoadFault>
        requires inside { place.now.at < place.now.end }
        requires placed { IsPlaced sheet.now self.now place.now }
        ensures read { IfOk result (Reads sheet.now self.now place.now) }
        ensures fault { IfErr result (IsTurnFault self.now place.now.home (program_of self.now sheet.now.page place.now.home).scope (first_of sheet.now.first place.now.home) place.now.at (bytes_of self.now sheet.now.bytes place.now.home)) }
    {
        one_spelling();
        let (asked, next) = self.asked_at(sheet, place);
        match self.answer(sheet, place, &asked) {
            Ok(does) => Ok(Turn { next, does }),
            Err(fault) => Err(fault),
        }
    }
}
