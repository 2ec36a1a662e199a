//! What a search for the fonts of a page has still to run, and what it has met.
ghost use Rattle.std.specs.Prelude.{◌≡◌, ◌<◌, ◌≤◌, ◌+◌, ◌*◌, ℕ, false, true, List, [], ◌∷◌, length, slice_index_or, slice_set, OnOk, OnErr, IfOk, MatchOption};
ghost use Rattle.font_set.specs.Found.{Todo, IsMarked};
ghost use Rattle.font_set.specs.Marks.{padded};
ghost use Rattle.font_set.specs.Fonts.{place_of};
ghost use Rattle.font_set.specs.Programs.{key_by};
ghost use Rattle.dvi_doc.specs.Grammar.{IsNamed, IsSized};
ghost use Rattle.dvi_ops.specs.View.{def_view};

use crate::fonts::Fonts;
use dv_base::FontId;
use dvi_ops::Def;
use std::alloc::{AllocError, Global};
use std::marker::Model;

/// Where commands stand: in a page, or in the packet of a character.
#[derive(Clone, Copy, Drop)]
pub enum Home {
    Page,
    Packet { font: u32, code: u8 },
}

/// A place in the bytes of a frame, where they end, and the font that is selected there.
#[derive(Clone, Copy, Drop)]
pub struct Place {
    pub home: Home,
    pub at: usize,
    pub end: usize,
    pub font: Option<u32>,
}

/// The codes of a font, each of which has a mark.
const CODES: usize = 256;

/// The places that are open, and a mark for each character that was met: there are 256 for each font up to the last one of which
/// a character was met. Those of further fonts, up to the 1,000th, are false.
#[derive(Drop)]
pub struct Agenda {
    places: Vec<Place>,
    met: Vec<bool>,
    /// By the number of a font, modulo 16, the id that was found last.
    hints: [Option<FontId>; 16],
}

/// Makes the marks that are missing, up to this many.
fn widen(met: &mut Vec<bool>, many: usize) -> Result<(), AllocError>
    requires within { many ≤ 256000 }
    requires few { length met.old.items ≤ 256000 }
    ensures same { padded met.new.items ≡ padded met.old.items }
    ensures few { length met.new.items ≤ 256000 }
    ensures enough { OnOk result (many ≤ length met.new.items) }
{
    if met.len() < many {
        met.resize(many, false)?;
    }
    Ok(())
}

impl Model for Agenda {
    ghost use Rattle.font_set.specs.Found.{Todo};
    ghost use Rattle.font_set.specs.Marks.{padded};
    ghost use Rattle.std.specs.Prelude.{◌≤◌, length, reverse};

    ghost Value = { Todo };

    ghost view = { λ a. record { places = reverse a.places.items; met = padded a.met.items } };

    ghost invariant = { λ a. length a.met.items ≤ 256000 };
}

impl Agenda {
    /// One open place, and no character met.
    pub fn new(alloc: Global, place: &Place) -> Result<Agenda, AllocError>
        ensures places { IfOk result (λ a. a.places ≡ place.now ∷ []) }
        ensures none { IfOk result (λ a. (m : ℕ) → IsMarked a.met m → ⊥) }
    {
        let met = Vec::new(alloc);
        let mut places = Vec::new(alloc);
        places.push(*place)?;
        Ok(Agenda {
            places,
            met,
            hints: [None; 16],
        })
    }

    /// Takes the last open place; `None` exactly where none is open.
    pub fn next(&mut self) -> Option<Place>
        ensures place { MatchOption result ((self.old.places ≡ []) × (self.new.places ≡ [])) (λ p. self.old.places ≡ p ∷ self.new.places) }
        ensures met { self.new.met ≡ self.old.met }
    {
        self.places.pop()
    }

    /// Opens a place.
    pub fn push(&mut self, place: &Place) -> Result<(), AllocError>
        ensures places { OnOk result (self.new.places ≡ place.now ∷ self.old.places) }
        ensures met { self.new.met ≡ self.old.met }
    {
        self.places.push(*place)?;
        Ok(())
    }

    /// Whether a character was met.
    #[inline(always)]
    pub fn has_met(&self, font: FontId, code: u8) -> bool
        ensures { result ≡ slice_index_or self.now.met (font * 256 + code) false }
    {
        let at = font.number() as usize * CODES + code as usize;
        at < self.met.len() && self.met[at]
    }

    /// Notes that a character is met.
    pub fn meet(&mut self, font: FontId, code: u8) -> Result<(), AllocError>
        ensures places { self.new.places ≡ self.old.places }
        ensures met { OnOk result (self.new.met ≡ slice_set self.old.met (font * 256 + code) true) }
        ensures within { font * 256 + code < length self.old.met }
        ensures same { OnErr result (self.new ≡ self.old) }
    {
        let first = font.number() as usize * CODES;
        widen(&mut self.met, first + CODES)?;
        self.met[first + code as usize] = true;
        Ok(())
    }

    /// The id of the font that the document defines by the number k; `None` exactly where that font isn't known.
    pub fn id_of(&mut self, fonts: &Fonts, k: i64, font: &Def<'_>) -> Option<FontId>
        requires named { IsNamed (def_view font.now) }
        requires sized { IsSized (def_view font.now) }
        ensures value { result ≡ place_of fonts.now.fonts (key_by (def_view font.now)) }
        ensures same { self.new ≡ self.old }
    {
        let hint = &mut self.hints[k.rem_euclid(16) as usize];
        fonts.id_of(font, hint)
    }
}
