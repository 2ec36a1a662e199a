//! Commands of a page that need no file and make no font known: they are run at once, without a look at what else a command may do.
ghost use Rattle.std.specs.Prelude.{ℕ, ◌≡◌, ◌∷◌, ◌<◌, ◌+◌, pos, length, None, Some, IsTrue, IsFalse, IfOk, IfSome};
ghost use Rattle.dvi_doc.specs.declared.font.FontKey.{FontKey};
ghost use Rattle.font_set.specs.Key.{IsKey};
ghost use Rattle.font_set.specs.Views.{key_of};
ghost use Rattle.font_set.specs.Fonts.{FontSet, state_at, packet_at, place_of};
ghost use Rattle.font_set.specs.Covers.{IsShown, HasBitmap};
ghost use Rattle.font_set.specs.Found.{FoundAt, IsPlaced, Reads, Steps};
ghost use Rattle.font_set.specs.declared.turn.Does.TheVariants as does;

use crate::agenda::{Agenda, Home, Place};
use crate::font::Font;
use crate::fonts::Fonts;
use crate::load::moved;
use crate::turn::Sheet;
use dv_base::FontId;
use dvi_ops::{Cmd, next_cmd, one_spelling};
use pk_raster::{Look, Pk};
use std::alloc::AllocError;

/// Whether a character has a bitmap, where bitmaps are wanted.
fn is_drawn(pk: &Option<Pk>, code: u8) -> bool
    ensures { IsTrue result → HasBitmap pk.now code }
{
    let Some(pk) = pk else {
        return true;
    };
    match pk.look(code) {
        Look::Here(_) => true,
        Look::None => false,
        Look::TooBig(_) => false,
    }
}

impl Fonts {
    /// Whether a font is real and loaded, and has a character.
    fn is_glyph(&self, id: FontId, code: u8) -> bool
        requires given { id < length self.now.fonts }
        ensures shown { IsTrue result → IsShown (state_at self.now id) code }
        ensures real { IsTrue result → packet_at self.now id code ≡ None }
    {
        if self.fix_word(id, code).is_none() {
            return false;
        }
        match self.font(id) {
            Font::Known => false,
            Font::Real { pk, .. } => is_drawn(pk, code),
            Font::Virtual { .. } => false,
        }
    }

    /// The font and the code of a character in one byte at a place of a page, where it is a glyph.
    fn glyph_at(&self, sheet: &Sheet<'_>, place: &Place) -> Option<(FontId, u8)>
        requires inside { place.now.at < place.now.end }
        requires placed { IsPlaced sheet.now self.now place.now }
        requires below { (id : ℕ) → place.now.font ≡ Some id → id < length self.now.fonts }
        ensures font { IfSome result (λ r. place.now.font ≡ Some r.0) }
        ensures small { IfSome result (λ r. r.1 < 256) }
        ensures shown { IfSome result (λ r. IsShown (state_at self.now r.0) r.1) }
        ensures real { IfSome result (λ r. packet_at self.now r.0 r.1 ≡ None) }
        ensures reads { IfSome result (λ r. Reads sheet.now self.now place.now (record { next = place.now.at + 1; does = does.Sets (pos r.1) })) }
    {
        one_spelling();
        let Home::Page = place.home else {
            return None;
        };
        let number = place.font?;
        let code = sheet.bytes[place.at];
        let id = self.numbered(number);
        if code < 128 && self.is_glyph(id, code) {
            Some((id, code))
        } else {
            None
        }
    }

    /// Meets the character in one byte at a place of a page, where it is a glyph that was not met; answers whether it is. Its packet, which
    /// has no bytes, is opened.
    fn meet_glyph(
        &self,
        sheet: &Sheet<'_>,
        place: &Place,
        agenda: &mut Agenda,
    ) -> Result<bool, AllocError>
        requires inside { place.now.at < place.now.end }
        requires found { (old : FontSet) × FoundAt sheet.now old self.now agenda.old.met (place.now ∷ agenda.old.places) }
        ensures steps { IfOk result (λ met. IsTrue met → Steps sheet.now place.now self.now self.now agenda.old agenda.new) }
        ensures same { IfOk result (λ met. IsFalse met → agenda.new ≡ agenda.old) }
    {
        let Some(found) = self.glyph_at(sheet, place) else {
            return Ok(false);
        };
        let (id, code) = found;
        if agenda.has_met(id, code) {
            return Ok(false);
        }
        agenda.push(&moved(place, place.at + 1, place.font))?;
        agenda.meet(id, code)?;
        agenda.push(&Place {
            home: Home::Packet {
                font: id.number(),
                code,
            },
            at: 0,
            end: 0,
            font: None,
        })?;
        Ok(true)
    }

    /// The font that the command at a place of a page selects, where it is known, and the place behind the command.
    fn known_at(
        &self,
        sheet: &Sheet<'_>,
        place: &Place,
        agenda: &mut Agenda,
    ) -> Option<(FontId, usize)>
        requires inside { place.now.at < place.now.end }
        requires placed { IsPlaced sheet.now self.now place.now }
        ensures selects { IfSome result (λ r. (key : FontKey) × Reads sheet.now self.now place.now (record { next = r.1; does = does.Selects key }) × (place_of self.now.fonts (key_of key) ≡ Some r.0)) }
        ensures same { agenda.new ≡ agenda.old }
    {
        one_spelling();
        // The proof cites that each key of the table is one that may be selected.
        let _ = &self.table;
        let Home::Page = place.home else {
            return None;
        };
        let Ok((cmd, next)) = next_cmd(sheet.bytes, place.at) else {
            return None;
        };
        let Cmd::Fnt(k) = cmd else {
            return None;
        };
        let font = sheet.definition(k)?;
        let id = agenda.id_of(self, k, &font)?;
        Some((id, next))
    }

    /// Selects the font that the command at a place of a page names, where it is known; answers whether it is.
    fn select_known(
        &self,
        sheet: &Sheet<'_>,
        place: &Place,
        agenda: &mut Agenda,
    ) -> Result<bool, AllocError>
        requires inside { place.now.at < place.now.end }
        requires found { (old : FontSet) × FoundAt sheet.now old self.now agenda.old.met (place.now ∷ agenda.old.places) }
        ensures steps { IfOk result (λ ran. IsTrue ran → Steps sheet.now place.now self.now self.now agenda.old agenda.new) }
        ensures same { IfOk result (λ ran. IsFalse ran → agenda.new ≡ agenda.old) }
    {
        let Some(found) = self.known_at(sheet, place, agenda) else {
            return Ok(false);
        };
        let (id, next) = found;
        agenda.push(&moved(place, next, Some(id.number())))?;
        Ok(true)
    }

    /// Runs the command at a place of a page, where it meets a glyph of a loaded font or selects a font that is known; answers whether it
    /// does.
    fn run_quick(
        &self,
        sheet: &Sheet<'_>,
        place: &Place,
        agenda: &mut Agenda,
    ) -> Result<bool, AllocError>
        requires inside { place.now.at < place.now.end }
        requires found { (old : FontSet) × FoundAt sheet.now old self.now agenda.old.met (place.now ∷ agenda.old.places) }
        ensures steps { IfOk result (λ ran. IsTrue ran → Steps sheet.now place.now self.now self.now agenda.old agenda.new) }
        ensures same { IfOk result (λ ran. IsFalse ran → agenda.new ≡ agenda.old) }
    {
        let met = self.meet_glyph(sheet, place, agenda)?;
        if met {
            return Ok(true);
        }
        self.select_known(sheet, place, agenda)
    }

    /// Goes on from the last open place: passes over what asks nothing of fonts, and runs the command behind it, where it is one that
    /// [`Fonts::run_quick`] runs; answers whether it did so, else nothing is done.
    // Almost all of a page that asks something of fonts is such, and no fault's value is made for it.
    pub(crate) fn advance(
        &self,
        sheet: &Sheet<'_>,
        place: &Place,
        agenda: &mut Agenda,
    ) -> Result<bool, AllocError>
        requires inside { place.now.at < place.now.end }
        requires found { (old : FontSet) × FoundAt sheet.now old self.now agenda.old.met (place.now ∷ agenda.old.places) }
        ensures steps { IfOk result (λ ran. IsTrue ran → Steps sheet.now place.now self.now self.now agenda.old agenda.new) }
        ensures same { IfOk result (λ ran. IsFalse ran → agenda.new ≡ agenda.old) }
    {
        one_spelling();
        let at = self.skimmed(sheet, place, agenda);
        let ahead = moved(place, at, place.font);
        if ahead.at >= ahead.end {
            return Ok(true);
        }
        self.run_quick(sheet, &ahead, agenda)
    }
}
