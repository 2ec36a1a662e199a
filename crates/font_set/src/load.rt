//! The fonts of a page: each font that a frame of the page selects becomes known, and each in which a character is set is loaded.
//!
//! A frame is the page or a packet. The search goes over the commands of a frame; where a character is set whose packet wasn't run
//! before, it goes over that packet first. So each packet is read once, whatever runs it, and packets may stand in one another without
//! limit, or run themselves.
ghost use Rattle.std.specs.Prelude.{◌≡◌, ◌<◌, ◌≤◌, ◌^◌, ◌+◌, ◌-◌, ◌*◌, MatchBool, ℕ, pos, List, [], ◌∷◌, length, Option, None, IfOk, IfErr, OnOk, OnErr};
ghost use Rattle.dvi_ops.specs.Placed.{Lexes};
ghost use Rattle.font_set.specs.Key.{IsKey};
ghost use Rattle.font_set.specs.Fonts.{FontSet, state_at, width_at, IsLoaded};
ghost use Rattle.font_set.specs.Covers.{Covers, IsShown, HasBitmap};
ghost use Rattle.font_set.specs.Frames.{acts_of};
ghost use Rattle.font_set.specs.Views.{key_of};
ghost use Rattle.font_set.specs.declared.agenda.Home.TheVariants as home;
ghost use Rattle.font_set.specs.declared.turn.Does.TheVariants as does;
ghost use Rattle.dv_base.specs.Shelf.{Contents, Told, Keeps};
ghost use Rattle.font_set.specs.LoadFaults.{LoadFaultIs};
ghost use Rattle.font_set.specs.Gains.{Gains, GainsFor};
ghost use Rattle.dvi_doc.specs.View.{IsRead};
ghost use Rattle.font_set.specs.Locals.{FirstAnswer};
ghost use Rattle.font_set.specs.Search.{LearntFirst, IsFirstKey, IsCharFault, IsLookFault, MeetFault, OpenFault, BeginsIn, NoBegin, IsKeyOf, FirstNotKnown, InOrder, program_or, bytes_of, page_in, page_of};
ghost use Rattle.font_set.specs.Found.{FoundAt, Reads, Steps, Opens, Meets, IsPage, IsPlaced, WasMet, LoadsSet};

use crate::agenda::{Agenda, Home, Place};
use crate::fault::{FontFault, LoadFault};
use crate::font::Font;
use crate::fonts::Fonts;
use crate::turn::{Does, Sheet, Turn};
use dv_base::{FontId, Shelf};
use dvi_doc::{Doc, FontKey};
use dvi_ops::{one_reading, one_spelling};
use pk_raster::{Look, Pk};
use std::alloc::AllocError;

/// How a packet begins: how many bytes it has, and in which font.
#[derive(Clone, Copy, Drop)]
pub struct Begin {
    pub end: usize,
    pub first: Option<FontKey>,
}

impl From<FontFault> for LoadFault {
    ghost use Rattle.font_set.specs.declared.fault.LoadFault.TheVariants as fault;

    ghost from_gives = { λ f e. e ≡ fault.Font f };

    fn from(fault: FontFault) -> LoadFault {
        LoadFault::Font(fault)
    }
}

impl From<AllocError> for LoadFault {
    ghost use Rattle.font_set.specs.declared.fault.FontFault.TheVariants as font;
    ghost use Rattle.font_set.specs.declared.fault.LoadFault.TheVariants as fault;

    ghost from_gives = { λ _ e. e ≡ fault.Font font.OutOfMemory };

    fn from(_fault: AllocError) -> LoadFault {
        LoadFault::Font(FontFault::OutOfMemory)
    }
}

impl Fonts {
    /// The code of a character that can be shown.
    fn shown(&self, id: FontId, z: i64) -> Result<u8, LoadFault>
        requires given { id < length self.now.fonts }
        requires loaded { IsLoaded (state_at self.now id) }
        ensures code { IfOk result (λ code. (z ≡ pos code) × (code < 256)) }
        ensures shown { IfOk result (λ code. IsShown (state_at self.now id) code) }
        ensures fault { IfErr result (IsCharFault self.now id z) }
    {
        let Ok(code) = u8::try_from(z) else {
            return Err(LoadFault::NoChar(id, z));
        };
        if self.width(id, code).is_none() {
            return Err(LoadFault::NoChar(id, z));
        }
        self.drawn(id, code)?;
        Ok(code)
    }

    /// Looks for the bitmap or the packet of a character that has a width.
    fn drawn(&self, id: FontId, code: u8) -> Result<(), LoadFault>
        requires given { id < length self.now.fonts }
        requires loaded { IsLoaded (state_at self.now id) }
        requires wide { width_at self.now id code ≡ None → ⊥ }
        ensures ok { OnOk result (IsShown (state_at self.now id) code) }
        ensures fault { IfErr result (IsCharFault self.now id (pos code)) }
    {
        match self.font(id) {
            Font::Known => Ok(()),
            Font::Real { pk, .. } => has_bitmap(pk, id, code),
            Font::Virtual { vf, .. } => match vf.packet(code) {
                Some(_) => Ok(()),
                None => Err(LoadFault::NoPacket(id, code)),
            },
        }
    }

    /// How the packet of a character begins: that of a real font has no bytes.
    fn begin(&self, id: FontId, code: u8) -> Result<Begin, FontFault>
        requires given { id < length self.now.fonts }
        ensures end { IfOk result (λ b. length (bytes_of self.now [] (home.Packet id code)) ≡ b.end) }
        ensures short { IfOk result (λ b. b.end ≤ 4194304) }
        ensures lexed { OnOk result (Lexes 0 (bytes_of self.now [] (home.Packet id code)) (program_or self.now id code).commands) }
        ensures first { IfOk result (λ b. FirstAnswer (program_or self.now id code).first b.first) }
        ensures fault { IfErr result (NoBegin self.now id code) }
    {
        one_reading();
        let Some(bytes) = self.packet(id, code) else {
            return Ok(Begin {
                end: 0,
                first: None,
            });
        };
        let end = bytes.len();
        match self.first_key(id) {
            Ok(first) => Ok(Begin { end, first }),
            Err(parts) => Err(FontFault::BadSize(parts)),
        }
    }
}

impl Fonts {
    /// Makes the first font of a packet known.
    fn know_first(&mut self, first: Option<FontKey>) -> Result<Option<u32>, FontFault>
        requires { IsFirstKey first }
        ensures learnt { IfOk result (λ o. LearntFirst self.old self.new first o) }
        ensures same { OnErr result (self.new ≡ self.old) }
        ensures gains { (held : Option Contents) → Gains held self.old self.new (λ i. ⊥) (IsKeyOf first) }
        ensures fault { IfErr result (FirstNotKnown self.old first) }
    {
        match first {
            None => Ok(None),
            Some(key) => {
                let id = self.know(&key)?;
                Ok(Some(id.number()))
            }
        }
    }

    /// Opens the packet of a character.
    fn open_packet(&mut self, id: FontId, code: u8, agenda: &mut Agenda) -> Result<(), FontFault>
        requires given { id < length self.old.fonts }
        requires shown { IsShown (state_at self.old id) code }
        ensures opens { OnOk result (Opens self.old self.new id code agenda.old agenda.new) }
        ensures gains { (held : Option Contents) → Gains held self.old self.new (λ i. ⊥) (BeginsIn self.new id (pos code)) }
        ensures fault { IfErr result (OpenFault self.new id (pos code)) }
    {
        agenda.meet(id, code)?;
        let begin = self.begin(id, code)?;
        let first = self.know_first(begin.first)?;
        let end = begin.end;
        let font = id.number();
        let home = Home::Packet { font, code };
        let place = Place {
            home,
            at: 0,
            end,
            font: first,
        };
        agenda.push(&place)?;
        Ok(())
    }

    /// Meets a character of a font for the first time.
    fn meet<S: Shelf>(
        &mut self,
        shelf: &mut S,
        id: FontId,
        z: i64,
        agenda: &mut Agenda,
    ) -> Result<(), LoadFault>
        requires given { id < length self.old.fonts }
        ensures meets { OnOk result (Meets self.old self.new id z agenda.old agenda.new) }
        ensures gains { Gains (S.told shelf.old).held self.old self.new (λ i. i ≡ id) (BeginsIn self.new id z) }
        ensures fault { IfErr result (MeetFault self.new id z (S.told shelf.old) (S.told shelf.new)) }
        ensures keeps { Keeps (S.told shelf.old) (S.told shelf.new) }
    {
        self.load(shelf, id)?;
        let code = self.shown(id, z)?;
        self.open_packet(id, code, agenda)?;
        Ok(())
    }

    /// Passes over a command that is nothing to fonts.
    fn pass(
        &self,
        sheet: &Sheet<'_>,
        place: &Place,
        turn: &Turn,
        agenda: &mut Agenda,
    ) -> Result<(), LoadFault>
        requires read { Reads sheet.now self.now place.now turn.now }
        requires does { turn.now.does ≡ does.Nothing }
        ensures steps { OnOk result (Steps sheet.now place.now self.now self.now agenda.old agenda.new) }
        ensures fault { IfErr result (λ e. (old new : Told) → LoadFaultIs self.now sheet.now.page old new e) }
    {
        agenda.push(&moved(place, turn.next, place.font))?;
        Ok(())
    }

    /// Selects a font.
    fn select(
        &mut self,
        sheet: &Sheet<'_>,
        place: &Place,
        turn: &Turn,
        key: &FontKey,
        agenda: &mut Agenda,
    ) -> Result<(), LoadFault>
        requires read { Reads sheet.now self.old place.now turn.now }
        requires does { turn.now.does ≡ does.Selects key.now }
        requires key { IsKey (key_of key.now) }
        requires found { (old : FontSet) × FoundAt sheet.now old self.old agenda.old.met (place.now ∷ agenda.old.places) }
        ensures steps { OnOk result (Steps sheet.now place.now self.old self.new agenda.old agenda.new) }
        ensures gains { (held : Option Contents) → GainsFor held self.old self.new sheet.now.page }
        ensures fault { IfErr result (λ e. (old new : Told) → LoadFaultIs self.new sheet.now.page old new e) }
    {
        let id = self.know(key)?;
        let font = Some(id.number());
        agenda.push(&moved(place, turn.next, font))?;
        Ok(())
    }

    /// Sets a character.
    fn set<S: Shelf>(
        &mut self,
        shelf: &mut S,
        sheet: &Sheet<'_>,
        place: &Place,
        turn: &Turn,
        z: i64,
        agenda: &mut Agenda,
    ) -> Result<(), LoadFault>
        requires read { Reads sheet.now self.old place.now turn.now }
        requires does { turn.now.does ≡ does.Sets z }
        requires found { (old : FontSet) × FoundAt sheet.now old self.old agenda.old.met (place.now ∷ agenda.old.places) }
        ensures steps { OnOk result (Steps sheet.now place.now self.old self.new agenda.old agenda.new) }
        ensures gains { GainsFor (S.told shelf.old).held self.old self.new sheet.now.page }
        ensures fault { IfErr result (LoadFaultIs self.new sheet.now.page (S.told shelf.old) (S.told shelf.new)) }
        ensures keeps { Keeps (S.told shelf.old) (S.told shelf.new) }
    {
        let Some(number) = place.font else {
            return Err(LoadFault::NoFont(self.spot(sheet, place)));
        };
        let id = self.numbered(number);
        agenda.push(&moved(place, turn.next, place.font))?;
        if was_met(agenda, id, z) {
            return Ok(());
        }
        self.meet(shelf, id, z, agenda)
    }

    /// Runs the command at the last open place.
    fn run_command<S: Shelf>(
        &mut self,
        shelf: &mut S,
        sheet: &Sheet<'_>,
        place: &Place,
        agenda: &mut Agenda,
    ) -> Result<(), LoadFault>
        requires inside { place.now.at < place.now.end }
        requires found { (old : FontSet) × FoundAt sheet.now old self.old agenda.old.met (place.now ∷ agenda.old.places) }
        ensures steps { OnOk result (Steps sheet.now place.now self.old self.new agenda.old agenda.new) }
        ensures gains { GainsFor (S.told shelf.old).held self.old self.new sheet.now.page }
        ensures fault { IfErr result (LoadFaultIs self.new sheet.now.page (S.told shelf.old) (S.told shelf.new)) }
        ensures keeps { Keeps (S.told shelf.old) (S.told shelf.new) }
    {
        let turn = self.turn(sheet, place)?;
        let does = turn.does;
        match does {
            Does::Nothing => self.pass(sheet, place, &turn, agenda),
            Does::Selects(key) => self.select(sheet, place, &turn, &key, agenda),
            Does::Sets(z) => self.set(shelf, sheet, place, &turn, z, agenda),
        }
    }

    /// Goes on from the last open place: passes over what asks nothing of fonts, and runs the command behind it, whatever it asks.
    fn step<S: Shelf>(
        &mut self,
        shelf: &mut S,
        sheet: &Sheet<'_>,
        place: &Place,
        agenda: &mut Agenda,
    ) -> Result<(), LoadFault>
        requires inside { place.now.at < place.now.end }
        requires found { (old : FontSet) × FoundAt sheet.now old self.old agenda.old.met (place.now ∷ agenda.old.places) }
        ensures steps { OnOk result (Steps sheet.now place.now self.old self.new agenda.old agenda.new) }
        ensures gains { GainsFor (S.told shelf.old).held self.old self.new sheet.now.page }
        ensures fault { IfErr result (LoadFaultIs self.new sheet.now.page (S.told shelf.old) (S.told shelf.new)) }
        ensures keeps { Keeps (S.told shelf.old) (S.told shelf.new) }
    {
        one_spelling();
        let at = self.skimmed(sheet, place, agenda);
        let ahead = moved(place, at, place.font);
        if ahead.at >= ahead.end {
            return Ok(());
        }
        self.run_command(shelf, sheet, &ahead, agenda)
    }

    /// Goes over all frames of a page.
    fn search<S: Shelf>(&mut self, shelf: &mut S, sheet: &Sheet<'_>) -> Result<(), LoadFault>
        requires { IsPage sheet.now }
        ensures covers { OnOk result (Covers self.new (acts_of sheet.now.page)) }
        ensures order { OnOk result (InOrder self.old self.new sheet.now.page) }
        ensures loads { OnOk result (LoadsSet self.old self.new (acts_of sheet.now.page)) }
        ensures gains { GainsFor (S.told shelf.old).held self.old self.new sheet.now.page }
        ensures fault { IfErr result (LoadFaultIs self.new sheet.now.page (S.told shelf.old) (S.told shelf.new)) }
        ensures keeps { Keeps (S.told shelf.old) (S.told shelf.new) }
    {
        let alloc = self.alloc;
        let mut agenda = Agenda::new(alloc, &first_place(sheet))?;
        while let Some(place) = agenda.next() {
            if place.at >= place.end {
                continue;
            }
            // Almost always this is all: no fault's value, which is large, is made for it.
            let ran = self.advance(sheet, &place, &mut agenda)?;
            if ran {
                continue;
            }
            self.step(shelf, sheet, &place, &mut agenda)?;
        }
        Ok(())
    }

    /// Makes known each font that a page, or a packet that the page runs, selects, and loads each one in which a character is set.
    /// The set then covers the page. No font is loaded in which no character is set, and keys become known in the order in which the
    /// page and its packets select them. Where the page is refused, the fonts that became known or were loaded until then stay so.
    pub fn load_page<S: Shelf>(
        &mut self,
        shelf: &mut S,
        doc: &Doc<'_>,
        page: usize,
    ) -> Result<(), LoadFault>
        requires read { IsRead doc.now }
        requires short { length doc.now.bytes < 2 ^ 31 }
        requires page { page < length doc.now.pages }
        ensures covers { OnOk result (Covers self.new (acts_of (page_of doc.now page))) }
        ensures order { OnOk result (InOrder self.old self.new (page_of doc.now page)) }
        ensures loads { OnOk result (LoadsSet self.old self.new (acts_of (page_of doc.now page))) }
        ensures gains { GainsFor (S.told shelf.old).held self.old self.new (page_of doc.now page) }
        ensures fault { IfErr result (LoadFaultIs self.new (page_of doc.now page) (S.told shelf.old) (S.told shelf.new)) }
        ensures keeps { Keeps (S.told shelf.old) (S.told shelf.new) }
    {
        let (first, bytes) = page_bytes(doc, page);
        let sheet = Sheet { doc, first, bytes };
        self.search(shelf, &sheet)
    }
}

/// Looks for the bitmap of a character, where bitmaps are wanted.
fn has_bitmap(pk: &Option<Pk>, id: FontId, code: u8) -> Result<(), LoadFault>
    ensures ok { OnOk result (HasBitmap pk.now code) }
    ensures fault { IfErr result (IsLookFault pk.now id code) }
{
    let Some(pk) = pk else {
        return Ok(());
    };
    match pk.look(code) {
        Look::Here(_) => Ok(()),
        Look::None => Err(LoadFault::NoGlyph(id, code)),
        Look::TooBig(bytes) => Err(LoadFault::GlyphTooBig(id, code, bytes)),
    }
}

/// The place in the file of the first command of a page, and the bytes of its commands.
fn page_bytes<'a>(doc: &Doc<'a>, page: usize) -> (u32, &'a [u8])
    requires read { IsRead doc.now }
    requires short { length doc.now.bytes < 2 ^ 31 }
    requires page { page < length doc.now.pages }
    ensures page { page_of doc.now page ≡ page_in doc.now.fonts result.0 result.1.now }
    ensures is_page { IsPage (record { page = page_in doc.now.fonts result.0 result.1.now; bytes = result.1.now; first = result.0 }) }
{
    one_reading();
    let found = &doc.pages()[page];
    (found.first, doc.body(page))
}

/// Where the search of a page begins.
fn first_place(sheet: &Sheet<'_>) -> Place
    ensures { result ≡ record { home = home.Page; at = 0; end = length sheet.now.bytes; font = None } }
{
    let bytes = sheet.bytes;
    let end = bytes.len();
    Place {
        home: Home::Page,
        at: 0,
        end,
        font: None,
    }
}

/// A place further on in the same frame.
pub(crate) fn moved(place: &Place, at: usize, font: Option<u32>) -> Place
    ensures { result ≡ record { home = place.now.home; at = at; end = place.now.end; font = font } }
{
    let home = place.home;
    let end = place.end;
    Place {
        home,
        at,
        end,
        font,
    }
}

/// Whether a character was met: never where its code isn't from 0 to 255.
fn was_met(agenda: &Agenda, font: FontId, z: i64) -> bool
    ensures { MatchBool result (WasMet agenda.now.met font z) (WasMet agenda.now.met font z → ⊥) }
{
    match u8::try_from(z) {
        Ok(code) => agenda.has_met(font, code),
        Err(_) => false,
    }
}
