//! What is known of a font and its characters. Each look takes a constant number of steps.
ghost use Rattle.std.specs.Prelude.{◌≡◌, ◌<◌, ◌≤◌, ◌↔◌, ◌^◌, ℕ, pos, length, IfSome, IfOk, IfErr, Some, None, MatchOption, IsTrue, unsigned_abs, ◌≤ℤ◌};
ghost use Rattle.pk_raster.specs.Font.{Bitmap};
ghost use Rattle.pk_raster.specs.Laws.{AreRows};
ghost use Rattle.vf_packets.specs.Programs.{IsProgram};
ghost use Rattle.font_set.specs.Fonts.{size_at, state_at, space_at, fix_word_in, width_at, pixels_at, packet_at, bitmap_at, IsMismatched};
ghost use Rattle.font_set.specs.Programs.{id_of, key_in, key_of_first, head_of, locals_at};
ghost use Rattle.font_set.specs.Locals.{KeyAnswer, FirstAnswer, BadNumber, BadFirst, found_key, named_key};
ghost use Rattle.font_set.specs.Stored.{HasWanted};
ghost use Rattle.font_set.specs.Views.{bitmap_of};

use crate::fault::FontKeyParts;
use crate::fonts::Fonts;
use crate::local::local_key;
use dv_base::{FontId, scale};
use dvi_doc::FontKey;
use pk_raster::{Glyph, Look};

/// The key of an answer, where it has one.
fn found(answer: Result<Option<FontKey>, FontKeyParts>) -> Option<FontKey>
    ensures { found_key result ≡ named_key answer }
{
    match answer {
        Ok(key) => key,
        Err(_) => None,
    }
}

impl Fonts {
    /// The size of a font in DVI units.
    pub fn size(&self, id: FontId) -> u32
        requires given { id < length self.now.fonts }
        ensures value { result ≡ size_at self.now id }
        ensures positive { 0 < result }
        ensures bound { result < 2 ^ 27 }
    {
        self.key(id).size
    }

    /// The space of a font, a sixth of its size: a smaller move to the right is one between letters.
    pub fn space(&self, id: FontId) -> i64
        requires given { id < length self.now.fonts }
        ensures value { result ≡ space_at self.now id }
        ensures least { pos 0 ≤ℤ result }
        ensures most { result ≤ℤ pos (2 ^ 27) }
    {
        i64::from(self.size(id) / 6)
    }

    /// The width of a character in parts of the size, as a fix_word.
    pub(crate) fn fix_word(&self, id: FontId, code: u8) -> Option<i32>
        requires given { id < length self.now.fonts }
        ensures value { result ≡ fix_word_in (state_at self.now id) code }
        ensures fine { IfSome result (λ parts. unsigned_abs parts ≤ 2 ^ 24) }
    {
        self.font(id).fix_word(code)
    }

    /// The width of a character in DVI units; `None` exactly where the font isn't loaded or its TFM file has no width for the code.
    pub fn width(&self, id: FontId, code: u8) -> Option<i64>
        requires given { id < length self.now.fonts }
        ensures value { result ≡ width_at self.now id code }
        ensures bound { IfSome result (λ w. unsigned_abs w < 2 ^ 32) }
    {
        let parts = self.fix_word(id, code)?;
        Some(scale(self.size(id), parts))
    }

    /// The width of a character in pixels, rounded; `None` exactly where [`Fonts::width`] answers it.
    pub fn pixels(&self, id: FontId, code: u8) -> Option<i64>
        requires given { id < length self.now.fonts }
        ensures value { result ≡ pixels_at self.now id code }
        ensures bound { IfSome result (λ p. unsigned_abs p < 2 ^ 32) }
    {
        let width = self.width(id, code)?;
        Some(self.conv.round(width))
    }

    /// There are no more than 1,000 fonts; where bitmaps are wanted, a real font that is loaded has them; and each bitmap has whole rows of
    /// at most 65,535 bytes. A caller cites what this ensures; the call does nothing.
    pub fn bitmaps_are_rows(&self)
        ensures few { length self.now.fonts ≤ 1000 }
        ensures wanted { (id : ℕ) → HasWanted self.now.want (state_at self.now id) }
        ensures rows { (id code : ℕ) (bitmap : Bitmap) → bitmap_at self.now id code ≡ Some bitmap → AreRows bitmap }
    {
        let _ = &self.alloc;
    }

    /// The bitmap of a character; `None` exactly where the font isn't real, bitmaps aren't wanted, or its PK file has no bitmap
    /// of at most 65,535 bytes for the code. Its rows are whole bytes, with bits 0 behind their pixels.
    #[tactic(auto, unfolding(crate::specs::Fonts::bitmap_at))]
    pub fn glyph(&self, id: FontId, code: u8) -> Option<Glyph<'_>>
        requires given { id < length self.now.fonts }
        ensures value { MatchOption result (bitmap_at self.now id code ≡ None) (λ g. bitmap_at self.now id code ≡ Some (bitmap_of g)) }
        ensures rows { IfSome result (λ g. AreRows (bitmap_of g)) }
    {
        match self.font(id).pk()?.look(code) {
            Look::Here(glyph) => Some(glyph),
            Look::None => None,
            Look::TooBig(_) => None,
        }
    }

    /// The packet of a character: whole commands that a packet may hold; `None` exactly where the font isn't virtual or has no such
    /// packet.
    #[tactic(auto, unfolding(crate::specs::Fonts::packet_at))]
    pub fn packet(&self, id: FontId, code: u8) -> Option<&[u8]>
        requires given { id < length self.now.fonts }
        ensures value { MatchOption result (packet_at self.now id code ≡ None) (λ bytes. packet_at self.now id code ≡ Some bytes.now) }
        ensures commands { IfSome result (λ bytes. IsProgram bytes.now) }
        ensures short { IfSome result (λ bytes. length bytes.now ≤ 4194304) }
    {
        self.font(id).vf()?.packet(code)
    }

    /// The key that a number names in the packets of a font, where it names one.
    pub(crate) fn key_of_local(&self, id: FontId, k: i64) -> Result<Option<FontKey>, FontKeyParts>
        requires given { id < length self.now.fonts }
        ensures key { IfOk result (KeyAnswer (locals_at self.now id) k) }
        ensures bad { IfErr result (BadNumber self.now id k) }
    {
        let Some(vf) = self.font(id).vf() else {
            return Ok(None);
        };
        match vf.local(k) {
            Some(local) => Ok(Some(local_key(&self.units, self.size(id), local)?)),
            None => Ok(None),
        }
    }

    /// The key of a font's first local font, in which its packets begin.
    pub(crate) fn first_key(&self, id: FontId) -> Result<Option<FontKey>, FontKeyParts>
        requires given { id < length self.now.fonts }
        ensures key { IfOk result (FirstAnswer (head_of (locals_at self.now id))) }
        ensures bad { IfErr result (BadFirst self.now id) }
    {
        let Some(vf) = self.font(id).vf() else {
            return Ok(None);
        };
        match vf.first_local() {
            Some(k) => Ok(self.key_of_local(id, k)?),
            None => Ok(None),
        }
    }

    /// The font that a number names in the packets of a font; `None` exactly where the font isn't virtual, has no such local font,
    /// or that local font isn't known.
    pub fn local(&self, id: FontId, k: i64) -> Option<FontId>
        requires given { id < length self.now.fonts }
        ensures value { result ≡ id_of self.now (key_in (locals_at self.now id) k) }
        ensures given { IfSome result (λ local. local < length self.now.fonts) }
    {
        match found(self.key_of_local(id, k)) {
            Some(key) => self.id(&key),
            None => None,
        }
    }

    /// The font in which the packets of a font begin; `None` exactly where the font isn't virtual, has no local font, or its first
    /// one isn't known.
    pub fn first_local(&self, id: FontId) -> Option<FontId>
        requires given { id < length self.now.fonts }
        ensures value { result ≡ id_of self.now (key_of_first (head_of (locals_at self.now id))) }
        ensures given { IfSome result (λ local. local < length self.now.fonts) }
    {
        match self.first_key(id) {
            Ok(Some(key)) => self.id(&key),
            Ok(None) | Err(_) => None,
        }
    }

    /// Whether a font is loaded and the checksums of its key and its TFM file, or those of its TFM file and its PK or VF file, are
    /// both not 0 and differ.
    pub fn mismatch(&self, id: FontId) -> bool
        requires given { id < length self.now.fonts }
        ensures { IsTrue result ↔ IsMismatched self.now id }
    {
        let (key, font) = self.entry(id);
        font.is_mismatched(key.checksum)
    }
}
