//! The fonts of a run, by key and by number.
ghost use Rattle.std.specs.Prelude.{◌≡◌, ◌<◌, ◌≤◌, ◌↔◌, ℕ, List, [], length, slice_get, Some, IfSome, IfOk, IfErr, OnOk, OnErr, IsTrue};
ghost use Rattle.dv_base.specs.UnitPixels.{pixels_of_one};
ghost use Rattle.dvi_ops.specs.View.{def_view};
ghost use Rattle.dvi_doc.specs.Grammar.{IsNamed, IsSized};
ghost use Rattle.font_set.specs.Key.{IsKey};
ghost use Rattle.font_set.specs.Fonts.{FontSet, place_of, learn, state_at, key_at};
ghost use Rattle.font_set.specs.Programs.{key_by};
ghost use Rattle.font_set.specs.FontFaults.{NotKnown};
ghost use Rattle.font_set.specs.Growth.{Extends, Learnt, keys_now};
ghost use Rattle.font_set.specs.Stored.{AreUnits, IsSound, IsStored, entry_of, state_of};
ghost use Rattle.font_set.specs.Views.{key_of, kind_of};

use crate::fault::FontFault;
use crate::font::Font;
use crate::want::{Kind, Want};
use dv_base::{Conv, FontId, Units};
use dvi_doc::FontKey;
use dvi_ops::Def;
use indexmap::IndexMap;
use std::alloc::Global;
use std::marker::Model;

/// The fonts that a run knows. A font's number is its place among them, so the fonts are numbered in the order in which they became
/// known.
#[derive(Drop)]
pub struct Fonts {
    pub(crate) alloc: Global,
    pub(crate) units: Units,
    pub(crate) conv: Conv,
    pub(crate) want: Want,
    pub(crate) table: IndexMap<FontKey, Font>,
    /// The bytes of all bitmaps.
    pub(crate) kept_bytes: u64,
}

impl Model for Fonts {
    ghost use Rattle.std.specs.Prelude.{◌≡◌};
    ghost use Rattle.dv_base.specs.UnitPixels.{pixels_of_one};
    ghost use Rattle.font_set.specs.Fonts.{FontSet, raster_bytes};

    ghost Value = { FontSet };

    ghost use Rattle.font_set.specs.Stored.{entries_of, AreStored, AreUnits, HaveWanted};

    ghost view = { λ f. record { units = f.units; want = f.want; fonts = entries_of f.table.entries } };

    ghost invariant = { λ f. AreUnits f.units × (f.conv ≡ pixels_of_one f.units) × AreStored (entries_of f.table.entries) × (f.kept_bytes ≡ raster_bytes (entries_of f.table.entries)) × HaveWanted f.want (entries_of f.table.entries) };
}

/// The id of the font at a place.
fn id_at(place: usize) -> FontId
    requires { place < 1000 }
    ensures { result ≡ place }
{
    match FontId::new(place as u32) {
        Some(id) => id,
        None => unreachable!(),
    }
}

/// Whether a key is that of a definition: it has the name and the three numbers.
fn is_key_by(key: &FontKey, font: &Def<'_>) -> bool
    ensures { IsTrue result ↔ (key_of key.now ≡ key_by (def_view font.now)) }
{
    key.checksum == font.checksum
        && key.size == font.size.unsigned_abs()
        && key.design == font.design.unsigned_abs()
        && key.name.as_str().as_bytes() == font.name
}

impl Fonts {
    /// No fonts yet. `conv` is what [`Conv::new`] gives for the units.
    pub fn new(alloc: Global, units: Units, conv: Conv, want: Want) -> Fonts
        requires units { AreUnits units }
        requires conv { conv ≡ pixels_of_one units }
        ensures { result ≡ record { units = units; want = want; fonts = [] } }
    {
        Fonts {
            alloc,
            units,
            conv,
            want,
            table: IndexMap::new(alloc),
            kept_bytes: 0,
        }
    }

    /// The id of a font: the one that it has already, or the next one. It is refused where 1,000 other fonts are known.
    pub fn know(&mut self, key: &FontKey) -> Result<FontId, FontFault>
        requires key { IsKey (key_of key.now) }
        ensures id { IfOk result (λ id. place_of self.new.fonts (key_of key.now) ≡ Some id) }
        ensures given { IfOk result (λ id. id < length self.new.fonts) }
        ensures learns { OnOk result (self.new ≡ record self.old { fonts = learn self.old.fonts (key_of key.now) }) }
        ensures learnt { OnOk result (Learnt self.old self.new (key_of key.now)) }
        ensures same { OnErr result (self.new ≡ self.old) }
        ensures fault { IfErr result (NotKnown self.old.fonts (key_of key.now)) }
    {
        if let Some(place) = self.table.get_index_of(key) {
            return Ok(id_at(place));
        }
        let place = self.table.len();
        if place == FontId::MOST as usize {
            return Err(FontFault::TooManyFonts);
        }
        match self.table.insert(*key, Font::Known) {
            Ok(_) => Ok(id_at(place)),
            Err(_) => Err(FontFault::OutOfMemory),
        }
    }

    /// The id of a font that is known; `None` exactly where it isn't.
    pub fn id(&self, key: &FontKey) -> Option<FontId>
        ensures value { result ≡ place_of self.now.fonts (key_of key.now) }
        ensures given { IfSome result (λ id. id < length self.now.fonts) }
    {
        let place = self.table.get_index_of(key)?;
        Some(id_at(place))
    }

    /// The id of the font that a definition of a document names; `None` exactly where that font isn't known.
    ///
    /// The hint may be any id or none, and becomes the answer. Where it is the answer already, the key that the set has is compared with
    /// the definition, and no key is made. So a caller that selects a font again and again keeps a hint for it.
    pub fn id_of(&self, font: &Def<'_>, hint: &mut Option<FontId>) -> Option<FontId>
        requires named { IsNamed (def_view font.now) }
        requires sized { IsSized (def_view font.now) }
        ensures value { result ≡ place_of self.now.fonts (key_by (def_view font.now)) }
        ensures given { IfSome result (λ id. id < length self.now.fonts) }
        ensures hint { hint.new ≡ result }
    {
        if let Some(id) = *hint {
            if self.is_font(id, font) {
                return Some(id);
            }
        }
        *hint = self.id(&FontKey::of(font));
        *hint
    }

    /// Whether an id is that of the font that a definition names.
    fn is_font(&self, id: FontId, font: &Def<'_>) -> bool
        ensures { IsTrue result ↔ (place_of self.now.fonts (key_by (def_view font.now)) ≡ Some id) }
    {
        // The keys of a table differ, so the font is found at no other place.
        if self.table.len() <= id.number() as usize {
            return false;
        }
        let (key, _) = self.entry(id);
        is_key_by(key, font)
    }

    /// How many fonts are known.
    pub fn count(&self) -> u32
        ensures value { result ≡ length self.now.fonts }
        ensures few { result ≤ 1000 }
    {
        self.table.len() as u32
    }

    /// The key of a font.
    pub fn key(&self, id: FontId) -> &FontKey
        requires given { id < length self.now.fonts }
        ensures value { key_of result.now ≡ key_at self.now id }
        ensures stands { slice_get (keys_now self.now) id ≡ Some (key_of result.now) }
        ensures key { IsKey (key_of result.now) }
    {
        let (key, _) = self.entry(id);
        key
    }

    /// What a font is.
    pub fn kind(&self, id: FontId) -> Kind
        requires given { id < length self.now.fonts }
        ensures { result ≡ kind_of (state_at self.now id) }
    {
        match self.font(id) {
            Font::Known => Kind::Known,
            Font::Real { .. } => Kind::Real,
            Font::Virtual { .. } => Kind::Virtual,
        }
    }

    /// A font's key, and what its files told.
    pub(crate) fn entry(&self, id: FontId) -> (&FontKey, &Font)
        requires given { id < length self.now.fonts }
        ensures value { slice_get self.now.fonts id ≡ Some (entry_of (result.0.now, result.1.now)) }
        ensures stored { IsStored (entry_of (result.0.now, result.1.now)) }
    {
        match self.table.get_index(id.number() as usize) {
            Some(entry) => entry,
            None => unreachable!(),
        }
    }

    /// What the files of a font told.
    pub(crate) fn font(&self, id: FontId) -> &Font
        requires given { id < length self.now.fonts }
        ensures value { state_of result.now ≡ state_at self.now id }
        ensures sound { IsSound (state_of result.now) }
    {
        let (_, font) = self.entry(id);
        font
    }
}
