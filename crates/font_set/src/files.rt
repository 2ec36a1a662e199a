//! The files of a font, and loading it from them.
ghost use Rattle.std.specs.Prelude.{◌≡◌, ◌<◌, ◌≤◌, ◌+◌, ◌-◌, ◌++◌, ◌^◌, ℕ, length, Some, IfOk, IfErr, OnOk, OnErr, codes, decimal};
ghost use Rattle.dv_base.specs.FileName.{text_of};
ghost use Rattle.dv_base.specs.Shelf.{Keeps, WhereHeld};
ghost use Rattle.pk_raster.specs.Font.{size};
ghost use Rattle.tfm_widths.specs.Widths.{Table, IsTfm};
ghost use Rattle.tfm_widths.specs.Faults.{FaultIn, IsOfBytes};
ghost use Rattle.font_set.specs.Key.{IsKey};
ghost use Rattle.font_set.specs.Fonts.{State, state_at, raster_bytes, raster_bytes_in, key_at, IsLoaded};
ghost use Rattle.font_set.specs.FontOf.{HasTfm, HasVf, HasPk, Loads, WantsPackets, WantsRasters, pk_name, vf_name, resolution, most_file};
ghost use Rattle.font_set.specs.FontFaults.{NotLoaded, raster_room, IsFirstPk, IsRealBy};
ghost use Rattle.font_set.specs.Files.{ReadGives, NotRead, CandidateGives, VfGives, IsPkFound, IsRealRead, IsRead, with_state};
ghost use Rattle.font_set.specs.Growth.{Loaded};
ghost use Rattle.font_set.specs.Stored.{HasWanted, IsSound, AreFine, AreDrawn, state_of};
ghost use Rattle.font_set.specs.Views.{key_of};

use crate::fault::FontFault;
use crate::font::Font;
use crate::fonts::Fonts;
use crate::want::Want;
use arrayvec::ArrayString;
use dv_base::{FileName, FontId, Got, Shelf};
use dvi_doc::FontKey;
use itoa::Buffer;
use pk_raster::{Pk, PkFault, whole_rows};
use std::alloc::Global;
use tfm_widths::{Tfm, TfmFault};
use vf_packets::{Vf, VfFault};

/// The longest TFM file, in bytes: it tells its length in 15 bits of words.
const LONGEST_TFM: u32 = 131_068;

/// The longest VF or PK file, in bytes.
const LONGEST: u32 = 4_194_304;

/// The most bytes of bitmaps that a run keeps.
const MOST_RASTER_BYTES: u64 = 1_073_741_824;

/// A name with an ending.
fn appended(name: &FileName, ending: &str) -> FileName
    requires { length (text_of name.now) + length ending.now ≤ 540 }
    ensures { text_of result ≡ text_of name.now ++ ending.now }
{
    let mut text = ArrayString::<{ FileName::LONGEST }>::new();
    if text.try_push_str(name.as_str()).is_err() || text.try_push_str(ending).is_err() {
        unreachable!();
    }
    match FileName::new(text.as_str()) {
        Some(name) => name,
        None => unreachable!(),
    }
}

/// The name of the file that has a font's bitmaps at a resolution.
fn pk_name(key: &FontKey, resolution: u64) -> FileName
    requires { IsKey (key_of key.now) }
    ensures { text_of result ≡ pk_name (key_of key.now) resolution }
{
    let mut buffer = Buffer::new();
    let digits = buffer.format(resolution);
    appended(&appended(&appended(&key.name, "."), digits), "pk")
}

/// Reads a file, where it is there.
fn read_file<S: Shelf>(
    alloc: Global,
    shelf: &mut S,
    name: &FileName,
    limit: u32,
) -> Result<Option<Vec<u8>>, FontFault>
    ensures read { IfOk result (ReadGives (text_of name.now) limit (S.told shelf.old) (S.told shelf.new)) }
    ensures fault { IfErr result (NotRead name.now limit (S.told shelf.old) (S.told shelf.new)) }
    ensures keeps { Keeps (S.told shelf.old) (S.told shelf.new) }
{
    match shelf.get(alloc, name.as_str(), limit) {
        Got::Bytes(bytes) => Ok(Some(bytes)),
        Got::Absent => Ok(None),
        Got::TooLong => Err(FontFault::FileTooLong(*name)),
        Got::Failed => Err(FontFault::ReadFault(*name)),
        Got::OutOfMemory => Err(FontFault::OutOfMemory),
    }
}

/// Reads a TFM file. Its widths are at most 16 times the size.
fn read_widths(alloc: Global, bytes: &[u8]) -> Result<Tfm, TfmFault>
    ensures ok { IfOk result (IsTfm bytes.now) }
    ensures fine { IfOk result AreFine }
    ensures fault { IfErr result (FaultIn bytes.now) }
    ensures none { IfErr result (λ fault. IsOfBytes fault → (table : Table) → IsTfm bytes.now table → ⊥) }
{
    let tfm = Tfm::read(alloc, bytes)?;
    Ok(tfm)
}

/// How many bytes of bitmaps a font has.
fn raster_bytes(font: &Font) -> u64
    ensures { result ≡ raster_bytes_in (state_of font.now) }
{
    match font {
        Font::Real { pk: Some(pk), .. } => pk.size(),
        Font::Real { pk: None, .. } | Font::Known | Font::Virtual { .. } => 0,
    }
}

impl Fonts {
    /// The resolution of a font's bitmaps, rounded, a half up.
    fn resolution(&self, key: &FontKey) -> u64
        requires key { IsKey (key_of key.now) }
        ensures value { result ≡ resolution self.now.units (key_of key.now) }
        ensures bound { result < 2 ^ 63 }
    {
        let pixels = u128::from(self.units.dpi.unsigned_abs())
            * u128::from(self.units.mag.unsigned_abs())
            * u128::from(key.size);
        let design = 1_000 * u128::from(key.design);
        ((2 * pixels + design) / (2 * design)) as u64
    }

    /// Reads a font's widths.
    fn read_tfm<S: Shelf>(&self, shelf: &mut S, key: &FontKey) -> Result<Tfm, FontFault>
        requires key { IsKey (key_of key.now) }
        ensures tfm { IfOk result (λ tfm. WhereHeld (S.told shelf.old).held (λ held. HasTfm held (key_of key.now) tfm)) }
        ensures fine { IfOk result AreFine }
        ensures fault { IfErr result (NotLoaded self.now (key_of key.now) (S.told shelf.old) (S.told shelf.new)) }
        ensures keeps { Keeps (S.told shelf.old) (S.told shelf.new) }
    {
        let name = appended(&key.name, ".tfm");
        let Some(bytes) = read_file(self.alloc, shelf, &name, LONGEST_TFM)? else {
            return Err(FontFault::Missing(name));
        };
        match read_widths(self.alloc, &bytes) {
            Ok(tfm) => Ok(tfm),
            Err(TfmFault::OutOfMemory) => Err(FontFault::OutOfMemory),
            Err(fault) => Err(FontFault::Tfm(name, fault)),
        }
    }

    /// Reads a font's packets, where it has some.
    fn read_vf<S: Shelf>(&self, shelf: &mut S, key: &FontKey) -> Result<Option<Vf>, FontFault>
        requires key { IsKey (key_of key.now) }
        requires wanted { WantsPackets self.now.want }
        ensures vf { IfOk result (VfGives (key_of key.now) (S.told shelf.old)) }
        ensures fault { IfErr result (NotLoaded self.now (key_of key.now) (S.told shelf.old) (S.told shelf.new)) }
        ensures keeps { Keeps (S.told shelf.old) (S.told shelf.new) }
    {
        let name = appended(&key.name, ".vf");
        let Some(bytes) = read_file(self.alloc, shelf, &name, LONGEST)? else {
            return Ok(None);
        };
        match Vf::read(self.alloc, bytes) {
            Ok(vf) => Ok(Some(vf)),
            Err(VfFault::OutOfMemory) => Err(FontFault::OutOfMemory),
            Err(fault) => Err(FontFault::Vf(name, fault)),
        }
    }

    /// Reads the bitmaps' file at one resolution, where it is there.
    fn candidate<S: Shelf>(
        &self,
        shelf: &mut S,
        key: &FontKey,
        resolution: u64,
    ) -> Result<Option<(FileName, Vec<u8>)>, FontFault>
        requires key { IsKey (key_of key.now) }
        ensures read { IfOk result (CandidateGives (key_of key.now) resolution (S.told shelf.old) (S.told shelf.new)) }
        ensures fault { IfErr result (λ e. (name : FileName) × (text_of name ≡ pk_name (key_of key.now) resolution) × (0 < resolution) × NotRead name most_file (S.told shelf.old) (S.told shelf.new) e) }
        ensures keeps { Keeps (S.told shelf.old) (S.told shelf.new) }
    {
        if resolution == 0 {
            return Ok(None);
        }
        let name = pk_name(key, resolution);
        match read_file(self.alloc, shelf, &name, LONGEST)? {
            Some(bytes) => Ok(Some((name, bytes))),
            None => Ok(None),
        }
    }

    /// Reads the first file of a font's bitmaps that is there: at its resolution, or at the one below or above it.
    fn find_pk<S: Shelf>(
        &self,
        shelf: &mut S,
        key: &FontKey,
    ) -> Result<(FileName, Vec<u8>), FontFault>
        requires key { IsKey (key_of key.now) }
        requires wanted { WantsRasters self.now.want }
        requires real { IsRealBy self.now (key_of key.now) (S.told shelf.old) }
        ensures found { IfOk result (IsPkFound self.now (key_of key.now) (S.told shelf.old)) }
        ensures fault { IfErr result (NotLoaded self.now (key_of key.now) (S.told shelf.old) (S.told shelf.new)) }
        ensures keeps { Keeps (S.told shelf.old) (S.told shelf.new) }
    {
        let resolution = self.resolution(key);
        let below = resolution.saturating_sub(1);
        let above = resolution + 1;
        if let Some(found) = self.candidate(shelf, key, resolution)? {
            return Ok(found);
        }
        if let Some(found) = self.candidate(shelf, key, below)? {
            return Ok(found);
        }
        match self.candidate(shelf, key, above)? {
            Some(found) => Ok(found),
            None => Err(FontFault::Missing(pk_name(key, above))),
        }
    }

    /// Reads a font's bitmaps.
    fn read_pk<S: Shelf>(&self, shelf: &mut S, key: &FontKey) -> Result<Pk, FontFault>
        requires key { IsKey (key_of key.now) }
        requires wanted { WantsRasters self.now.want }
        requires real { IsRealBy self.now (key_of key.now) (S.told shelf.old) }
        ensures pk { IfOk result (λ pk. WhereHeld (S.told shelf.old).held (λ held. HasPk held self.now.units (key_of key.now) pk)) }
        ensures drawn { IfOk result (λ pk. AreDrawn (Some pk)) }
        ensures room { IfOk result (λ pk. raster_bytes self.now.fonts + size pk ≤ 2 ^ 30) }
        ensures fault { IfErr result (NotLoaded self.now (key_of key.now) (S.told shelf.old) (S.told shelf.new)) }
        ensures keeps { Keeps (S.told shelf.old) (S.told shelf.new) }
    {
        whole_rows();
        let (name, bytes) = self.find_pk(shelf, key)?;
        match Pk::read(self.alloc, &bytes, MOST_RASTER_BYTES - self.kept_bytes) {
            Ok(pk) => Ok(pk),
            Err(PkFault::OutOfMemory) => Err(FontFault::OutOfMemory),
            Err(PkFault::Space) => Err(FontFault::RasterSpace),
            Err(fault) => Err(FontFault::Pk(name, fault)),
        }
    }

    /// Reads a real font.
    fn read_real<S: Shelf>(&self, shelf: &mut S, key: &FontKey) -> Result<Font, FontFault>
        requires key { IsKey (key_of key.now) }
        requires real { IsRealBy self.now (key_of key.now) (S.told shelf.old) }
        ensures font { IfOk result (λ font. IsRealRead self.now (key_of key.now) (S.told shelf.old) (state_of font)) }
        ensures fault { IfErr result (NotLoaded self.now (key_of key.now) (S.told shelf.old) (S.told shelf.new)) }
        ensures keeps { Keeps (S.told shelf.old) (S.told shelf.new) }
    {
        let tfm = self.read_tfm(shelf, key)?;
        let pk = match self.want {
            Want::Rasters => Some(self.read_pk(shelf, key)?),
            Want::Widths | Want::Packets => None,
        };
        Ok(Font::Real { tfm, pk })
    }

    /// Reads a font: its VF file first, where packets are wanted.
    fn read_font<S: Shelf>(&self, shelf: &mut S, key: &FontKey) -> Result<Font, FontFault>
        requires key { IsKey (key_of key.now) }
        ensures font { IfOk result (λ font. IsRead self.now (key_of key.now) (S.told shelf.old) (state_of font)) }
        ensures fault { IfErr result (NotLoaded self.now (key_of key.now) (S.told shelf.old) (S.told shelf.new)) }
        ensures keeps { Keeps (S.told shelf.old) (S.told shelf.new) }
    {
        let vf = match self.want {
            Want::Widths => None,
            Want::Packets | Want::Rasters => self.read_vf(shelf, key)?,
        };
        match vf {
            Some(vf) => {
                let tfm = self.read_tfm(shelf, key)?;
                Ok(Font::Virtual { tfm, vf })
            }
            None => self.read_real(shelf, key),
        }
    }

    /// Keeps what was read of a font.
    fn keep(&mut self, id: FontId, font: Font)
        requires known { state_at self.old id ≡ State.Known }
        requires given { id < length self.old.fonts }
        requires sound { IsSound (state_of font) }
        requires room { raster_bytes self.old.fonts + raster_bytes_in (state_of font) ≤ 2 ^ 30 }
        requires wanted { HasWanted self.old.want (state_of font) }
        ensures { self.new ≡ record self.old { fonts = with_state self.old.fonts id (state_of font) } }
    {
        self.kept_bytes += raster_bytes(&font);
        self.table[id.number() as usize] = font;
    }

    /// Reads the files of a font, unless they were read before: `NAME.vf` first, where packets are wanted, `NAME.tfm`, and where
    /// bitmaps are wanted and there is no VF file, `NAME.Rpk`, where R is the font's resolution, one less or one more.
    pub fn load<S: Shelf>(&mut self, shelf: &mut S, id: FontId) -> Result<(), FontFault>
        requires given { id < length self.old.fonts }
        ensures ok { OnOk result (Loads (S.told shelf.old).held self.old.units self.old.want self.old.fonts self.new.fonts id) }
        ensures loaded { OnOk result (Loaded self.old self.new id) }
        ensures count { length self.new.fonts ≡ length self.old.fonts }
        ensures same { OnErr result (self.new ≡ self.old) }
        ensures unread { OnErr result (IsLoaded (state_at self.old id) → ⊥) }
        ensures fault { IfErr result (NotLoaded self.old (key_at self.old id) (S.told shelf.old) (S.told shelf.new)) }
        ensures keeps { Keeps (S.told shelf.old) (S.told shelf.new) }
    {
        match self.font(id) {
            Font::Real { .. } | Font::Virtual { .. } => return Ok(()),
            Font::Known => {}
        }
        let key = *self.key(id);
        let font = self.read_font(shelf, &key)?;
        self.keep(id, font);
        Ok(())
    }
}
