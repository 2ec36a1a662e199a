//! What is kept of a font.
ghost use Rattle.std.specs.Prelude.{◌≡◌, ◌↔◌, ◌⊎◌, Some, None, MatchOption, IsTrue};
ghost use Rattle.font_set.specs.Fonts.{fix_word_in, vf_in, pk_in, Differ, Mismatches};
ghost use Rattle.font_set.specs.Stored.{state_of};

use pk_raster::Pk;
use tfm_widths::Tfm;
use vf_packets::Vf;

/// A font that a run knows, and what its files told once they were read.
#[derive(Drop)]
pub enum Font {
    Known,
    /// A font with characters of its own; the bitmaps are there where the run wants them.
    Real { tfm: Tfm, pk: Option<Pk> },
    /// A font whose characters are commands.
    Virtual { tfm: Tfm, vf: Vf },
}

/// Whether two checksums are both told, and differ.
fn differ(a: u32, b: u32) -> bool
    ensures { IsTrue result ↔ Differ a b }
{
    a != 0 && b != 0 && a != b
}

/// Whether one of three checksums differs from the one beside it.
fn some_differ(a: u32, b: u32, c: u32) -> bool
    ensures { IsTrue result ↔ (Differ a b ⊎ Differ b c) }
{
    differ(a, b) || differ(b, c)
}

impl Font {
    /// The width of a character, as a fix_word.
    pub fn fix_word(&self, code: u8) -> Option<i32>
        ensures { result ≡ fix_word_in (state_of self.now) code }
    {
        match self {
            Font::Known => None,
            Font::Real { tfm, .. } => tfm.width(code),
            Font::Virtual { tfm, .. } => tfm.width(code),
        }
    }

    /// The packets and local fonts, of a virtual font.
    pub fn vf(&self) -> Option<&Vf>
        ensures { MatchOption result (vf_in (state_of self.now) ≡ None) (λ vf. vf_in (state_of self.now) ≡ Some vf.now) }
    {
        match self {
            Font::Known => None,
            Font::Real { .. } => None,
            Font::Virtual { vf, .. } => Some(vf),
        }
    }

    /// The bitmaps, of a real font for which they are wanted.
    pub fn pk(&self) -> Option<&Pk>
        ensures { MatchOption result (pk_in (state_of self.now) ≡ None) (λ pk. pk_in (state_of self.now) ≡ Some pk.now) }
    {
        match self {
            Font::Known => None,
            Font::Real { pk, .. } => pk.as_ref(),
            Font::Virtual { .. } => None,
        }
    }

    /// Whether the checksums of the key and of the files don't agree.
    pub fn is_mismatched(&self, key: u32) -> bool
        ensures { IsTrue result ↔ Mismatches key (state_of self.now) }
    {
        match self {
            Font::Known => false,
            Font::Real { tfm, pk: None } => differ(key, tfm.checksum()),
            Font::Real { tfm, pk: Some(pk) } => some_differ(key, tfm.checksum(), pk.checksum()),
            Font::Virtual { tfm, vf } => some_differ(key, tfm.checksum(), vf.checksum()),
        }
    }
}
