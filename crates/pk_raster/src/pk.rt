//! The glyphs of a PK file, by code.
ghost use Rattle.std.specs.Prelude.{◌≡◌, ◌≢◌, ℕ, ◌+◌, ◌<◌, ◌≤◌, length, replicate, slice_index, slice_set, IfOk, OnOk, OnErr, IfErr, MatchBool};
ghost use Rattle.pk_raster.specs.Font.{Font, Known, size, glyph_at, known_bytes};
ghost use Rattle.pk_raster.specs.Font.Known.{Nothing, Large, Bits};

use crate::glyph::Sizes;
use std::alloc::{AllocError, Global};
use std::marker::Model;

/// Where the rows of a bitmap stand in the store.
#[derive(Clone, Copy)]
pub struct Place {
    pub sizes: Sizes,
    pub start: usize,
    pub end: usize,
}

/// What is kept for a code.
#[derive(Clone, Copy)]
pub enum Entry {
    None,
    TooBig(u64),
    Here(Place),
}

/// The glyphs of a PK file. The rows of all bitmaps stand in one store.
#[derive(Drop)]
pub struct Pk {
    checksum: u32,
    entries: Vec<Entry>,
    rows: Vec<u8>,
}

impl Model for Pk {
    ghost use Rattle.std.specs.Prelude.{map};
    ghost use Rattle.pk_raster.specs.Font.{Font};

    ghost Value = { Font };

    ghost use Rattle.pk_raster.specs.Entries.{known, IsStore};

    ghost view = { λ p. record { checksum = p.checksum; glyphs = map (known p.rows.items) p.entries.items } };

    ghost invariant = { λ p. IsStore p.entries.items p.rows.items };
}

/// A bitmap, `w` pixels wide and `h` high. `hoff` and `voff` lead from the upper left pixel to the reference pixel, right
/// and down positive. `rows` has the rows from the top, each padded to whole bytes by bits 0; a bit 1 is a black pixel, and
/// the highest bit of a byte is the leftmost.
#[derive(Clone, Copy, Debug)]
pub struct Glyph<'a> {
    pub w: u32,
    pub h: u32,
    pub hoff: i32,
    pub voff: i32,
    pub rows: &'a [u8],
}

/// What a PK file tells of a code.
#[derive(Clone, Copy, Debug)]
pub enum Look<'a> {
    /// It has no such code.
    None,

    /// The bitmap would have this many bytes, which are more than 65,535, and isn't kept.
    TooBig(u64),

    Here(Glyph<'a>),
}

ghost use Rattle.pk_raster.specs.Looks.{Shows};

impl Pk {
    /// The checksum of the font.
    pub fn checksum(&self) -> u32
        ensures { result ≡ self.now.checksum }
    {
        self.checksum
    }

    /// The bytes of all bitmaps that are kept.
    pub fn size(&self) -> u64
        ensures { result ≡ size self.now }
    {
        self.rows.len() as u64
    }

    /// What the file tells of a code.
    pub fn look(&self, code: u8) -> Look<'_>
        ensures { Shows result self.now code }
    {
        match self.entries[code as usize] {
            Entry::None => Look::None,
            Entry::TooBig(bytes) => Look::TooBig(bytes),
            Entry::Here(place) => Look::Here(Glyph {
                w: place.sizes.w,
                h: place.sizes.h,
                hoff: place.sizes.hoff,
                voff: place.sizes.voff,
                rows: &self.rows[place.start..place.end],
            }),
        }
    }

    /// A font without glyphs.
    pub(crate) fn blank(alloc: Global, checksum: u32) -> Result<Pk, AllocError>
        ensures { IfOk result (λ p. p ≡ record { checksum = checksum; glyphs = replicate 256 Nothing }) }
    {
        Ok(Pk {
            checksum,
            entries: vec![in alloc; Entry::None; 256]?,
            rows: Vec::new(alloc),
        })
    }

    /// Whether a code has a glyph.
    pub(crate) fn has(&self, code: u8) -> bool
        ensures { MatchBool result (glyph_at self.now code ≢ Nothing) (glyph_at self.now code ≡ Nothing) }
    {
        match self.entries[code as usize] {
            Entry::None => false,
            _ => true,
        }
    }

    /// Keeps the size of a bitmap that is too big.
    pub(crate) fn keep_size(&mut self, code: u8, bytes: u64)
        requires { glyph_at self.old code ≡ Nothing }
        ensures { self.new ≡ record self.old { glyphs = slice_set self.old.glyphs code (Large bytes) } }
    {
        self.entries[code as usize] = Entry::TooBig(bytes);
    }

    /// Keeps a bitmap.
    pub(crate) fn keep(&mut self, code: u8, sizes: Sizes, bitmap: &[u8]) -> Result<(), AllocError>
        requires { glyph_at self.old code ≡ Nothing }
        ensures kept { OnOk result (self.new ≡ record self.old { glyphs = slice_set self.old.glyphs code (Bits (record { w = sizes.w; h = sizes.h; hoff = sizes.hoff; voff = sizes.voff; rows = bitmap.now })) }) }
        ensures bytes { (i : ℕ) → slice_index bitmap.now i < 256 }
    {
        let start = self.rows.len();
        self.rows.extend_from_slice(bitmap)?;
        let end = self.rows.len();
        self.entries[code as usize] = Entry::Here(Place { sizes, start, end });
        Ok(())
    }
}
