//! The local fonts of a VF file, by number.
ghost use Rattle.std.specs.Prelude.{◌≡◌, IfOk, IfErr, MatchOption, map};
ghost use Rattle.std.specs.List.{Contains};
ghost use Rattle.std.specs.List.Sorted.{IsPermutation};
ghost use Rattle.dv_base.specs.FontName.{IsFontName};
ghost use Rattle.dvi_ops.specs.Numbered.{numbered};
ghost use Rattle.dvi_ops.specs.View.{def_view};
ghost use Rattle.vf_packets.specs.Font.{LocalFont, Has, Apart, first_number, numbers_of};
ghost use Rattle.vf_packets.specs.File.{local_of};
ghost use Rattle.vf_packets.specs.LocalFaults.{IsTwice};
ghost use Rattle.vf_packets.specs.LocalViews.{local_view};

use crate::fault::VfFault;
use dv_base::{FileName, font_name};
use dvi_ops::{Def, NumberIndex, Numbers};
use std::alloc::{AllocError, Global};
use std::marker::Model;

/// A local font: `scale` is its size in parts of the virtual font's size, and `design` its design size in points, both as
/// fix_words (2 ^ 20 stands for 1).
#[derive(Clone, Copy, PartialEq, Eq, Hash, Drop)]
pub struct Local {
    pub k: i32,
    pub checksum: u32,
    pub scale: i32,
    pub design: i32,
    pub name: FileName,
}

/// The font of a definition; `None` exactly where no font may have the name.
pub fn local_font(def: &Def<'_>) -> Option<Local>
    ensures { MatchOption result (IsFontName (def_view def.now).name → ⊥) (λ font. IsFontName (def_view def.now).name × (local_view font ≡ local_of (def_view def.now))) }
{
    let name = font_name(def.name)?;
    Some(Local {
        k: def.k,
        checksum: def.checksum,
        scale: def.size,
        design: def.design,
        name,
    })
}

/// Local fonts in the order of their definitions, each number once, and an index of their numbers.
#[derive(Drop)]
pub struct Locals {
    fonts: Vec<Local>,
    index: NumberIndex,
}

impl Model for Locals {
    ghost use Rattle.std.specs.Prelude.{List, map};
    ghost use Rattle.std.specs.List.Sorted.{IsPermutation};
    ghost use Rattle.dvi_ops.specs.Numbered.{numbered};
    ghost use Rattle.vf_packets.specs.Font.{LocalFont, numbers_of};
    ghost use Rattle.vf_packets.specs.LocalViews.{local_view};

    ghost Value = { List LocalFont };

    ghost view = { λ l. map local_view l.fonts.items };

    ghost invariant = { λ l. IsPermutation (numbered 0 (numbers_of (map local_view l.fonts.items))) l.index };
}

/// The index of the numbers of fonts; an index has no room for more than 2^32.
fn index_of(alloc: Global, fonts: &[Local]) -> Result<NumberIndex, AllocError>
    ensures { IfOk result (λ index. IsPermutation (numbered 0 (numbers_of (map local_view fonts.now))) index) }
{
    let mut numbers = Numbers::with_room(alloc, fonts.len())?;
    for (place, font) in fonts.iter().enumerate() {
        let Ok(place) = u32::try_from(place) else {
            return Err(AllocError);
        };
        numbers.push(font.k, place)?;
    }
    Ok(NumberIndex::new(numbers))
}

impl Locals {
    /// These fonts; a fault where two have one number, or there is no memory.
    pub fn new(alloc: Global, fonts: Vec<Local>) -> Result<Locals, VfFault>
        ensures found { IfOk result (λ locals. (locals ≡ map local_view fonts.items) × Apart locals) }
        ensures fault { IfErr result (IsTwice (numbers_of (map local_view fonts.items))) }
    {
        let index = index_of(alloc, &fonts)?;
        if let Some(k) = index.twice() {
            return Err(VfFault::FontTwice(k));
        }
        Ok(Locals { fonts, index })
    }

    /// The font of a number; `None` exactly where there is none.
    pub fn get(&self, k: i64) -> Option<&Local>
        ensures { MatchOption result (Has self.now k → ⊥) (λ font. Contains self.now (local_view font.now) × (font.now.k ≡ k)) }
    {
        let place = self.index.place(k)?;
        Some(&self.fonts[place])
    }

    /// The number of the first font.
    pub fn first(&self) -> Option<i64>
        ensures { result ≡ first_number self.now }
    {
        let font = self.fonts.first()?;
        Some(i64::from(font.k))
    }
}
