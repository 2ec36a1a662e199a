//! One font definition: whether it is as it should be, and what tells its font from others.
ghost use Rattle.std.specs.Prelude.{◌≡◌, IsTrue, ◌↔◌, OnOk, IfErr, MatchBool};
ghost use Rattle.dvi_ops.specs.View.{def_view};
ghost use Rattle.dvi_doc.specs.Grammar.{IsNamed, IsSize, IsSized};
ghost use Rattle.dvi_doc.specs.View.{IsKeyOf};
ghost use Rattle.dvi_doc.specs.PartFaults.{DefinitionFault};

use crate::fault::DocFault;
use dv_base::{FileName, font_name, is_font_name};
use dvi_ops::Def;

/// What tells one font from another: its name, area included, and the three numbers of its definition. Sizes are in DVI units.
#[derive(Clone, Copy, PartialEq, Eq, Hash, Drop)]
pub struct FontKey {
    pub name: FileName,
    pub checksum: u32,
    pub size: u32,
    pub design: u32,
}

impl FontKey {
    /// What tells the font of this definition from others.
    pub fn of(font: &Def<'_>) -> FontKey
        requires named { IsNamed (def_view font.now) }
        requires sized { IsSized (def_view font.now) }
        ensures { IsKeyOf (def_view font.now) result }
    {
        match font_name(font.name) {
            Some(name) => FontKey {
                name,
                checksum: font.checksum,
                size: font.size as u32,
                design: font.design as u32,
            },
            None => unreachable!(),
        }
    }
}

/// The largest size, in DVI units.
const LARGEST: i32 = 134_217_727;

/// Whether a size and a design size are from 1 to 2^27 - 1.
fn are_sizes(size: i32, design: i32) -> bool
    ensures { MatchBool result (IsSize size × IsSize design) (IsSize size × IsSize design → ⊥) }
{
    1 <= size && size <= LARGEST && 1 <= design && design <= LARGEST
}

/// That a definition is as it should be: else `BadName` or `BadSize`.
pub fn check_font(def: &Def<'_>) -> Result<(), DocFault>
    ensures good { OnOk result (IsNamed (def_view def.now) × IsSized (def_view def.now)) }
    ensures fault { IfErr result (DefinitionFault (def_view def.now)) }
{
    if !is_font_name(def.name) {
        return Err(DocFault::BadName {
            k: i64::from(def.k),
        });
    }
    if !are_sizes(def.size, def.design) {
        return Err(DocFault::BadSize {
            k: i64::from(def.k),
        });
    }
    Ok(())
}

/// Whether two definitions are equal in all fields.
pub fn is_same(one: &Def<'_>, other: &Def<'_>) -> bool
    ensures { IsTrue result ↔ (def_view one.now ≡ def_view other.now) }
{
    one.k == other.k
        && one.checksum == other.checksum
        && one.size == other.size
        && one.design == other.design
        && one.area == other.area
        && one.name == other.name
}
