//! The key of a local font.
ghost use Rattle.std.specs.Prelude.{◌≡◌, ◌&&◌, IfOk, IfErr, Some};
ghost use Rattle.dv_base.specs.FileName.{text_of};
ghost use Rattle.dv_base.specs.FontName.{IsFontName};
ghost use Rattle.vf_packets.specs.LocalViews.{local_view};
ghost use Rattle.font_set.specs.Key.{IsUnits, IsKey};
ghost use Rattle.font_set.specs.LocalKey.{local_key, local_design, is_size};
ghost use Rattle.font_set.specs.Locals.{IsBadSize};
ghost use Rattle.font_set.specs.Stored.{AreUnits};
ghost use Rattle.font_set.specs.Views.{key_of};

use crate::fault::FontKeyParts;
use dv_base::{Units, scale};
use dvi_doc::FontKey;
use vf_packets::Local;

/// A design size in points, a fix_word, in DVI units, rounded to the nearest one, a half up: `num / den` of 10^-7 metres are one
/// unit, and 7,227 points are 100 inches, which are 25,400,000 of 10^-7 metres.
fn design_units(units: &Units, design: i32) -> i64
    requires { AreUnits units.now }
    ensures { result ≡ local_design units.now.num units.now.den design }
{
    let num = i128::from(units.num);
    let above = 2 * 25_400_000 * i128::from(units.den) * i128::from(design)
        + 16 * 473_628_672 * num;
    above.div_euclid(2 * 16 * 473_628_672 * num) as i64
}

/// Whether a size is from 1 to 2^27 - 1 units.
fn is_size(size: i64) -> bool
    ensures { result ≡ is_size size }
{
    0 < size && size < 0x800_0000
}

/// Whether a size and a design size are.
fn are_sizes(size: i64, design: i64) -> bool
    ensures { result ≡ (is_size size && is_size design) }
{
    is_size(size) && is_size(design)
}

/// The key of a local font, where the virtual font has this size in DVI units; its sizes where they aren't as they should be.
pub fn local_key(units: &Units, size: u32, local: &Local) -> Result<FontKey, FontKeyParts>
    requires units { AreUnits units.now }
    requires size { IsUnits size }
    requires name { IsFontName (text_of local.now.name) }
    ensures key { IfOk result (λ key. (local_key units.now.num units.now.den size (local_view local.now) ≡ Some (key_of key)) × IsKey (key_of key)) }
    ensures bad { IfErr result (IsBadSize units.now size (local_view local.now)) }
{
    let scaled = scale(size, local.scale);
    let design = design_units(units, local.design);
    if !are_sizes(scaled, design) {
        return Err(FontKeyParts {
            name: local.name,
            size: scaled,
            design,
        });
    }
    Ok(FontKey {
        name: local.name,
        checksum: local.checksum,
        size: scaled as u32,
        design: design as u32,
    })
}
