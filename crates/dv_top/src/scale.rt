//! What turns the units of a document into pixels.
ghost use Rattle.std.specs.Prelude.{◌≡◌, ◌≤◌, ◌<ℤ◌, IfErr, IfOk, IfSome, pos};
ghost use Rattle.dv_base.specs.UnitPixels.{IsUsable, pixels_of_one};
ghost use Rattle.dvi_doc.specs.Document.{Document};
ghost use Rattle.dvi_doc.specs.Grammar.{IsDoc};
ghost use Rattle.dvi_doc.specs.View.{IsRead};
ghost use Rattle.font_set.specs.Stored.{AreUnits};
ghost use Rattle.dv_top.specs.Scaled.{NotScaled, magnified, units_of};

use crate::outcome::Outcome;
use dv_base::{Conv, Units};
use dvi_doc::{Doc, one_document};

/// Units, and what turns them into pixels.
#[derive(Clone, Copy, Drop)]
pub struct Scale {
    pub units: Units,
    pub conv: Conv,
}

/// The document's magnification, or the one in its place.
fn magnification(own: i32, mag: Option<u32>) -> i64
    requires { IfSome mag (λ m. m ≤ 100000) }
    ensures value { result ≡ magnified own mag }
    ensures small { result <ℤ pos 2147483648 }
{
    match mag {
        Some(mag) => i64::from(mag),
        None => i64::from(own),
    }
}

/// What turns the document's units into pixels, at a magnification in place of its own and a resolution.
pub fn scale_of(doc: &Doc<'_>, mag: Option<u32>, dpi: u32) -> Result<Scale, Outcome>
    requires read { IsRead doc.now }
    requires mag { IfSome mag (λ m. m ≤ 100000) }
    requires dpi { dpi ≤ 10000 }
    ensures units { (d : Document) → IsDoc doc.now.bytes d → IfOk result (λ scale. (scale.units ≡ units_of d mag dpi) × IsUsable scale.units) }
    ensures conv { IfOk result (λ scale. scale.conv ≡ pixels_of_one scale.units) }
    ensures fit { IfOk result (λ scale. AreUnits scale.units) }
    ensures cause { (d : Document) → IsDoc doc.now.bytes d → IfErr result (NotScaled d mag dpi) }
{
    one_document();
    let head = doc.head();
    let units = Units {
        num: i64::from(head.num),
        den: i64::from(head.den),
        mag: magnification(head.mag, mag),
        dpi: i64::from(dpi),
    };
    match Conv::new(&units) {
        Some(conv) => Ok(Scale { units, conv }),
        None => Err(Outcome::BadConv { units }),
    }
}
