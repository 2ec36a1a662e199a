//! The pages that are to be copied are walked over before anything is written: they are measured, and their faults are found.
ghost use Rattle.std.specs.Prelude.{◌≡◌, ◌<◌, ◌≤◌, ◌^◌, IfErr, IfOk, List, OnOk, length};
ghost use Rattle.dvi_doc.specs.Document.{PageOf};
ghost use Rattle.dvi_doc.specs.View.{IsRead};
ghost use Rattle.dvicopy_out.specs.Made.{IsMeasured};
ghost use Rattle.vf_expand.specs.Page.{pages_count};
ghost use Rattle.dv_top.specs.Checking.{CheckFails};
ghost use Rattle.dv_top.specs.CopyWork.{IsSound};
ghost use Rattle.dv_top.specs.Covered.{CoversPages};
ghost use Rattle.dv_top.specs.Each.{Each};
ghost use Rattle.dv_top.specs.Printing.{most_steps};
ghost use Rattle.dv_top.specs.Selecting.{ArePages};

use crate::outcome::Outcome;
use crate::tell::of_walk;
use dvi_doc::{Doc, one_document};
use dvicopy_out::{Measured, measure_copy};
use font_set::Fonts;
use vf_expand::{Walker, pages_by_place};

/// Walks over the pages at these places, one after another: answers what is measured of their copies, or why one of them can't be walked
/// over.
pub fn walk_pages(
    doc: &Doc<'_>,
    places: &[u32],
    fonts: &Fonts,
    walker: &mut Walker,
) -> Result<Measured, Outcome>
    requires read { IsRead doc.now }
    requires short { length doc.now.bytes < 2 ^ 31 }
    requires within { Each (λ place. place < length doc.now.pages) places.now }
    requires covers { (pages : List PageOf) → ArePages doc.now places.now pages → CoversPages fonts.now doc.now.fonts pages }
    ensures sound { (pages : List PageOf) → ArePages doc.now places.now pages → OnOk result (Each (IsSound walker.old.grid fonts.now doc.now.fonts) pages) }
    ensures few { (pages : List PageOf) → ArePages doc.now places.now pages → OnOk result (pages_count fonts.now doc.now.fonts pages ≤ most_steps) }
    ensures measured { IfOk result (IsMeasured walker.old.grid fonts.now doc.now places.now) }
    ensures reason { (pages : List PageOf) → ArePages doc.now places.now pages → IfErr result (CheckFails walker.old.grid fonts.now doc.now.fonts pages) }
    ensures kept { walker.new.grid ≡ walker.old.grid }
{
    one_document();
    pages_by_place();
    match measure_copy(doc, fonts, walker, places) {
        Ok(measured) => Ok(measured),
        Err(fault) => Err(of_walk(fonts, fault)),
    }
}
