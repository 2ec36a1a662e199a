//! The fonts of a document's pages are loaded before anything is written.
ghost use Rattle.std.specs.Prelude.{◌≡◌, ◌<◌, ◌^◌, IfErr, IfOk, List, OnOk, length};
ghost use Rattle.dv_base.specs.Shelf.{Keeps};
ghost use Rattle.dv_base.specs.UnitPixels.{pixels_of_one};
ghost use Rattle.dvi_doc.specs.Document.{PageOf};
ghost use Rattle.dvi_doc.specs.View.{IsRead};
ghost use Rattle.font_set.specs.Stored.{AreUnits};
ghost use Rattle.dv_top.specs.Covered.{CoversPages, Expands, IsNumbered};
ghost use Rattle.dv_top.specs.Each.{Each};
ghost use Rattle.dv_top.specs.Loading.{GainsPages, IsLoadReason, LoadFails, Orders};
ghost use Rattle.dv_top.specs.Selecting.{ArePages};
ghost use Rattle.dv_top.specs.Sources.{no_fonts_of};

use crate::outcome::Outcome;
use crate::scale::Scale;
use crate::tell::of_load;
use dv_base::Shelf;
use dvi_doc::{Doc, one_document};
use font_set::{Fonts, Want, covers_later, order_of_tree};
use std::alloc::Global;
use vf_expand::pages_by_place;

/// Loads the fonts that the pages at these places need, page by page, or answers why one of them can't be had.
pub fn load_pages<S: Shelf>(
    doc: &Doc<'_>,
    places: &[u32],
    shelf: &mut S,
    fonts: &mut Fonts,
) -> Result<(), Outcome>
    requires read { IsRead doc.now }
    requires short { length doc.now.bytes < 2 ^ 31 }
    requires within { Each (λ place. place < length doc.now.pages) places.now }
    ensures covers { (pages : List PageOf) → ArePages doc.now places.now pages → OnOk result (CoversPages fonts.new doc.now.fonts pages) }
    ensures gains { (pages : List PageOf) → ArePages doc.now places.now pages → GainsPages (S.told shelf.old) doc.now.fonts pages fonts.old fonts.new }
    ensures orders { (pages : List PageOf) → ArePages doc.now places.now pages → OnOk result (Orders doc.now.fonts pages fonts.old fonts.new) }
    ensures reason { (pages : List PageOf) → ArePages doc.now places.now pages → IfErr result (IsLoadReason fonts.new doc.now.fonts pages (S.told shelf.old) (S.told shelf.new)) }
    ensures keeps { Keeps (S.told shelf.old) (S.told shelf.new) }
{
    one_document();
    pages_by_place();
    covers_later();
    order_of_tree();
    for place in places {
        if let Err(fault) = fonts.load_page(shelf, doc, *place as usize) {
            return Err(of_load(fonts, fault));
        }
    }
    Ok(())
}

/// The fonts of the pages at these places, of which so much is wanted.
pub fn load<S: Shelf>(
    alloc: Global,
    doc: &Doc<'_>,
    places: &[u32],
    scale: &Scale,
    want: Want,
    shelf: &mut S,
) -> Result<Fonts, Outcome>
    requires read { IsRead doc.now }
    requires short { length doc.now.bytes < 2 ^ 31 }
    requires within { Each (λ place. place < length doc.now.pages) places.now }
    requires units { AreUnits scale.now.units }
    requires conv { scale.now.conv ≡ pixels_of_one scale.now.units }
    ensures covers { (pages : List PageOf) → ArePages doc.now places.now pages → IfOk result (λ fonts. CoversPages fonts doc.now.fonts pages) }
    ensures gains { (pages : List PageOf) → ArePages doc.now places.now pages → IfOk result (GainsPages (S.told shelf.old) doc.now.fonts pages (no_fonts_of want scale.now.units)) }
    ensures numbered { (pages : List PageOf) → ArePages doc.now places.now pages → IfOk result (λ fonts. Each (Expands fonts doc.now.fonts) pages → IsNumbered fonts doc.now.fonts pages) }
    ensures reason { (pages : List PageOf) → ArePages doc.now places.now pages → IfErr result (LoadFails (no_fonts_of want scale.now.units) doc.now.fonts pages (S.told shelf.old) (S.told shelf.new)) }
    ensures keeps { Keeps (S.told shelf.old) (S.told shelf.new) }
{
    let mut fonts = Fonts::new(alloc, scale.units, scale.conv, want);
    load_pages(doc, places, shelf, &mut fonts)?;
    Ok(fonts)
}
