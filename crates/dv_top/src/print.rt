//! A DVI file in, a text out.
ghost use Rattle.std.specs.Prelude.{◌≡◌, ◌≤◌, ◌<◌, ◌^◌, ℕ, IfErr, IfOk, List, Some, length, map, take};
ghost use Rattle.dv_base.specs.Shelf.{Keeps, Told};
ghost use Rattle.dv_base.specs.UnitPixels.{pixels_of_one};
ghost use Rattle.dvi_doc.specs.Document.{Document, PageOf};
ghost use Rattle.dvi_doc.specs.Grammar.{IsDoc};
ghost use Rattle.dvi_doc.specs.View.{IsRead};
ghost use Rattle.dv_words.specs.JobView.{print_view};
ghost use Rattle.font_set.specs.Stored.{AreUnits};
ghost use Rattle.dv_top.specs.Asked.{IsGoodJob};
ghost use Rattle.positions.specs.Mark.{Mark};
ghost use Rattle.pk_raster.specs.Font.{Bitmap};
ghost use Rattle.pk_raster.specs.Laws.{AreRows};
ghost use Rattle.font_set.specs.Fonts.{bitmap_at};
ghost use Rattle.dv_top.specs.Covered.{Covered, chosen_marks, CoversPages, Expands, IsNumbered};
ghost use Rattle.dv_top.specs.Output.{IsHeaded, IsLookedAt};
ghost use Rattle.dv_top.specs.Noted.{HasNoted};
ghost use Rattle.dv_top.specs.Writing.{IsWalkable};
ghost use Rattle.dv_top.specs.Each.{Each};
ghost use Rattle.dv_top.specs.Loading.{GainsPages, LoadFails};
ghost use Rattle.dv_top.specs.Printed.{LeavesBy};
ghost use Rattle.dv_top.specs.Reading.{Input};
ghost use Rattle.dv_top.specs.Selecting.{ArePages, places_of};
ghost use Rattle.dv_top.specs.Planning.{HasDrafted};
ghost use Rattle.dv_top.specs.Printing.{marks_of_each, request_of};
ghost use Rattle.dv_top.specs.Sources.{Selected, no_fonts};

use crate::check::{Looked, check};
use crate::choose::choose;
use crate::headers::headers_of;
use crate::load::load;
use crate::outcome::Outcome;
use crate::output::write;
use crate::plan::plan;
use crate::read::{read_document, read_input};
use crate::scale::scale_of;
use crate::setup::setup;
use crate::write::Parts;
use dv_base::{Shelf, Tray};
use dv_words::PrintJob;
use dvi_doc::{Doc, one_document};
use font_set::{Fonts, Want};
use std::alloc::Global;
use vf_expand::{Walker, expanding};

/// What a text has that was written: so many pages, sections and bytes.
#[derive(Clone, Copy, Drop)]
pub struct Printout {
    pub pages: u32,
    pub sections: u32,
    pub bytes: u64,
}

/// Puts the pages at these places into sections, says the warnings, and writes the text. The first ones were looked at before, and the
/// others are the same once more.
fn print_ready<T: Tray>(
    alloc: Global,
    job: &PrintJob,
    doc: &Doc<'_>,
    places: &[u32],
    first: usize,
    fonts: &Fonts,
    walker: &mut Walker,
    looked: Looked,
    headers: Vec<Vec<u8>>,
    tray: &mut T,
) -> Result<Printout, Outcome>
    requires job { IsGoodJob (print_view job.now) }
    requires walkable { IsWalkable doc.now places.now walker.old.grid fonts.now }
    requires few { length places.now ≤ 1000000 }
    requires known { length fonts.now.fonts ≤ 1000 }
    requires rows { (id code : ℕ) (bitmap : Bitmap) → bitmap_at fonts.now id code ≡ Some bitmap → AreRows bitmap }
    requires noted { (pages : List (List Mark)) × HasNoted (print_view job.now) looked.notes pages }
    requires given { looked.notes.used.fonts ≡ length fonts.now.fonts }
    requires first { first ≤ length places.now }
    requires drafted { (pages : List PageOf) → ArePages doc.now places.now pages → HasDrafted fonts.now (print_view job.now).memory (print_view job.now).per_section looked.draft (marks_of_each walker.old.grid fonts.now doc.now.fonts (take first pages)) }
    ensures leaves { (told later : Told) (c : Covered (print_view job.now) told) → IsLookedAt c doc.now places.now walker.old fonts.now → HasNoted (print_view job.now) looked.notes (chosen_marks c)
        → IsHeaded c (map (λ h. h.items) headers.items) → LeavesBy (print_view job.now) told later (T.seen tray.old) (T.seen tray.new) result }
    ensures later { (T.seen tray.old).faults ≤ (T.seen tray.new).faults }
{
    one_document();
    let Looked { notes, draft } = looked;
    let (plan, last) = plan(alloc, doc, places, first, fonts, walker, draft)?;
    let parts = Parts {
        setup: setup(job, notes.paper(), places.len() as u32),
        headers,
        places,
        plan,
        last,
    };
    notes.warn(fonts, tray);
    let mut usage = notes.into_usage();
    write(alloc, job, doc, &parts, fonts, walker, &mut usage, tray)
}

/// Prints the pages at these places: loads their fonts, looks at them, and writes the text.
fn print_document<S: Shelf, T: Tray>(
    alloc: Global,
    job: &PrintJob,
    doc: &Doc<'_>,
    places: &[u32],
    shelf: &mut S,
    tray: &mut T,
) -> Result<Printout, Outcome>
    requires job { IsGoodJob (print_view job.now) }
    requires read { IsRead doc.now }
    requires short { length doc.now.bytes ≤ 67108864 }
    requires within { Each (λ place. place < length doc.now.pages) places.now }
    requires few { length places.now ≤ 1000000 }
    requires chosen { (d : Document) → IsDoc doc.now.bytes d → places.now ≡ places_of d (request_of (print_view job.now)) }
    ensures leaves { (told : Told) (s : Selected (print_view job.now) told) → Keeps told (S.told shelf.old) → s.source.input.bytes ≡ doc.now.bytes → LeavesBy (print_view job.now) told (S.told shelf.new) (T.seen tray.old) (T.seen tray.new) result }
    ensures keeps { Keeps (S.told shelf.old) (S.told shelf.new) }
    ensures later { (T.seen tray.old).faults ≤ (T.seen tray.new).faults }
{
    one_document();
    expanding();
    let across = scale_of(doc, job.mag, job.dpi.0)?;
    let down = scale_of(doc, job.mag, job.dpi.1)?;
    let first = places.len() / job.collated as usize;
    let once = &places[..first];
    let fonts = load(alloc, doc, once, &across, Want::Rasters, shelf)?;
    fonts.bitmaps_are_rows();
    let mut walker = Walker::new(alloc, across.conv, down.conv, i64::from(job.drift))?;
    let looked = check(alloc, doc, once, &fonts, &mut walker, job)?;
    let headers = headers_of(alloc, &looked.notes, shelf)?;
    print_ready(
        alloc,
        job,
        doc,
        places,
        first,
        &fonts,
        &mut walker,
        looked,
        headers,
        tray,
    )
}

/// Prints the document in the bytes.
fn print_bytes<S: Shelf, T: Tray>(
    alloc: Global,
    job: &PrintJob,
    bytes: &[u8],
    shelf: &mut S,
    tray: &mut T,
) -> Result<Printout, Outcome>
    requires job { IsGoodJob (print_view job.now) }
    requires short { length bytes.now ≤ 67108864 }
    ensures leaves { (told : Told) (input : Input (print_view job.now).input told) → Keeps told (S.told shelf.old) → input.bytes ≡ bytes.now → LeavesBy (print_view job.now) told (S.told shelf.new) (T.seen tray.old) (T.seen tray.new) result }
    ensures keeps { Keeps (S.told shelf.old) (S.told shelf.new) }
    ensures later { (T.seen tray.old).faults ≤ (T.seen tray.new).faults }
{
    one_document();
    let doc = read_document(alloc, bytes)?;
    let places = choose(
        alloc,
        &doc,
        &job.windows,
        job.parity,
        job.limit,
        job.reverse,
        job.collated,
    )?;
    print_document(alloc, job, &doc, &places, shelf, tray)
}

/// Reads the input of a job and prints it; answers what the text has, or the outcome other than Done.
pub fn print_job<S: Shelf, T: Tray>(
    alloc: Global,
    job: &PrintJob,
    shelf: &mut S,
    tray: &mut T,
) -> Result<Printout, Outcome>
    requires job { IsGoodJob (print_view job.now) }
    ensures leaves { LeavesBy (print_view job.now) (S.told shelf.old) (S.told shelf.new) (T.seen tray.old) (T.seen tray.new) result }
    ensures keeps { Keeps (S.told shelf.old) (S.told shelf.new) }
    ensures later { (T.seen tray.old).faults ≤ (T.seen tray.new).faults }
{
    let bytes = read_input(alloc, &job.input, shelf)?;
    print_bytes(alloc, job, &bytes, shelf, tray)
}
