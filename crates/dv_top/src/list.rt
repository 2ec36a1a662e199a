//! A DVI file in, its commands out.
ghost use Rattle.std.specs.Prelude.{◌≡◌, ◌<◌, ◌≤◌, length};
ghost use Rattle.dv_base.specs.Shelf.{Keeps, Told};
ghost use Rattle.dv_base.specs.Tray.{Seen};
ghost use Rattle.dv_base.specs.UnitPixels.{IsUsable, pixels_of_one};
ghost use Rattle.dvi_doc.specs.Document.{Document};
ghost use Rattle.dvi_doc.specs.Grammar.{IsDoc};
ghost use Rattle.dvi_doc.specs.View.{IsRead};
ghost use Rattle.dv_words.specs.JobView.{list_view};
ghost use Rattle.font_set.specs.Stored.{AreUnits};
ghost use Rattle.dv_top.specs.AskedList.{IsGoodListJob};
ghost use Rattle.dv_top.specs.ListBegun.{HasBegun};
ghost use Rattle.dv_top.specs.Each.{Each};
ghost use Rattle.dv_top.specs.Given.{ListNamesGiven};
ghost use Rattle.dv_top.specs.Listable.{Selected, listed_request, listed_units};
ghost use Rattle.dv_top.specs.Listed.{FaultTells, LeavesBy};
ghost use Rattle.dv_top.specs.Reading.{Input};
ghost use Rattle.dv_top.specs.Selecting.{places_of};

use crate::choose::choose;
use crate::outcome::Outcome;
use crate::read::{read_document, read_input};
use crate::scale::{Scale, scale_of};
use crate::tell::{of_load, of_walk};
use dv_base::{Begun, Shelf, Tray};
use dv_words::{ListJob, Parity, Windows};
use dvi_doc::{Doc, one_document};
use dvitype_list::{ListFault, list};
use font_set::{Fonts, Want};
use std::alloc::Global;
use vf_expand::WalkFault;

/// The outcome of a fault at which a listing ends.
fn of_list(fonts: &Fonts, fault: ListFault) -> Outcome
    requires { ListNamesGiven fonts.now fault }
    ensures { FaultTells fonts.now fault result }
{
    match fault {
        ListFault::Load(fault) => of_load(fonts, fault),
        ListFault::StackUnder(spot) => of_walk(fonts, WalkFault::StackUnder(spot)),
        ListFault::StackLeft(spot) => of_walk(fonts, WalkFault::StackLeft(spot)),
        ListFault::StackDeep(spot) => of_walk(fonts, WalkFault::StackDeep(spot)),
        ListFault::Overflow(spot) => of_walk(fonts, WalkFault::Overflow(spot)),
        ListFault::WriteFault => Outcome::WriteFault,
        ListFault::OutOfMemory => Outcome::OutOfMemory,
    }
}

/// Lists the pages at these places, to the output that was begun last.
fn list_pages<S: Shelf, T: Tray>(
    alloc: Global,
    job: &ListJob,
    doc: &Doc<'_>,
    places: &[u32],
    scale: &Scale,
    shelf: &mut S,
    tray: &mut T,
) -> Result<(), Outcome>
    requires begun { 0 < (T.seen tray.old).begun }
    requires read { IsRead doc.now }
    requires short { length doc.now.bytes ≤ 67108864 }
    requires within { Each (λ place. place < length doc.now.pages) places.now }
    requires chosen { (d : Document) → IsDoc doc.now.bytes d → places.now ≡ places_of d (listed_request (list_view job.now)) }
    requires fit { AreUnits scale.now.units }
    requires units { (d : Document) → IsDoc doc.now.bytes d → (scale.now.units ≡ listed_units d (list_view job.now)) × IsUsable scale.now.units }
    requires conv { scale.now.conv ≡ pixels_of_one scale.now.units }
    ensures leaves { (told : Told) (s : Selected (list_view job.now) told) (before : Seen) → Keeps told (S.told shelf.old) → s.source.input.bytes ≡ doc.now.bytes → HasBegun before (T.seen tray.old) → LeavesBy (list_view job.now) told (S.told shelf.new) before (T.seen tray.new) result }
    ensures kept { Keeps (S.told shelf.old) (S.told shelf.new) }
    ensures later { (T.seen tray.old).faults ≤ (T.seen tray.new).faults }
{
    one_document();
    let mut fonts = Fonts::new(alloc, scale.units, scale.conv, Want::Widths);
    match list(
        alloc,
        doc,
        &mut fonts,
        shelf,
        &scale.conv,
        places,
        job,
        tray,
    ) {
        Ok(()) => Ok(()),
        Err(fault) => Err(of_list(&fonts, fault)),
    }
}

/// Lists the pages at these places, once the document's units are known to be usable.
fn list_document<S: Shelf, T: Tray>(
    alloc: Global,
    job: &ListJob,
    doc: &Doc<'_>,
    places: &[u32],
    shelf: &mut S,
    tray: &mut T,
) -> Result<(), Outcome>
    requires job { IsGoodListJob (list_view job.now) }
    requires read { IsRead doc.now }
    requires short { length doc.now.bytes ≤ 67108864 }
    requires within { Each (λ place. place < length doc.now.pages) places.now }
    requires chosen { (d : Document) → IsDoc doc.now.bytes d → places.now ≡ places_of d (listed_request (list_view job.now)) }
    ensures leaves { (told : Told) (s : Selected (list_view job.now) told) → Keeps told (S.told shelf.old) → s.source.input.bytes ≡ doc.now.bytes → LeavesBy (list_view job.now) told (S.told shelf.new) (T.seen tray.old) (T.seen tray.new) result }
    ensures kept { Keeps (S.told shelf.old) (S.told shelf.new) }
    ensures later { (T.seen tray.old).faults ≤ (T.seen tray.new).faults }
{
    one_document();
    let scale = scale_of(doc, job.mag, job.dpi)?;
    match tray.begin(alloc, "-") {
        Begun::Ready => list_pages(alloc, job, doc, places, &scale, shelf, tray),
        Begun::Failed => Err(Outcome::WriteFault),
        Begun::OutOfMemory => Err(Outcome::OutOfMemory),
    }
}

/// Lists the document in the bytes.
fn list_bytes<S: Shelf, T: Tray>(
    alloc: Global,
    job: &ListJob,
    bytes: &[u8],
    shelf: &mut S,
    tray: &mut T,
) -> Result<(), Outcome>
    requires job { IsGoodListJob (list_view job.now) }
    requires short { length bytes.now ≤ 67108864 }
    ensures leaves { (told : Told) (input : Input (list_view job.now).input told) → Keeps told (S.told shelf.old) → input.bytes ≡ bytes.now → LeavesBy (list_view job.now) told (S.told shelf.new) (T.seen tray.old) (T.seen tray.new) result }
    ensures kept { Keeps (S.told shelf.old) (S.told shelf.new) }
    ensures later { (T.seen tray.old).faults ≤ (T.seen tray.new).faults }
{
    one_document();
    let doc = read_document(alloc, bytes)?;
    let windows = Windows::One {
        first: job.start,
        last: None,
        physical: false,
    };
    let places = choose(alloc, &doc, &windows, Parity::All, Some(job.most), false, 1)?;
    list_document(alloc, job, &doc, &places, shelf, tray)
}

/// Reads the input of a job and lists its commands to standard output; answers nothing, or the outcome other than Done.
pub fn list_job<S: Shelf, T: Tray>(
    alloc: Global,
    job: &ListJob,
    shelf: &mut S,
    tray: &mut T,
) -> Result<(), Outcome>
    requires job { IsGoodListJob (list_view job.now) }
    ensures leaves { LeavesBy (list_view job.now) (S.told shelf.old) (S.told shelf.new) (T.seen tray.old) (T.seen tray.new) result }
    ensures kept { Keeps (S.told shelf.old) (S.told shelf.new) }
    ensures later { (T.seen tray.old).faults ≤ (T.seen tray.new).faults }
{
    let bytes = read_input(alloc, &job.input, shelf)?;
    list_bytes(alloc, job, &bytes, shelf, tray)
}
