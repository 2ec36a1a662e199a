//! A DVI file in, a copy out.
ghost use Rattle.std.specs.Prelude.{◌≡◌, ◌≤◌, ◌<◌, List, length};
ghost use Rattle.dv_base.specs.Shelf.{Keeps, Told};
ghost use Rattle.dvi_doc.specs.Document.{Document, PageOf};
ghost use Rattle.dvi_doc.specs.Grammar.{IsDoc};
ghost use Rattle.dvi_doc.specs.View.{IsRead};
ghost use Rattle.dv_words.specs.JobView.{copy_view};
ghost use Rattle.dvicopy_out.specs.Made.{IsMeasured};
ghost use Rattle.dv_top.specs.Copied.{Leaves, LeavesBy};
ghost use Rattle.dv_top.specs.Copyable.{Walkable};
ghost use Rattle.dv_top.specs.Copying.{asked_of};
ghost use Rattle.font_set.specs.Stored.{AreUnits};
ghost use Rattle.dv_top.specs.CopyWork.{CopyTells, IsNoWalk, IsWalked};
ghost use Rattle.dv_top.specs.Covered.{CoversPages};
ghost use Rattle.dv_top.specs.Each.{Each};
ghost use Rattle.dv_top.specs.Reading.{Input};
ghost use Rattle.dv_top.specs.Selecting.{ArePages, places_of};
ghost use Rattle.dv_top.specs.Wanted.{IsGoodCopy, Wanted};

use crate::choose::choose;
use crate::load::load;
use crate::outcome::Outcome;
use crate::read::{read_document, read_input};
use crate::scale::{Scale, scale_of};
use crate::walk::walk_pages;
use crate::warnings::say_checksums;
use dv_base::{Shelf, Tray};
use dv_words::{CopyJob, Parity, Windows};
use dvi_doc::{Doc, one_document};
use dvicopy_out::{
    CopyFault, Measured, copies_are_documents, copies_define_real_fonts, copies_keep_marks,
    copies_keep_pages, cuts_hold_first_pages, write_copy,
};
use font_set::{Fonts, Want};
use std::alloc::Global;
use vf_expand::{Walker, expanding, pages_by_place};

/// The resolution for which a document is copied, in dots an inch. No mark of the copy depends on it.
const DPI: u32 = 300;

/// How many pixels a place may drift meanwhile.
const DRIFT: i64 = 2;

/// The outcome of a copy that failed, and not because of a walk.
fn of_copy(fault: CopyFault) -> Outcome
    requires { IsNoWalk fault }
    ensures { CopyTells fault result }
{
    match fault {
        CopyFault::Walk(_) => unreachable!(),
        CopyFault::CopyTooLong => Outcome::CopyTooLong,
        CopyFault::WriteFault => Outcome::WriteFault,
        CopyFault::OutOfMemory => Outcome::OutOfMemory,
    }
}

/// The magnification of these units, as a preamble has it.
fn magnification(scale: &Scale) -> i32
    requires { AreUnits scale.now.units }
    ensures { result ≡ scale.now.units.mag }
{
    scale.units.mag as i32
}

/// Says the warnings, and writes the copy of the pages at these places, which were walked over and measured before.
fn copy_walked<T: Tray>(
    alloc: Global,
    job: &CopyJob,
    doc: &Doc<'_>,
    places: &[u32],
    fonts: &Fonts,
    walker: &mut Walker,
    measured: &Measured,
    mag: i32,
    tray: &mut T,
) -> Result<(), Outcome>
    requires read { IsRead doc.now }
    requires short { length doc.now.bytes ≤ 67108864 }
    requires within { Each (λ place. place < length doc.now.pages) places.now }
    requires covers { (pages : List PageOf) → ArePages doc.now places.now pages → CoversPages fonts.now doc.now.fonts pages }
    requires measured { IsMeasured walker.old.grid fonts.now doc.now places.now measured.now }
    ensures leaves { (told later : Told) (w : Walkable (copy_view job.now) told) → IsWalked w doc.now places.now walker.old fonts.now mag → LeavesBy (copy_view job.now) told later (T.seen tray.old) (T.seen tray.new) result }
    ensures later { (T.seen tray.old).faults ≤ (T.seen tray.new).faults }
{
    one_document();
    pages_by_place();
    copies_are_documents();
    copies_keep_pages();
    copies_keep_marks();
    cuts_hold_first_pages();
    copies_define_real_fonts();
    say_checksums(fonts, tray);
    match write_copy(
        alloc,
        doc,
        fonts,
        walker,
        places,
        measured,
        mag,
        &job.output,
        tray,
    ) {
        Ok(()) => Ok(()),
        Err(fault) => Err(of_copy(fault)),
    }
}

/// Copies the pages at these places: loads their fonts, walks over them, and writes the copy.
fn copy_document<S: Shelf, T: Tray>(
    alloc: Global,
    job: &CopyJob,
    doc: &Doc<'_>,
    places: &[u32],
    shelf: &mut S,
    tray: &mut T,
) -> Result<(), Outcome>
    requires job { IsGoodCopy (copy_view job.now) }
    requires read { IsRead doc.now }
    requires short { length doc.now.bytes ≤ 67108864 }
    requires within { Each (λ place. place < length doc.now.pages) places.now }
    requires chosen { (d : Document) → IsDoc doc.now.bytes d → places.now ≡ places_of d (asked_of (copy_view job.now)) }
    ensures leaves { (told : Told) (w : Wanted (copy_view job.now) told) → Keeps told (S.told shelf.old) → w.source.input.bytes ≡ doc.now.bytes → LeavesBy (copy_view job.now) told (S.told shelf.new) (T.seen tray.old) (T.seen tray.new) result }
    ensures keeps { Keeps (S.told shelf.old) (S.told shelf.new) }
    ensures later { (T.seen tray.old).faults ≤ (T.seen tray.new).faults }
{
    one_document();
    expanding();
    let scale = scale_of(doc, job.mag, DPI)?;
    let fonts = load(alloc, doc, places, &scale, Want::Packets, shelf)?;
    let mut walker = Walker::new(alloc, scale.conv, scale.conv, DRIFT)?;
    let measured = walk_pages(doc, places, &fonts, &mut walker)?;
    let mag = magnification(&scale);
    copy_walked(
        alloc,
        job,
        doc,
        places,
        &fonts,
        &mut walker,
        &measured,
        mag,
        tray,
    )
}

/// Copies the document in the bytes.
fn copy_bytes<S: Shelf, T: Tray>(
    alloc: Global,
    job: &CopyJob,
    bytes: &[u8],
    shelf: &mut S,
    tray: &mut T,
) -> Result<(), Outcome>
    requires job { IsGoodCopy (copy_view job.now) }
    requires short { length bytes.now ≤ 67108864 }
    ensures leaves { (told : Told) (input : Input (copy_view job.now).input told) → Keeps told (S.told shelf.old) → input.bytes ≡ bytes.now → LeavesBy (copy_view job.now) told (S.told shelf.new) (T.seen tray.old) (T.seen tray.new) result }
    ensures keeps { Keeps (S.told shelf.old) (S.told shelf.new) }
    ensures later { (T.seen tray.old).faults ≤ (T.seen tray.new).faults }
{
    one_document();
    let doc = read_document(alloc, bytes)?;
    let windows = Windows::One {
        first: job.start,
        last: None,
        physical: false,
    };
    let places = choose(alloc, &doc, &windows, Parity::All, Some(job.most), false, 1)?;
    copy_document(alloc, job, &doc, &places, shelf, tray)
}

/// Reads the input of a job and copies it.
fn copy_input<S: Shelf, T: Tray>(
    alloc: Global,
    job: &CopyJob,
    shelf: &mut S,
    tray: &mut T,
) -> Result<(), Outcome>
    requires job { IsGoodCopy (copy_view job.now) }
    ensures leaves { LeavesBy (copy_view job.now) (S.told shelf.old) (S.told shelf.new) (T.seen tray.old) (T.seen tray.new) result }
    ensures keeps { Keeps (S.told shelf.old) (S.told shelf.new) }
    ensures later { (T.seen tray.old).faults ≤ (T.seen tray.new).faults }
{
    let bytes = read_input(alloc, &job.input, shelf)?;
    copy_bytes(alloc, job, &bytes, shelf, tray)
}

/// Copies a DVI file, with its virtual fonts expanded.
pub fn copy_job<S: Shelf, T: Tray>(
    alloc: Global,
    job: &CopyJob,
    shelf: &mut S,
    tray: &mut T,
) -> Outcome
    requires job { IsGoodCopy (copy_view job.now) }
    ensures leaves { Leaves (copy_view job.now) (S.told shelf.old) (S.told shelf.new) (T.seen tray.old) (T.seen tray.new) result }
    ensures kept { Keeps (S.told shelf.old) (S.told shelf.new) }
    ensures later { (T.seen tray.old).faults ≤ (T.seen tray.new).faults }
{
    match copy_input(alloc, job, shelf, tray) {
        Ok(()) => Outcome::Done,
        Err(outcome) => outcome,
    }
}
