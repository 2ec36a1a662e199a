//! The chosen pages are walked over before anything is written, and their faults are found.
ghost use Rattle.std.specs.Prelude.{◌≡◌, ◌<◌, ◌≤◌, ◌^◌, ◌-◌, IfErr, IfOk, IsTrue, List, OnOk, Some, [], length};
ghost use Rattle.dvi_doc.specs.Document.{PageOf};
ghost use Rattle.dvi_doc.specs.View.{IsRead};
ghost use Rattle.dv_base.specs.UnitPixels.{pixels_of_one};
ghost use Rattle.dv_words.specs.JobView.{print_view};
ghost use Rattle.dv_words.specs.Jobs.{PrintJob as TheJob};
ghost use Rattle.vf_expand.specs.Given.{NamesGiven};
ghost use Rattle.vf_expand.specs.Page.{pages_count};
ghost use Rattle.sections.specs.Cost.{IsPriced};
ghost use Rattle.sections.specs.Sections.{is_few};
ghost use Rattle.dv_top.specs.Checking.{CheckFails, StopTells, alone};
ghost use Rattle.dv_top.specs.Covered.{CoversPages};
ghost use Rattle.dv_top.specs.Each.{Each};
ghost use Rattle.dv_top.specs.Noted.{HasNoted};
ghost use Rattle.dv_top.specs.Planning.{HasDrafted};
ghost use Rattle.dv_top.specs.Printing.{marks_of_each, most_steps};
ghost use Rattle.dv_top.specs.Selecting.{ArePages};
ghost use Rattle.dv_top.specs.Writing.{HasRasters, IsReady};

use crate::draft::Draft;
use crate::label::label;
use crate::notes::{Notes, pages_go_on};
use crate::outcome::Outcome;
use crate::tell::of_walk;
use dv_words::PrintJob;
use dvi_doc::{Doc, one_document};
use font_set::Fonts;
use positions::NoFault;
use std::alloc::{AllocError, Global};
use vf_expand::{WalkFault, Walker, pages_by_place};

/// A fault that is not the canvas's own; else it is want of memory.
fn alone(fault: WalkFault<AllocError>) -> Result<WalkFault<NoFault>, AllocError>
    ensures { IfOk result (λ f. alone fault ≡ Some f) }
{
    match fault {
        WalkFault::StackUnder(spot) => Ok(WalkFault::StackUnder(spot)),
        WalkFault::StackLeft(spot) => Ok(WalkFault::StackLeft(spot)),
        WalkFault::StackDeep(spot) => Ok(WalkFault::StackDeep(spot)),
        WalkFault::NestDeep(font, code) => Ok(WalkFault::NestDeep(font, code)),
        WalkFault::TooManySteps => Ok(WalkFault::TooManySteps),
        WalkFault::Overflow(spot) => Ok(WalkFault::Overflow(spot)),
        WalkFault::Canvas(error) => Err(error),
    }
}

/// The outcome of a walk that stopped, whose canvas takes memory.
fn of_stop(fonts: &Fonts, fault: WalkFault<AllocError>) -> Outcome
    requires { NamesGiven fonts.now fault }
    ensures { StopTells fonts.now fault result }
{
    match alone(fault) {
        Ok(fault) => of_walk(fonts, fault),
        Err(_) => Outcome::OutOfMemory,
    }
}

/// Walks over the pages at these places, one after another, lets `notes` take their marks, and plans them, or answers why one of them can't
/// be walked over. A page that can't be planned stops no walk.
fn check_pages(
    doc: &Doc<'_>,
    places: &[u32],
    fonts: &Fonts,
    walker: &mut Walker,
    notes: &mut Notes,
    draft: &mut Draft,
) -> Result<(), Outcome>
    requires read { IsRead doc.now }
    requires short { length doc.now.bytes < 2 ^ 31 }
    requires within { Each (λ place. place < length doc.now.pages) places.now }
    requires covers { (pages : List PageOf) → ArePages doc.now places.now pages → CoversPages fonts.now doc.now.fonts pages }
    requires rasters { HasRasters fonts.now }
    requires across { walker.old.grid.across ≡ pixels_of_one fonts.now.units }
    requires begins { walker.old.steps ≡ 0 }
    requires many { length places.now < 2 ^ 32 - 1 }
    requires priced { IsPriced fonts.now notes.old.used }
    requires drafted { HasDrafted fonts.now draft.old.planning.budget draft.old.planning.most draft.old [] }
    ensures ready { (pages : List PageOf) → ArePages doc.now places.now pages → OnOk result (Each (IsReady walker.old.grid fonts.now doc.now.fonts) pages) }
    ensures few { (pages : List PageOf) → ArePages doc.now places.now pages → OnOk result (pages_count fonts.now doc.now.fonts pages ≤ most_steps) }
    ensures noted { (pages : List PageOf) → ArePages doc.now places.now pages → (job : TheJob) → HasNoted job notes.old [] → OnOk result (HasNoted job notes.new (marks_of_each walker.old.grid fonts.now doc.now.fonts pages)) }
    ensures given { OnOk result (notes.new.used.fonts ≡ length fonts.now.fonts) }
    ensures drafted { (pages : List PageOf) → ArePages doc.now places.now pages → OnOk result (HasDrafted fonts.now draft.old.planning.budget draft.old.planning.most draft.new (marks_of_each walker.old.grid fonts.now doc.now.fonts pages)) }
    ensures reason { (pages : List PageOf) → ArePages doc.now places.now pages → IfErr result (CheckFails walker.old.grid fonts.now doc.now.fonts pages) }
    ensures kept { walker.new.grid ≡ walker.old.grid }
{
    one_document();
    pages_by_place();
    pages_go_on();
    for index in 0..places.len() {
        let place = places[index] as usize;
        // (a label is a number of 32 bits)
        let _ = label(&doc.pages()[place]);
        notes.begin_page();
        if let Err(fault) = walker.page(doc, place, fonts, notes) {
            return Err(of_stop(fonts, fault));
        }
        draft.take(index as u32 + 1, notes.usage(), fonts);
        let _ = walker.steps();
    }
    let _ = walker.steps();
    Ok(())
}

/// What was found of pages that were looked at: what they say, and the draft of their sections.
#[derive(Drop)]
pub struct Looked {
    pub notes: Notes,
    pub draft: Draft,
}

/// Looks at the pages at these places, and answers what they say besides their marks on the paper, and how they are put into sections; or
/// why they can't be walked over.
pub fn check(
    alloc: Global,
    doc: &Doc<'_>,
    places: &[u32],
    fonts: &Fonts,
    walker: &mut Walker,
    job: &PrintJob,
) -> Result<Looked, Outcome>
    requires read { IsRead doc.now }
    requires short { length doc.now.bytes < 2 ^ 31 }
    requires within { Each (λ place. place < length doc.now.pages) places.now }
    requires many { length places.now < 2 ^ 32 - 1 }
    requires covers { (pages : List PageOf) → ArePages doc.now places.now pages → CoversPages fonts.now doc.now.fonts pages }
    requires rasters { HasRasters fonts.now }
    requires across { walker.old.grid.across ≡ pixels_of_one fonts.now.units }
    requires begins { walker.old.steps ≡ 0 }
    requires some { IsTrue (is_few (print_view job.now).per_section 1) }
    ensures ready { (pages : List PageOf) → ArePages doc.now places.now pages → OnOk result (Each (IsReady walker.old.grid fonts.now doc.now.fonts) pages) }
    ensures few { (pages : List PageOf) → ArePages doc.now places.now pages → OnOk result (pages_count fonts.now doc.now.fonts pages ≤ most_steps) }
    ensures noted { (pages : List PageOf) → ArePages doc.now places.now pages → IfOk result (λ looked. HasNoted (print_view job.now) looked.notes (marks_of_each walker.old.grid fonts.now doc.now.fonts pages)) }
    ensures given { IfOk result (λ looked. looked.notes.used.fonts ≡ length fonts.now.fonts) }
    ensures drafted { (pages : List PageOf) → ArePages doc.now places.now pages → IfOk result (λ looked. HasDrafted fonts.now (print_view job.now).memory (print_view job.now).per_section looked.draft (marks_of_each walker.old.grid fonts.now doc.now.fonts pages)) }
    ensures reason { (pages : List PageOf) → ArePages doc.now places.now pages → IfErr result (CheckFails walker.old.grid fonts.now doc.now.fonts pages) }
    ensures kept { walker.new.grid ≡ walker.old.grid }
{
    let limits = (job.memory, job.per_section);
    let mut notes = Notes::new(alloc, fonts, job)?;
    let mut draft = Draft::new(alloc, fonts, limits)?;
    check_pages(doc, places, fonts, walker, &mut notes, &mut draft)?;
    Ok(Looked { notes, draft })
}
