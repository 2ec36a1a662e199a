//! What pages use, and the pages that are printed in sections within the budget.
ghost use Rattle.std.specs.Prelude.{◌≡◌, ◌<◌, ◌≤◌, ◌+◌, ◌^◌, ◌-◌, IfErr, IfOk, IsTrue, List, OnOk, length, take};
ghost use Rattle.std.specs.List.{sum};
ghost use Rattle.dvi_doc.specs.Document.{PageOf};
ghost use Rattle.sections.specs.Cost.{IsPriced};
ghost use Rattle.sections.specs.Planned.{UsesLast};
ghost use Rattle.sections.specs.Sections.{is_few, sections};
ghost use Rattle.sections.specs.Used.{HasTaken, SameFonts};
ghost use Rattle.dv_top.specs.Planning.{AreLight, HasDrafted, PlanFails};
ghost use Rattle.dv_top.specs.Printing.{marks_of_each};
ghost use Rattle.dv_top.specs.Selecting.{ArePages};
ghost use Rattle.dv_top.specs.Writing.{IsWalkable, marks_in};

use crate::draft::Draft;
use crate::outcome::Outcome;
use dvi_doc::{Doc, one_document};
use font_set::Fonts;
use sections::{Plan, Usage};
use std::alloc::{AllocError, Global};
use vf_expand::{Walker, pages_by_place};

/// Lets `usage` take what the pages at these places use, and nothing else. They were looked at before, so no walk stops.
pub fn use_pages(
    doc: &Doc<'_>,
    places: &[u32],
    fonts: &Fonts,
    walker: &mut Walker,
    usage: &mut Usage,
)
    requires walkable { IsWalkable doc.now places.now walker.old.grid fonts.now }
    requires given { usage.old.fonts ≡ length fonts.now.fonts }
    ensures taken { (pages : List PageOf) → ArePages doc.now places.now pages → HasTaken usage.new (marks_in walker.old.grid fonts.now doc.now.fonts pages) }
    ensures same { SameFonts usage.old usage.new }
    ensures kept { walker.new.grid ≡ walker.old.grid }
{
    one_document();
    pages_by_place();
    usage.clear();
    for place in places {
        walker.reset();
        match walker.page(doc, *place as usize, fonts, usage) {
            Ok(()) => {}
            Err(_) => unreachable!(),
        }
    }
}

/// Plans the pages at these places, all but the first ones, which were planned before.
fn plan_pages(
    doc: &Doc<'_>,
    places: &[u32],
    first: usize,
    fonts: &Fonts,
    walker: &mut Walker,
    usage: &mut Usage,
    draft: &mut Draft,
)
    requires walkable { IsWalkable doc.now places.now walker.old.grid fonts.now }
    requires few { length places.now < 2 ^ 32 - 1 }
    requires first { first ≤ length places.now }
    requires priced { IsPriced fonts.now usage.old }
    requires drafted { (pages : List PageOf) → ArePages doc.now places.now pages → HasDrafted fonts.now draft.old.planning.budget draft.old.planning.most draft.old (marks_of_each walker.old.grid fonts.now doc.now.fonts (take first pages)) }
    ensures drafted { (pages : List PageOf) → ArePages doc.now places.now pages → HasDrafted fonts.now draft.old.planning.budget draft.old.planning.most draft.new (marks_of_each walker.old.grid fonts.now doc.now.fonts pages) }
    ensures kept { walker.new.grid ≡ walker.old.grid }
{
    one_document();
    for index in first..places.len() {
        use_pages(doc, &places[index..index + 1], fonts, walker, usage);
        draft.take(index as u32 + 1, usage, fonts);
    }
}

/// Plans all but the first pages, where these were planned.
fn plan_rest(
    alloc: Global,
    doc: &Doc<'_>,
    places: &[u32],
    first: usize,
    fonts: &Fonts,
    walker: &mut Walker,
    draft: &mut Draft,
) -> Result<(), AllocError>
    requires walkable { IsWalkable doc.now places.now walker.old.grid fonts.now }
    requires few { length places.now < 2 ^ 32 - 1 }
    requires first { first ≤ length places.now }
    requires drafted { (pages : List PageOf) → ArePages doc.now places.now pages → HasDrafted fonts.now draft.old.planning.budget draft.old.planning.most draft.old (marks_of_each walker.old.grid fonts.now doc.now.fonts (take first pages)) }
    ensures drafted { (pages : List PageOf) → ArePages doc.now places.now pages → OnOk result (HasDrafted fonts.now draft.old.planning.budget draft.old.planning.most draft.new (marks_of_each walker.old.grid fonts.now doc.now.fonts pages)) }
    ensures kept { walker.new.grid ≡ walker.old.grid }
{
    one_document();
    if draft.is_refused() {
        return Ok(());
    }
    if first == places.len() {
        return Ok(());
    }
    let mut usage = Usage::new(alloc, fonts)?;
    plan_pages(doc, places, first, fonts, walker, &mut usage, draft);
    Ok(())
}

/// Puts the pages at these places into sections, of which the first ones are drafted; answers how many pages each section has, and what
/// those of the last one use.
pub fn plan(
    alloc: Global,
    doc: &Doc<'_>,
    places: &[u32],
    first: usize,
    fonts: &Fonts,
    walker: &mut Walker,
    draft: Draft,
) -> Result<(Plan, Usage), Outcome>
    requires walkable { IsWalkable doc.now places.now walker.old.grid fonts.now }
    requires few { length places.now < 2 ^ 32 - 1 }
    requires first { first ≤ length places.now }
    requires drafted { (pages : List PageOf) → ArePages doc.now places.now pages → HasDrafted fonts.now draft.planning.budget draft.planning.most draft (marks_of_each walker.old.grid fonts.now doc.now.fonts (take first pages)) }
    requires some { IsTrue (is_few draft.planning.most 1) }
    ensures plan { (pages : List PageOf) → ArePages doc.now places.now pages → IfOk result (λ parts. parts.0 ≡ sections fonts.now draft.planning.budget draft.planning.most (marks_of_each walker.old.grid fonts.now doc.now.fonts pages)) }
    ensures last { (pages : List PageOf) → ArePages doc.now places.now pages → IfOk result (λ parts. UsesLast parts.1 parts.0 (marks_of_each walker.old.grid fonts.now doc.now.fonts pages)) }
    ensures fonts { IfOk result (λ parts. parts.1.fonts ≡ length fonts.now.fonts) }
    ensures sum { IfOk result (λ parts. sum parts.0 ≡ length places.now) }
    ensures few { IfOk result (λ parts. length parts.0 ≤ length places.now) }
    ensures light { (pages : List PageOf) → ArePages doc.now places.now pages → OnOk result (AreLight fonts.now draft.planning.budget (marks_of_each walker.old.grid fonts.now doc.now.fonts pages)) }
    ensures cause { (pages : List PageOf) → ArePages doc.now places.now pages → IfErr result (PlanFails fonts.now draft.planning.budget (marks_of_each walker.old.grid fonts.now doc.now.fonts pages)) }
    ensures kept { walker.new.grid ≡ walker.old.grid }
{
    one_document();
    let mut draft = draft;
    plan_rest(alloc, doc, places, first, fonts, walker, &mut draft)?;
    draft.finish()
}
