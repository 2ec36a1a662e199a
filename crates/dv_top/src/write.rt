//! The text of a document whose pages can all be printed.
ghost use Rattle.std.specs.Prelude.{◌≡◌, ◌<◌, ◌≤◌, ◌+◌, ◌^◌, ◌-◌, ◌++◌, IfOk, List, OnOk, Some, length, map};
ghost use Rattle.std.specs.List.{sum};
ghost use Rattle.positions.specs.Mark.{Mark};
ghost use Rattle.dvi_doc.specs.Document.{PageOf};
ghost use Rattle.dvi_doc.specs.View.{IsRead};
ghost use Rattle.sections.specs.Planned.{UsesLast};
ghost use Rattle.sections.specs.Used.{HasTaken};
ghost use Rattle.vf_expand.specs.Grid.{State};
ghost use Rattle.vf_expand.specs.Page.{IsPage, page_count, page_marks};
ghost use Rattle.ps_emit.specs.Pages.{PrintedPage, page_calls, pages_calls, section_calls, sections_calls};
ghost use Rattle.ps_emit.specs.Setup.{prologue_of, trailer_of};
ghost use Rattle.ps_emit.specs.Shown.{Holds, comments_of, fonts_of, out_of, pass_of};
ghost use Rattle.ps_emit.specs.Written.{Writes};
ghost use Rattle.dv_top.specs.Printing.{in_sections, marks_of_each, most_steps, printed_from, with_marks};
ghost use Rattle.dv_top.specs.Selecting.{ArePages};
ghost use Rattle.dv_top.specs.Writing.{IsReady, IsWalkable, marks_in};

use crate::label::label;
use crate::plan::use_pages;
use dv_base::{Tray, WriteFault};
use dvi_doc::{Doc, one_document};
use font_set::Fonts;
use ps_emit::laws::usage_gives_fonts;
use ps_emit::{Emitter, Setup};
use sections::{Plan, Usage};
use vf_expand::{WalkFault, Walker, pages_by_place};

/// The fault of the canvas, which alone can stop a walk over a page that was looked at before.
fn canvas_fault(fault: WalkFault<WriteFault>) -> WriteFault
    requires { (f : WriteFault) × (fault ≡ WalkFault.Canvas f) }
{
    match fault {
        WalkFault::Canvas(fault) => fault,
        _ => unreachable!(),
    }
}

/// Writes the page at a place, which has this number in the text.
fn write_page<T: Tray>(
    doc: &Doc<'_>,
    page: usize,
    number: u32,
    fonts: &Fonts,
    walker: &mut Walker,
    emitter: &mut Emitter<'_, T>,
) -> Result<(), WriteFault>
    requires read { IsRead doc.now }
    requires short { length doc.now.bytes < 2 ^ 31 }
    requires page { page < length doc.now.pages }
    requires begun { 0 < (out_of emitter.old).seen.begun }
    requires fonts { fonts_of emitter.old ≡ fonts.now }
    requires ready { (p : PageOf) → IsPage doc.now page p → IsReady walker.old.grid fonts.now doc.now.fonts p }
    requires few { (p : PageOf) → IsPage doc.now page p → walker.old.steps + page_count fonts.now doc.now.fonts p.commands ≤ most_steps }
    ensures writes { (p : PageOf) → IsPage doc.now page p → (marks : List Mark) (state : State) → page_marks walker.old.grid fonts.now doc.now.fonts p.commands ≡ Some (marks, state)
        → Writes (page_calls (comments_of emitter.old) (pass_of emitter.old) (with_marks p number marks)) (out_of emitter.old) (out_of emitter.new) result }
    ensures holds { Holds emitter.old emitter.new }
    ensures kept { walker.new.grid ≡ walker.old.grid }
{
    one_document();
    pages_by_place();
    let label = label(&doc.pages()[page]);
    emitter.begin_page(label, number)?;
    match walker.page(doc, page, fonts, emitter) {
        Ok(()) => emitter.end_page(),
        Err(fault) => Err(canvas_fault(fault)),
    }
}

/// Writes the pages at these places, one after another, of which the first has this number in the text.
fn write_pages<T: Tray>(
    doc: &Doc<'_>,
    places: &[u32],
    first: u32,
    fonts: &Fonts,
    walker: &mut Walker,
    emitter: &mut Emitter<'_, T>,
) -> Result<(), WriteFault>
    requires walkable { IsWalkable doc.now places.now walker.old.grid fonts.now }
    requires few { first + length places.now < 2 ^ 32 }
    requires begun { 0 < (out_of emitter.old).seen.begun }
    requires fonts { fonts_of emitter.old ≡ fonts.now }
    ensures writes { (pages : List PageOf) → ArePages doc.now places.now pages → (printed : List PrintedPage) → printed_from walker.old.grid fonts.now doc.now.fonts first pages ≡ Some printed
        → Writes (pages_calls (comments_of emitter.old) (pass_of emitter.old) printed) (out_of emitter.old) (out_of emitter.new) result }
    ensures holds { Holds emitter.old emitter.new }
    ensures kept { walker.new.grid ≡ walker.old.grid }
{
    one_document();
    for index in 0..places.len() {
        let page = places[index] as usize;
        walker.reset();
        write_page(doc, page, first + index as u32, fonts, walker, emitter)?;
    }
    Ok(())
}

/// Writes the section with the pages at these places, of which the first has this number in the text, and of which it is known what they
/// use.
fn write_section<T: Tray>(
    doc: &Doc<'_>,
    places: &[u32],
    first: u32,
    fonts: &Fonts,
    walker: &mut Walker,
    usage: &Usage,
    emitter: &mut Emitter<'_, T>,
) -> Result<(), WriteFault>
    requires walkable { IsWalkable doc.now places.now walker.old.grid fonts.now }
    requires few { first + length places.now < 2 ^ 32 }
    requires begun { 0 < (out_of emitter.old).seen.begun }
    requires fonts { fonts_of emitter.old ≡ fonts.now }
    requires given { usage.now.fonts ≡ length fonts.now.fonts }
    requires uses { (pages : List PageOf) → ArePages doc.now places.now pages → HasTaken usage.now (marks_in walker.old.grid fonts.now doc.now.fonts pages) }
    ensures writes { (pages : List PageOf) → ArePages doc.now places.now pages → (printed : List PrintedPage) → printed_from walker.old.grid fonts.now doc.now.fonts first pages ≡ Some printed
        → Writes (section_calls (comments_of emitter.old) fonts.now (pass_of emitter.old) printed) (out_of emitter.old) (out_of emitter.new) result }
    ensures holds { Holds emitter.old emitter.new }
    ensures kept { walker.new.grid ≡ walker.old.grid }
{
    one_document();
    usage_gives_fonts();
    emitter.begin_section()?;
    emitter.fonts(usage)?;
    write_pages(doc, places, first, fonts, walker, emitter)?;
    emitter.end_section()
}

/// Walks over the pages at these places for what they use, and writes their section.
fn write_walked<T: Tray>(
    doc: &Doc<'_>,
    places: &[u32],
    first: u32,
    fonts: &Fonts,
    walker: &mut Walker,
    usage: &mut Usage,
    emitter: &mut Emitter<'_, T>,
) -> Result<(), WriteFault>
    requires walkable { IsWalkable doc.now places.now walker.old.grid fonts.now }
    requires few { first + length places.now < 2 ^ 32 }
    requires begun { 0 < (out_of emitter.old).seen.begun }
    requires fonts { fonts_of emitter.old ≡ fonts.now }
    requires given { usage.old.fonts ≡ length fonts.now.fonts }
    ensures writes { (pages : List PageOf) → ArePages doc.now places.now pages → (printed : List PrintedPage) → printed_from walker.old.grid fonts.now doc.now.fonts first pages ≡ Some printed
        → Writes (section_calls (comments_of emitter.old) fonts.now (pass_of emitter.old) printed) (out_of emitter.old) (out_of emitter.new) result }
    ensures holds { Holds emitter.old emitter.new }
    ensures given { usage.new.fonts ≡ length fonts.now.fonts }
    ensures kept { walker.new.grid ≡ walker.old.grid }
{
    use_pages(doc, places, fonts, walker, usage);
    write_section(doc, places, first, fonts, walker, usage, emitter)
}

/// Writes the first of the pages at these places in sections, of which each has so many of them; answers how many pages these are.
fn write_first<T: Tray>(
    doc: &Doc<'_>,
    places: &[u32],
    plan: &[u32],
    fonts: &Fonts,
    walker: &mut Walker,
    usage: &mut Usage,
    emitter: &mut Emitter<'_, T>,
) -> Result<usize, WriteFault>
    requires walkable { IsWalkable doc.now places.now walker.old.grid fonts.now }
    requires few { length places.now < 2 ^ 32 - 1 }
    requires planned { sum plan.now ≤ length places.now }
    requires begun { 0 < (out_of emitter.old).seen.begun }
    requires fonts { fonts_of emitter.old ≡ fonts.now }
    requires given { usage.old.fonts ≡ length fonts.now.fonts }
    ensures writes { (pages : List PageOf) → ArePages doc.now places.now pages → (printed : List PrintedPage) → printed_from walker.old.grid fonts.now doc.now.fonts 1 pages ≡ Some printed
        → Writes (sections_calls (comments_of emitter.old) fonts.now (pass_of emitter.old) (in_sections plan.now printed)) (out_of emitter.old) (out_of emitter.new) result }
    ensures holds { Holds emitter.old emitter.new }
    ensures done { IfOk result (λ n. n ≡ sum plan.now) }
    ensures kept { walker.new.grid ≡ walker.old.grid }
{
    one_document();
    let mut done = 0;
    for count in plan {
        let next = done + *count as usize;
        write_walked(
            doc,
            &places[done..next],
            done as u32 + 1,
            fonts,
            walker,
            usage,
            emitter,
        )?;
        done = next;
    }
    Ok(done)
}

/// Writes the pages at these places in sections, of which each has so many of them, and of which it is known what the last one uses.
fn write_sections<T: Tray>(
    doc: &Doc<'_>,
    places: &[u32],
    plan: &[u32],
    last: &Usage,
    fonts: &Fonts,
    walker: &mut Walker,
    usage: &mut Usage,
    emitter: &mut Emitter<'_, T>,
) -> Result<(), WriteFault>
    requires walkable { IsWalkable doc.now places.now walker.old.grid fonts.now }
    requires few { length places.now < 2 ^ 32 - 1 }
    requires planned { sum plan.now ≡ length places.now }
    requires begun { 0 < (out_of emitter.old).seen.begun }
    requires fonts { fonts_of emitter.old ≡ fonts.now }
    requires given { usage.old.fonts ≡ length fonts.now.fonts }
    requires last_given { last.now.fonts ≡ length fonts.now.fonts }
    requires last { (pages : List PageOf) → ArePages doc.now places.now pages → UsesLast last.now plan.now (marks_of_each walker.old.grid fonts.now doc.now.fonts pages) }
    ensures writes { (pages : List PageOf) → ArePages doc.now places.now pages → (printed : List PrintedPage) → printed_from walker.old.grid fonts.now doc.now.fonts 1 pages ≡ Some printed
        → Writes (sections_calls (comments_of emitter.old) fonts.now (pass_of emitter.old) (in_sections plan.now printed)) (out_of emitter.old) (out_of emitter.new) result }
    ensures holds { Holds emitter.old emitter.new }
{
    one_document();
    if plan.len() == 0 {
        return Ok(());
    }
    let front = &plan[..plan.len() - 1];
    let done = write_first(doc, places, front, fonts, walker, usage, emitter)?;
    write_section(
        doc,
        &places[done..places.len()],
        done as u32 + 1,
        fonts,
        walker,
        last,
        emitter,
    )
}

/// What a text is made of: the setup, the bytes of its headers, the places of its pages, how many of them each section has, and what those
/// of the last one use.
#[derive(Drop)]
pub struct Parts<'a> {
    pub setup: Setup,
    pub headers: Vec<Vec<u8>>,
    pub places: &'a [u32],
    pub plan: Plan,
    pub last: Usage,
}

/// Writes the whole text.
fn write_text<T: Tray>(
    doc: &Doc<'_>,
    parts: &Parts<'_>,
    fonts: &Fonts,
    walker: &mut Walker,
    usage: &mut Usage,
    emitter: &mut Emitter<'_, T>,
) -> Result<(), WriteFault>
    requires walkable { IsWalkable doc.now parts.now.places.now walker.old.grid fonts.now }
    requires few { length parts.now.places.now < 2 ^ 32 - 1 }
    requires planned { sum parts.now.plan ≡ length parts.now.places.now }
    requires begun { 0 < (out_of emitter.old).seen.begun }
    requires fonts { fonts_of emitter.old ≡ fonts.now }
    requires given { usage.old.fonts ≡ length fonts.now.fonts }
    requires last_given { parts.now.last.fonts ≡ length fonts.now.fonts }
    requires last { (pages : List PageOf) → ArePages doc.now parts.now.places.now pages → UsesLast parts.now.last parts.now.plan (marks_of_each walker.old.grid fonts.now doc.now.fonts pages) }
    ensures writes { (pages : List PageOf) → ArePages doc.now parts.now.places.now pages → (printed : List PrintedPage) → printed_from walker.old.grid fonts.now doc.now.fonts 1 pages ≡ Some printed
        → Writes (prologue_of (comments_of emitter.old) parts.now.setup (map (λ h. h.items) parts.now.headers.items) ++ (sections_calls (comments_of emitter.old) fonts.now (pass_of emitter.old) (in_sections parts.now.plan printed) ++ trailer_of (comments_of emitter.old)))
        (out_of emitter.old) (out_of emitter.new) result }
    ensures holds { Holds emitter.old emitter.new }
{
    one_document();
    emitter.prologue(&parts.setup, &parts.headers)?;
    write_sections(
        doc,
        parts.places,
        parts.plan.as_slice(),
        &parts.last,
        fonts,
        walker,
        usage,
        emitter,
    )?;
    emitter.trailer()
}

/// Writes the whole text, and answers how many bytes the tray has taken.
pub fn write_counted<T: Tray>(
    doc: &Doc<'_>,
    parts: &Parts<'_>,
    fonts: &Fonts,
    walker: &mut Walker,
    usage: &mut Usage,
    emitter: &mut Emitter<'_, T>,
) -> Result<u64, WriteFault>
    requires walkable { IsWalkable doc.now parts.now.places.now walker.old.grid fonts.now }
    requires few { length parts.now.places.now < 2 ^ 32 - 1 }
    requires planned { sum parts.now.plan ≡ length parts.now.places.now }
    requires begun { 0 < (out_of emitter.old).seen.begun }
    requires fonts { fonts_of emitter.old ≡ fonts.now }
    requires given { usage.old.fonts ≡ length fonts.now.fonts }
    requires last_given { parts.now.last.fonts ≡ length fonts.now.fonts }
    requires last { (pages : List PageOf) → ArePages doc.now parts.now.places.now pages → UsesLast parts.now.last parts.now.plan (marks_of_each walker.old.grid fonts.now doc.now.fonts pages) }
    ensures writes { (pages : List PageOf) → ArePages doc.now parts.now.places.now pages → (printed : List PrintedPage) → printed_from walker.old.grid fonts.now doc.now.fonts 1 pages ≡ Some printed
        → Writes (prologue_of (comments_of emitter.old) parts.now.setup (map (λ h. h.items) parts.now.headers.items) ++ (sections_calls (comments_of emitter.old) fonts.now (pass_of emitter.old) (in_sections parts.now.plan printed) ++ trailer_of (comments_of emitter.old)))
        (out_of emitter.old) (out_of emitter.new) result }
    ensures bytes { IfOk result (λ n. n ≡ (out_of emitter.new).count) }
    ensures holds { Holds emitter.old emitter.new }
{
    write_text(doc, parts, fonts, walker, usage, emitter)?;
    Ok(emitter.bytes())
}
