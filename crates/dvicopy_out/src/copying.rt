//! A document in, its copy out.
ghost use Rattle.std.specs.Prelude.{◌≡◌, ◌<◌, ◌≤◌, ◌+◌, ◌-◌, ◌%◌, ◌^◌, ◌++◌, ◌∷◌, [], OnOk, OnErr, IfOk, IfErr, MatchBool, length, negsuc, pos, unsigned_abs, vec_len, vec_capacity};
ghost use Rattle.std.specs.List.{All, AllByRecursion};
ghost use Rattle.dv_base.specs.FileName.{text_of};
ghost use Rattle.dvi_doc.specs.View.{IsRead};
ghost use Rattle.dvi_ops.specs.Shortest.{IsWord};
ghost use Rattle.font_set.specs.Count.{count};
ghost use Rattle.font_set.specs.Search.{page_of};
ghost use Rattle.vf_expand.specs.Pages.{most_nested};
ghost use Rattle.vf_expand.specs.Causes.{IsMany};
ghost use Rattle.dvicopy_out.specs.Copies.{back_commands, filling, front_commands, last_bop, page_commands, page_length, pages_bytes, pages_length};
ghost use Rattle.dvicopy_out.specs.Counted.{counted};
ghost use Rattle.dvicopy_out.specs.Leaves.{Copied, CopyFails, WriteFails, copy_of, work_of};
ghost use Rattle.dvicopy_out.specs.Made.{IsMade, IsMeasured, IsPutAt, WhereBegun};
ghost use Rattle.dvicopy_out.specs.Measured as measured;
ghost use Rattle.dvicopy_out.specs.Pages.{IsCauseAt, IsCovered, IsReady, IsWalkCause, commands_at, copy_page, copy_pages};
ghost use Rattle.dvicopy_out.specs.Sent.{Sends};
ghost use Rattle.dvicopy_out.specs.Shown.{Holds, fonts_of, last_of, out_of, place_of};
ghost use Rattle.dvicopy_out.specs.Spelled.{spelled};
ghost use Rattle.dvicopy_out.specs.Fronts.{bytes_of, definitions_of};
ghost use Rattle.dvicopy_out.specs.Numbered.{definitions};
ghost use Rattle.dv_base.specs.Causes.{Rose};
ghost use Rattle.dv_base.specs.Tray.{Appends, AppendsFront, KeepsNames, WhereTold};

use crate::fault::CopyFault;
use crate::front::Front;
use crate::measure::Measure;
use crate::writer::{ROOM, Writer};
use dv_base::{Begun, FileName, Tray, WriteFault};
use dvi_doc::{Doc, Page, one_document};
use dvi_ops::{Cmd, Tail};
use font_set::Fonts;
use positions::NoFault;
use std::alloc::Global;
use std::marker::Model;
use vf_expand::{WalkFault, Walker, pages_by_place, painted_rules};

/// The longest copy, in bytes.
const LONGEST: u64 = 2_147_483_647;

/// How many bytes the post and the post_post have together.
const BEHIND: u64 = 35;

/// The bytes that fill a file up.
const FILL: [u8; 7] = [223; 7];

/// Each count has 32 bits.
fn counts_fit(counts: &[i32])
    ensures { All IsWord counts.now }
{
    for count in counts {
        let _number = *count;
    }
}

/// The counts of a page, of which there are ten.
fn counts(page: &Page) -> &[i32; 10]
    ensures value { result.now ≡ page.now.counts }
    ensures ten { length page.now.counts ≡ 10 }
    ensures words { All IsWord page.now.counts }
{
    counts_fit(&page.counts);
    &page.counts
}

/// The numbers of a document's preamble and postamble have 32 bits, and the comment is short. A caller cites what this ensures; the call
/// does nothing.
fn numbers_fit(doc: &Doc<'_>)
    ensures num { IsWord doc.now.head.num }
    ensures den { IsWord doc.now.head.den }
    ensures comment { length doc.now.head.comment < 256 }
    ensures tall { IsWord doc.now.tail.tall }
    ensures wide { IsWord doc.now.tail.wide }
{
    let _ = doc.head();
    let _ = doc.tail();
}

/// How long the copy of a page is.
fn measure_page(
    doc: &Doc<'_>,
    page: usize,
    fonts: &Fonts,
    walker: &mut Walker,
    measure: &mut Measure<'_>,
) -> Result<u64, WalkFault<NoFault>>
    requires read { IsRead doc.now }
    requires short { length doc.now.bytes < 2 ^ 31 }
    requires covered { IsCovered fonts.now doc.now page }
    requires fonts { measured.fonts_of measure.old ≡ fonts.now }
    ensures bytes { IfOk result (λ n. n ≡ counted 0 (page_length fonts.now (copy_page walker.old.grid fonts.now doc.now page))) }
    ensures ready { OnOk result (IsReady walker.old.grid fonts.now doc.now page) }
    ensures put { OnOk result (IsPutAt walker.old.grid fonts.now doc.now page) }
    ensures steps { OnOk result (walker.new.steps ≡ walker.old.steps + count fonts.now most_nested (page_of doc.now page)) }
    ensures cause { IfErr result (IsCauseAt walker.old.grid fonts.now doc.now page) }
    ensures many { IfErr result (IsMany (walker.old.steps + count fonts.now most_nested (page_of doc.now page))) }
    ensures kept { walker.new.grid ≡ walker.old.grid }
    ensures same { OnOk result (measured.fonts_of measure.new ≡ fonts.now) }
{
    one_document();
    pages_by_place();
    painted_rules();
    let _ = counts(&doc.pages()[page]);
    measure.begin_page();
    match walker.page(doc, page, fonts, measure) {
        Ok(()) => Ok(measure.bytes()),
        Err(fault) => Err(fault),
    }
}

/// What was measured of a copy: how many bytes its pages have together. The greatest `u64` stays.
#[derive(Drop)]
pub struct Measured {
    bytes: u64,
}

impl Model for Measured {
    ghost use Rattle.std.specs.Prelude.{ℕ};

    ghost Value = { ℕ };

    ghost view = { λ m. m.bytes };
}

impl Measured {
    /// The bytes that the pages have together.
    pub fn bytes(&self) -> u64
        ensures { result ≡ self.now }
    {
        self.bytes
    }
}

/// Measures the copies of pages of a document, in this order, for [`write_copy`], or answers why one of the pages can't be walked over.
///
/// `fonts` has to cover each of the pages. The walker counts anew.
pub fn measure_copy(
    doc: &Doc<'_>,
    fonts: &Fonts,
    walker: &mut Walker,
    pages: &[u32],
) -> Result<Measured, WalkFault<NoFault>>
    requires read { IsRead doc.now }
    requires short { length doc.now.bytes < 2 ^ 31 }
    requires covered { AllByRecursion (IsCovered fonts.now doc.now) pages.now }
    ensures measured { IfOk result (IsMeasured walker.old.grid fonts.now doc.now pages.now) }
    ensures cause { IfErr result (IsWalkCause walker.old.grid fonts.now doc.now pages.now) }
    ensures kept { walker.new.grid ≡ walker.old.grid }
{
    walker.reset();
    let mut measure = Measure::new(fonts);
    let mut bytes = 0u64;
    for page in pages {
        match measure_page(doc, *page as usize, fonts, walker, &mut measure) {
            Ok(more) => bytes = bytes.saturating_add(more),
            Err(fault) => return Err(fault),
        }
    }
    let _ = walker.steps();
    Ok(Measured { bytes })
}

/// Whether a copy would be too long whose front and definitions have so many bytes together, and its pages so many.
fn is_too_long(around: u64, pages: u64) -> bool
    ensures { let n = around + pages + 35 in MatchBool result (2 ^ 31 - 1 < n + length (filling n)) (n + length (filling n) ≤ 2 ^ 31 - 1) }
{
    let body = around.saturating_add(BEHIND).saturating_add(pages);
    body > LONGEST || body + fill(body) as u64 > LONGEST
}

/// How many bytes 223 fill a file up that has so many bytes.
fn fill(bytes: u64) -> usize
    requires { bytes < 2 ^ 63 }
    ensures value { result ≡ length (filling bytes) }
    ensures few { result ≤ 7 }
{
    7 - ((bytes + 3) % 4) as usize
}

/// The fault of the canvas, which alone can stop a walk over a page that was walked over before.
fn canvas_fault(fault: WalkFault<WriteFault>) -> WriteFault
    requires { (f : WriteFault) × (fault ≡ WalkFault.Canvas f) }
{
    match fault {
        WalkFault::Canvas(fault) => fault,
        _ => unreachable!(),
    }
}

/// Writes the copy of one page.
fn write_page<T: Tray>(
    doc: &Doc<'_>,
    page: usize,
    fonts: &Fonts,
    walker: &mut Walker,
    writer: &mut Writer<'_, T>,
) -> Result<(), WriteFault>
    requires read { IsRead doc.now }
    requires short { length doc.now.bytes < 2 ^ 31 }
    requires covered { IsCovered fonts.now doc.now page }
    requires ready { IsReady walker.old.grid fonts.now doc.now page }
    requires few { walker.old.steps + count fonts.now most_nested (page_of doc.now page) ≤ 50000000 }
    requires begun { 0 < (out_of writer.old).seen.begun }
    requires fonts { fonts_of writer.old ≡ fonts.now }
    requires place { place_of writer.old < 2 ^ 31 }
    requires last { unsigned_abs (last_of writer.old) < 2 ^ 31 }
    ensures sends { Sends (spelled (page_commands fonts.now (last_of writer.old) (copy_page walker.old.grid fonts.now doc.now page))) (out_of writer.old) (out_of writer.new) result }
    ensures place { OnOk result (place_of writer.new ≡ counted (place_of writer.old) (length (spelled (page_commands fonts.now (last_of writer.old) (copy_page walker.old.grid fonts.now doc.now page))))) }
    ensures last { OnOk result (last_of writer.new ≡ pos (place_of writer.old)) }
    ensures holds { Holds writer.old writer.new }
    ensures steps { OnOk result (walker.new.steps ≡ walker.old.steps + count fonts.now most_nested (page_of doc.now page)) }
    ensures kept { walker.new.grid ≡ walker.old.grid }
{
    one_document();
    pages_by_place();
    writer.begin_page(counts(&doc.pages()[page]))?;
    match walker.page(doc, page, fonts, writer) {
        Ok(()) => writer.end_page(),
        Err(fault) => Err(canvas_fault(fault)),
    }
}

/// Writes the copies of the pages, one after another.
fn write_pages<T: Tray>(
    doc: &Doc<'_>,
    fonts: &Fonts,
    walker: &mut Walker,
    pages: &[u32],
    writer: &mut Writer<'_, T>,
) -> Result<(), WriteFault>
    requires read { IsRead doc.now }
    requires short { length doc.now.bytes < 2 ^ 31 }
    requires covered { AllByRecursion (IsCovered fonts.now doc.now) pages.now }
    requires ready { AllByRecursion (IsReady walker.old.grid fonts.now doc.now) pages.now }
    requires few { walker.old.steps + commands_at fonts.now doc.now pages.now ≤ 50000000 }
    requires begun { 0 < (out_of writer.old).seen.begun }
    requires fonts { fonts_of writer.old ≡ fonts.now }
    requires last { last_of writer.old ≡ negsuc 0 }
    requires room { place_of writer.old + length (pages_bytes fonts.now (negsuc 0) (place_of writer.old) (copy_pages walker.old.grid fonts.now doc.now pages.now)) < 2 ^ 31 }
    ensures sends { Sends (pages_bytes fonts.now (negsuc 0) (place_of writer.old) (copy_pages walker.old.grid fonts.now doc.now pages.now)) (out_of writer.old) (out_of writer.new) result }
    ensures place { OnOk result (place_of writer.new ≡ place_of writer.old + length (pages_bytes fonts.now (negsuc 0) (place_of writer.old) (copy_pages walker.old.grid fonts.now doc.now pages.now))) }
    ensures last { OnOk result (last_of writer.new ≡ last_bop fonts.now (negsuc 0) (place_of writer.old) (copy_pages walker.old.grid fonts.now doc.now pages.now)) }
    ensures holds { Holds writer.old writer.new }
{
    for page in pages {
        write_page(doc, *page as usize, fonts, walker, writer)?;
    }
    Ok(())
}

/// Writes what stands behind the pages, of which there are so many.
fn write_back<T: Tray>(
    doc: &Doc<'_>,
    front: &Front,
    mag: i32,
    pages: usize,
    writer: &mut Writer<'_, T>,
) -> Result<(), WriteFault>
    requires begun { 0 < (out_of writer.old).seen.begun }
    requires definitions { definitions_of front.now ≡ spelled (definitions (fonts_of writer.old)) }
    requires place { place_of writer.old < 2 ^ 31 }
    requires last { unsigned_abs (last_of writer.old) < 2 ^ 31 }
    ensures sends { Sends (spelled (back_commands (work_of doc.now (fonts_of writer.old) mag) (last_of writer.old) (place_of writer.old) pages)) (out_of writer.old) (out_of writer.new) result }
    ensures place { OnOk result (place_of writer.new ≡ counted (place_of writer.old) (length (spelled (back_commands (work_of doc.now (fonts_of writer.old) mag) (last_of writer.old) (place_of writer.old) pages)))) }
    ensures holds { Holds writer.old writer.new }
{
    let head = doc.head();
    let tail = doc.tail();
    let at = writer.place();
    writer.command(&Cmd::Post(Tail {
        back: writer.last() as i32,
        num: head.num,
        den: head.den,
        mag,
        tall: tail.tall,
        wide: tail.wide,
        depth: 0,
        pages: (pages % 65_536) as u16,
    }))?;
    writer.put(front.definitions())?;
    writer.command(&Cmd::PostPost {
        back: at as u32,
        id: 2,
    })
}

/// Fills the file up and lets all of it go out.
fn write_end<T: Tray>(writer: &mut Writer<'_, T>) -> Result<(), WriteFault>
    requires begun { 0 < (out_of writer.old).seen.begun }
    requires place { place_of writer.old < 2 ^ 31 }
    ensures sends { Sends (filling (place_of writer.old)) (out_of writer.old) (out_of writer.new) result }
    ensures none { OnOk result ((out_of writer.new).waiting ≡ []) }
    ensures holds { Holds writer.old writer.new }
{
    let count = fill(writer.place());
    writer.put(&FILL[..count])?;
    writer.finish()
}

/// Writes the whole copy.
fn write_all_of<T: Tray>(
    doc: &Doc<'_>,
    front: &Front,
    fonts: &Fonts,
    walker: &mut Walker,
    pages: &[u32],
    mag: i32,
    writer: &mut Writer<'_, T>,
) -> Result<(), WriteFault>
    requires read { IsRead doc.now }
    requires short { length doc.now.bytes < 2 ^ 31 }
    requires covered { AllByRecursion (IsCovered fonts.now doc.now) pages.now }
    requires ready { AllByRecursion (IsReady walker.old.grid fonts.now doc.now) pages.now }
    requires few { walker.old.steps + commands_at fonts.now doc.now pages.now ≤ 50000000 }
    requires begun { 0 < (out_of writer.old).seen.begun }
    requires fonts { fonts_of writer.old ≡ fonts.now }
    requires starts { place_of writer.old ≡ 0 }
    requires last { last_of writer.old ≡ negsuc 0 }
    requires front { bytes_of front.now ≡ spelled (front_commands (work_of doc.now fonts.now mag)) }
    requires definitions { definitions_of front.now ≡ spelled (definitions fonts.now) }
    requires room { length (copy_of walker.old.grid fonts.now doc.now pages.now mag) < 2 ^ 31 }
    ensures sends { Sends (copy_of walker.old.grid fonts.now doc.now pages.now mag) (out_of writer.old) (out_of writer.new) result }
    ensures none { OnOk result ((out_of writer.new).waiting ≡ []) }
    ensures holds { Holds writer.old writer.new }
{
    writer.put(front.as_slice())?;
    write_pages(doc, fonts, walker, pages, writer)?;
    write_back(doc, front, mag, pages.len(), writer)?;
    write_end(writer)
}

/// Writes the whole copy to the output that was begun.
fn write_output<T: Tray>(
    tray: &mut T,
    doc: &Doc<'_>,
    front: &Front,
    fonts: &Fonts,
    walker: &mut Walker,
    pages: &[u32],
    mag: i32,
    buffer: &mut Vec<u8>,
) -> Result<(), WriteFault>
    requires read { IsRead doc.now }
    requires short { length doc.now.bytes < 2 ^ 31 }
    requires covered { AllByRecursion (IsCovered fonts.now doc.now) pages.now }
    requires ready { AllByRecursion (IsReady walker.old.grid fonts.now doc.now) pages.now }
    requires few { walker.old.steps + commands_at fonts.now doc.now pages.now ≤ 50000000 }
    requires begun { 0 < (T.seen tray.old).begun }
    requires front { bytes_of front.now ≡ spelled (front_commands (work_of doc.now fonts.now mag)) }
    requires definitions { definitions_of front.now ≡ spelled (definitions fonts.now) }
    requires room { length (copy_of walker.old.grid fonts.now doc.now pages.now mag) < 2 ^ 31 }
    requires empty { vec_len buffer.old ≡ 0 }
    requires capacity { 65536 ≤ vec_capacity buffer.old }
    ensures all { OnOk result (WhereTold (Appends (copy_of walker.old.grid fonts.now doc.now pages.now mag)) (T.seen tray.old).outputs (T.seen tray.new).outputs) }
    ensures front { OnErr result (WhereTold (AppendsFront (copy_of walker.old.grid fonts.now doc.now pages.now mag)) (T.seen tray.old).outputs (T.seen tray.new).outputs) }
    ensures failed { OnErr result (Rose (T.seen tray.old).faults (T.seen tray.new).faults) }
    ensures keeps { KeepsNames (T.seen tray.old) (T.seen tray.new) }
{
    let mut writer = Writer::new(tray, fonts, buffer);
    write_all_of(doc, front, fonts, walker, pages, mag, &mut writer)
}

/// Writes the copy of pages that were measured, as [`copy`] does, which measures them first.
///
/// Only now the output of that name is begun; from that moment only the tray can stop the copy, and no memory is taken. The walker counts
/// anew.
pub fn write_copy<T: Tray>(
    alloc: Global,
    doc: &Doc<'_>,
    fonts: &Fonts,
    walker: &mut Walker,
    pages: &[u32],
    measured: &Measured,
    mag: i32,
    name: &FileName,
    tray: &mut T,
) -> Result<(), CopyFault>
    requires read { IsRead doc.now }
    requires short { length doc.now.bytes < 2 ^ 31 }
    requires covered { AllByRecursion (IsCovered fonts.now doc.now) pages.now }
    requires measured { IsMeasured walker.old.grid fonts.now doc.now pages.now measured.now }
    ensures copied { OnOk result (Copied (text_of name.now) (copy_of walker.old.grid fonts.now doc.now pages.now mag) (T.seen tray.old) (T.seen tray.new)) }
    ensures short { OnOk result (length (copy_of walker.old.grid fonts.now doc.now pages.now mag) < 2 ^ 31) }
    ensures made { WhereBegun (IsMade walker.old.grid fonts.now doc.now pages.now mag) result }
    ensures fails { IfErr result (WriteFails (text_of name.now) (copy_of walker.old.grid fonts.now doc.now pages.now mag) (T.seen tray.old) (T.seen tray.new)) }
    ensures later { (T.seen tray.old).faults ≤ (T.seen tray.new).faults }
{
    numbers_fit(doc);
    let Ok(front) = Front::new(alloc, doc, fonts, mag) else {
        return Err(CopyFault::OutOfMemory);
    };
    if is_too_long(front.around(), measured.bytes()) {
        return Err(CopyFault::CopyTooLong);
    }
    let Ok(mut buffer) = Vec::with_capacity(alloc, ROOM) else {
        return Err(CopyFault::OutOfMemory);
    };
    match tray.begin(alloc, name.as_str()) {
        Begun::Ready => {}
        Begun::Failed => return Err(CopyFault::WriteFault),
        Begun::OutOfMemory => return Err(CopyFault::OutOfMemory),
    }
    walker.reset();
    match write_output(tray, doc, &front, fonts, walker, pages, mag, &mut buffer) {
        Ok(()) => Ok(()),
        Err(_) => Err(CopyFault::WriteFault),
    }
}

/// Copies pages of a document, in this order, with this magnification: the same marks at the same places, and no virtual font.
///
/// The copy is measured first; then the output of that name is begun, and the copy is written. `fonts` has to cover each of the pages.
/// From the moment at which the output is begun only the tray can stop it, and no memory is taken. The walker counts anew for each of the
/// two walks.
pub fn copy<T: Tray>(
    alloc: Global,
    doc: &Doc<'_>,
    fonts: &Fonts,
    walker: &mut Walker,
    pages: &[u32],
    mag: i32,
    name: &FileName,
    tray: &mut T,
) -> Result<(), CopyFault>
    requires read { IsRead doc.now }
    requires short { length doc.now.bytes < 2 ^ 31 }
    requires covered { AllByRecursion (IsCovered fonts.now doc.now) pages.now }
    ensures copied { OnOk result (Copied (text_of name.now) (copy_of walker.old.grid fonts.now doc.now pages.now mag) (T.seen tray.old) (T.seen tray.new)) }
    ensures ready { OnOk result (AllByRecursion (IsReady walker.old.grid fonts.now doc.now) pages.now) }
    ensures short { OnOk result (length (copy_of walker.old.grid fonts.now doc.now pages.now mag) < 2 ^ 31) }
    ensures made { WhereBegun (IsMade walker.old.grid fonts.now doc.now pages.now mag) result }
    ensures fails { IfErr result (CopyFails walker.old.grid fonts.now doc.now pages.now (text_of name.now) (copy_of walker.old.grid fonts.now doc.now pages.now mag) (T.seen tray.old) (T.seen tray.new)) }
    ensures later { (T.seen tray.old).faults ≤ (T.seen tray.new).faults }
{
    match measure_copy(doc, fonts, walker, pages) {
        Ok(measured) => write_copy(alloc, doc, fonts, walker, pages, &measured, mag, name, tray),
        Err(fault) => Err(CopyFault::Walk(fault)),
    }
}
