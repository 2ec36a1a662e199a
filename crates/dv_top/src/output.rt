//! The output of a job whose pages were all looked at: its warnings, and its text.
ghost use Rattle.std.specs.Prelude.{◌≡◌, ◌<◌, ◌≤◌, ◌-◌, ◌^◌, ℕ, IfOk, List, Some, length, map, unsigned_abs};
ghost use Rattle.std.specs.List.{sum};
ghost use Rattle.dv_base.specs.Shelf.{Told};
ghost use Rattle.dvi_doc.specs.Document.{PageOf};
ghost use Rattle.dv_words.specs.JobView.{print_view};
ghost use Rattle.pk_raster.specs.Font.{Bitmap};
ghost use Rattle.pk_raster.specs.Laws.{AreRows};
ghost use Rattle.font_set.specs.Fonts.{bitmap_at};
ghost use Rattle.sections.specs.Planned.{UsesLast};
ghost use Rattle.ps_emit.specs.Pages.{PrintedPage, Work, bytes_of_job};
ghost use Rattle.ps_emit.specs.Written.{counted};
ghost use Rattle.dv_top.specs.Asked.{IsGoodJob};
ghost use Rattle.dv_top.specs.Output.{IsWritable, Prints};
ghost use Rattle.dv_top.specs.Printable.{Printable};
ghost use Rattle.dv_top.specs.Printing.{in_sections, marks_of_each, printed_from};
ghost use Rattle.dv_top.specs.Selecting.{ArePages};
ghost use Rattle.dv_top.specs.Writing.{IsWalkable};
ghost use Rattle.dv_top.specs.Wrote.{WritesSeen};

use crate::outcome::Outcome;
use crate::print::Printout;
use crate::write::{Parts, write_counted};
use dv_base::{Begun, Tray, WriteFault};
use dv_words::PrintJob;
use dvi_doc::{Doc, one_document};
use font_set::Fonts;
use ps_emit::Emitter;
use ps_emit::laws::{calls_make_text, cut_text_shows, cut_text_spares, text_shows, text_spares};
use sections::Usage;
use std::alloc::Global;
use vf_expand::Walker;

/// Writes the text to the output that was begun, and answers how many bytes it has.
fn write_output<T: Tray>(
    tray: &mut T,
    job: &PrintJob,
    doc: &Doc<'_>,
    parts: &Parts<'_>,
    fonts: &Fonts,
    walker: &mut Walker,
    usage: &mut Usage,
) -> Result<u64, WriteFault>
    requires walkable { IsWalkable doc.now parts.now.places.now walker.old.grid fonts.now }
    requires few { length parts.now.places.now < 2 ^ 32 - 1 }
    requires planned { sum parts.now.plan ≡ length parts.now.places.now }
    requires begun { 0 < (T.seen tray.old).begun }
    requires given { usage.old.fonts ≡ length fonts.now.fonts }
    requires last_given { parts.now.last.fonts ≡ length fonts.now.fonts }
    requires last { (pages : List PageOf) → ArePages doc.now parts.now.places.now pages → UsesLast parts.now.last parts.now.plan (marks_of_each walker.old.grid fonts.now doc.now.fonts pages) }
    ensures writes { (pages : List PageOf) → ArePages doc.now parts.now.places.now pages → (printed : List PrintedPage) → printed_from walker.old.grid fonts.now doc.now.fonts 1 pages ≡ Some printed
        → WritesSeen (bytes_of_job job.now.comments parts.now.setup (record { headers = map (λ h. h.items) parts.now.headers.items; fonts = fonts.now; pass = job.now.pass_ps; sections = in_sections parts.now.plan printed })) (T.seen tray.old) (T.seen tray.new) result }
    ensures bytes { (pages : List PageOf) → ArePages doc.now parts.now.places.now pages → (printed : List PrintedPage) → printed_from walker.old.grid fonts.now doc.now.fonts 1 pages ≡ Some printed
        → IfOk result (λ n. n ≡ counted 0 (length (bytes_of_job job.now.comments parts.now.setup (record { headers = map (λ h. h.items) parts.now.headers.items; fonts = fonts.now; pass = job.now.pass_ps; sections = in_sections parts.now.plan printed })))) }
{
    one_document();
    calls_make_text();
    let mut emitter = Emitter::new(tray, fonts, job.comments, job.pass_ps);
    write_counted(doc, parts, fonts, walker, usage, &mut emitter)
}

/// Begins the output and writes the text of a job whose pages were all looked at. Only a fault of the tray can stop it once the output
/// is begun.
pub fn write<T: Tray>(
    alloc: Global,
    job: &PrintJob,
    doc: &Doc<'_>,
    parts: &Parts<'_>,
    fonts: &Fonts,
    walker: &mut Walker,
    usage: &mut Usage,
    tray: &mut T,
) -> Result<Printout, Outcome>
    requires job { IsGoodJob (print_view job.now) }
    requires walkable { IsWalkable doc.now parts.now.places.now walker.old.grid fonts.now }
    requires few { length parts.now.places.now ≤ 1000000 }
    requires planned { sum parts.now.plan ≡ length parts.now.places.now }
    requires sections { length parts.now.plan ≤ length parts.now.places.now }
    requires width { unsigned_abs parts.now.setup.paper.0 < 2 ^ 63 }
    requires height { unsigned_abs parts.now.setup.paper.1 < 2 ^ 63 }
    requires given { usage.old.fonts ≡ length fonts.now.fonts }
    requires last_given { parts.now.last.fonts ≡ length fonts.now.fonts }
    requires last { (pages : List PageOf) → ArePages doc.now parts.now.places.now pages → UsesLast parts.now.last parts.now.plan (marks_of_each walker.old.grid fonts.now doc.now.fonts pages) }
    requires known { length fonts.now.fonts ≤ 1000 }
    requires rows { (id code : ℕ) (bitmap : Bitmap) → bitmap_at fonts.now id code ≡ Some bitmap → AreRows bitmap }
    ensures leaves { (told : Told) (p : Printable (print_view job.now) told) → IsWritable p doc.now parts.now walker.old fonts.now → Prints p (T.seen tray.old) (T.seen tray.new) result }
    ensures later { (T.seen tray.old).faults ≤ (T.seen tray.new).faults }
{
    one_document();
    text_shows();
    cut_text_shows();
    text_spares();
    cut_text_spares();
    match tray.begin(alloc, job.output.as_str()) {
        Begun::Ready => {
            let bytes = write_output(tray, job, doc, parts, fonts, walker, usage)?;
            Ok(Printout {
                pages: parts.places.len() as u32,
                sections: parts.plan.as_slice().len() as u32,
                bytes,
            })
        }
        Begun::Failed => Err(Outcome::WriteFault),
        Begun::OutOfMemory => Err(Outcome::OutOfMemory),
    }
}
