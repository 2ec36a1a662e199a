//! A document that is made in memory, printed.
ghost use Rattle.std.specs.Prelude.{◌≡◌, ◌≤◌, ◌+◌, ◌++◌, ℕ, IfOk, length};
ghost use Rattle.dv_base.specs.FileName.{text_of};
ghost use Rattle.dv_base.specs.MemShelf.{told_of};
ghost use Rattle.dv_base.specs.Shelf.{Told};
ghost use Rattle.dv_base.specs.Tray.{Says};
ghost use Rattle.dv_words.specs.JobView.{print_view};
ghost use Rattle.dv_top.specs.Asked.{IsGoodJob};
ghost use Rattle.dv_top.specs.Sampled.{IsSampleShelf, Leaves, sample_line, sample_print};

use crate::outcome::Outcome;
use crate::print::{Printout, print_job};
use dv_base::{FileName, Line, MemShelf, Tray};
use dv_words::{Names, Parity, PrintJob, Windows};
use sample_files::{bitmaps, document, widths};
use std::alloc::{AllocError, Global};

/// A shelf with the document and the files of its font.
fn sample_shelf(alloc: Global, pages: u32) -> Result<MemShelf, AllocError>
    requires { pages ≤ 1000 }
    ensures { IfOk result (λ shelf. IsSampleShelf pages (told_of shelf)) }
{
    let mut shelf = MemShelf::new(alloc);
    shelf.add("sample.dvi", &document(alloc, pages)?)?;
    shelf.add("smp.tfm", &widths(alloc)?)?;
    shelf.add("smp.300pk", &bitmaps(alloc)?)?;
    Ok(shelf)
}

/// A name that is short enough.
fn file_name(text: &str) -> FileName
    requires { length text.now ≤ 540 }
    ensures { text_of result ≡ text.now }
{
    match FileName::new(text) {
        Some(name) => name,
        None => unreachable!(),
    }
}

/// The job of the words `dvips -q -D 300 -S 8 -o sample.ps sample.dvi`.
fn sample_print(alloc: Global) -> PrintJob
    ensures view { print_view result ≡ sample_print }
    ensures good { IsGoodJob (print_view result) }
{
    PrintJob {
        input: file_name("sample.dvi"),
        output: file_name("sample.ps"),
        windows: Windows::All,
        limit: None,
        reverse: false,
        parity: Parity::All,
        copies: 1,
        collated: 1,
        mag: None,
        dpi: (300, 300),
        per_section: Some(8),
        headers: Names(Vec::new(alloc)),
        quiet: true,
        comments: true,
        paper: None,
        offset: (0, 0),
        drift: 2,
        memory: 16_000_000,
        pass_ps: false,
    }
}

/// Says what the text of so many pages has.
fn say_line<T: Tray>(pages: u32, count: &Printout, tray: &mut T)
    ensures { Says (sample_line pages count.now) (T.seen tray.old) (T.seen tray.new) }
{
    let mut line = Line::new();
    line.text(b"pages=");
    line.number(pages);
    line.text(b" sections=");
    line.number(count.sections);
    line.text(b" glyphs=");
    line.number(2_400 * u64::from(pages));
    line.text(b" rules=");
    line.number(pages);
    line.text(b" bytes=");
    line.number(count.bytes);
    tray.say(line.as_slice());
}

/// Prints the files of the shelf, which are those of so many pages, and says what the text has. Any end but done and a fault of the tray is
/// answered like want of memory.
fn print_sample<T: Tray>(alloc: Global, pages: u32, shelf: &mut MemShelf, tray: &mut T) -> Outcome
    requires { IsSampleShelf pages (told_of shelf.old) }
    ensures leaves { Leaves pages (T.seen tray.old) (T.seen tray.new) result }
    ensures later { (T.seen tray.old).faults ≤ (T.seen tray.new).faults }
{
    match print_job(alloc, &sample_print(alloc), shelf, tray) {
        Ok(count) => {
            say_line(pages, &count, tray);
            Outcome::Done
        }
        Err(outcome) => match outcome {
            Outcome::WriteFault => Outcome::WriteFault,
            _ => Outcome::OutOfMemory,
        },
    }
}

/// Prints a document of so many pages, which is made in memory; no file is read.
pub fn sample_job<T: Tray>(alloc: Global, pages: u32, tray: &mut T) -> Outcome
    requires { pages ≤ 1000 }
    ensures leaves { Leaves pages (T.seen tray.old) (T.seen tray.new) result }
    ensures later { (T.seen tray.old).faults ≤ (T.seen tray.new).faults }
{
    match sample_shelf(alloc, pages) {
        Ok(mut shelf) => print_sample(alloc, pages, &mut shelf, tray),
        Err(_) => Outcome::OutOfMemory,
    }
}
