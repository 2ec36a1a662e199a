//! The header files of a run.
ghost use Rattle.std.specs.Prelude.{◌≤◌, List, IfErr, IfOk, OnOk, length, map};
ghost use Rattle.dv_base.specs.FileName.{text_of};
ghost use Rattle.dv_base.specs.Shelf.{Keeps};
ghost use Rattle.positions.specs.Mark.{Mark};
ghost use Rattle.dv_words.specs.Jobs.{PrintJob as TheJob};
ghost use Rattle.dv_top.specs.Headers.{HeadersFail, HeldEach, NotHeld, header_names};
ghost use Rattle.dv_top.specs.Noted.{HasNoted};

use crate::notes::Notes;
use crate::outcome::Outcome;
use crate::read::read_file;
use dv_base::{FileName, Shelf};
use std::alloc::Global;

/// The most header files.
const MOST_HEADERS: usize = 64;

/// The most bytes of a header file.
const MOST: u32 = 4_194_304;

/// Reads the header files of these names, one after another.
pub fn read_headers<S: Shelf>(
    alloc: Global,
    names: &[FileName],
    shelf: &mut S,
) -> Result<Vec<Vec<u8>>, Outcome>
    ensures held { IfOk result (λ files. HeldEach (S.told shelf.old) (map text_of names.now) (map (λ f. f.items) files.items)) }
    ensures cause { IfErr result (NotHeld (map text_of names.now) (S.told shelf.old) (S.told shelf.new)) }
    ensures keeps { Keeps (S.told shelf.old) (S.told shelf.new) }
{
    let mut files = Vec::with_capacity(alloc, names.len())?;
    for name in names {
        let file = read_file(alloc, name, MOST, shelf)?;
        files.push_reserved(file);
    }
    Ok(files)
}

/// Reads the header files that notes name, where these aren't too many.
pub fn headers_of<S: Shelf>(
    alloc: Global,
    notes: &Notes,
    shelf: &mut S,
) -> Result<Vec<Vec<u8>>, Outcome>
    ensures few { (job : TheJob) (pages : List (List Mark)) → HasNoted job notes.now pages → OnOk result (length (header_names job.headers pages) ≤ 64) }
    ensures held { (job : TheJob) (pages : List (List Mark)) → HasNoted job notes.now pages → IfOk result (λ files. HeldEach (S.told shelf.old) (header_names job.headers pages) (map (λ f. f.items) files.items)) }
    ensures cause { (job : TheJob) (pages : List (List Mark)) → HasNoted job notes.now pages → IfErr result (HeadersFail (header_names job.headers pages) (S.told shelf.old) (S.told shelf.new)) }
    ensures keeps { Keeps (S.told shelf.old) (S.told shelf.new) }
{
    let names = notes.headers();
    if names.len() > MOST_HEADERS {
        return Err(Outcome::TooManyHeaders);
    }
    read_headers(alloc, names, shelf)
}
