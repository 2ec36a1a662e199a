//! The pages that a job asks for.
ghost use Rattle.std.specs.Prelude.{◌≡◌, ◌<◌, ◌≤◌, IfErr, IfOk, OnOk, length};
ghost use Rattle.dvi_doc.specs.Document.{Document};
ghost use Rattle.dvi_doc.specs.Grammar.{IsDoc};
ghost use Rattle.dvi_doc.specs.View.{IsRead};
ghost use Rattle.dv_top.specs.Each.{Each};
ghost use Rattle.dv_top.specs.Selecting.{IsChoice, NotChosen, places_of};

use crate::outcome::Outcome;
use dv_words::{Parity, SelectFault, Windows, select};
use dvi_doc::{Doc, one_document};
use std::alloc::Global;

/// The places in `doc.pages()` of the pages that are asked for, in output order, or why there are none.
pub fn choose(
    alloc: Global,
    doc: &Doc<'_>,
    windows: &Windows,
    parity: Parity,
    limit: Option<u32>,
    reversed: bool,
    collated: u32,
) -> Result<Vec<u32>, Outcome>
    requires read { IsRead doc.now }
    ensures choice { (d : Document) → IsDoc doc.now.bytes d → OnOk result (IsChoice d (record { windows = windows.now; parity = parity; limit = limit; reversed = reversed; collated = collated })) }
    ensures places { (d : Document) → IsDoc doc.now.bytes d → IfOk result (λ v. v.items ≡ places_of d (record { windows = windows.now; parity = parity; limit = limit; reversed = reversed; collated = collated })) }
    ensures within { IfOk result (λ v. Each (λ place. place < length doc.now.pages) v.items) }
    ensures few { IfOk result (λ v. length v.items ≤ 1000000) }
    ensures cause { (d : Document) → IsDoc doc.now.bytes d → IfErr result (NotChosen d (record { windows = windows.now; parity = parity; limit = limit; reversed = reversed; collated = collated })) }
{
    one_document();
    match select(alloc, doc, windows, parity, limit, reversed, collated) {
        Ok(places) => Ok(places),
        Err(SelectFault::NoSuchPage(number)) => Err(Outcome::NoSuchPage { number }),
        Err(SelectFault::TooManyPages) => Err(Outcome::TooManyPages),
        Err(SelectFault::OutOfMemory) => Err(Outcome::OutOfMemory),
    }
}
