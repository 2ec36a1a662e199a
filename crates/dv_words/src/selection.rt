//! The pages that are chosen.
ghost use Rattle.std.specs.Prelude.{◌≡◌, ◌++◌, ◌∷◌, [], IfOk, IfErr, OnOk, length, map, max, nat_le, ◌*◌};
ghost use Rattle.dvi_doc.specs.View.{page_view};
ghost use Rattle.dv_words.specs.Chosen.{IsCause, IsChosen, numbers_of};
ghost use Rattle.dv_words.specs.Selection.{is_odd, keeps, kept_from, limited, times, turned};
ghost use Rattle.dv_words.specs.Repeated.{IsFar, IsRepeated, IsTimesCause};

use crate::page_index::index_of;
use crate::pages::{Parity, Windows};
use crate::spans::{Span, find_spans, wanted_in};
use dvi_doc::{Doc, Page};
use std::alloc::{AllocError, Global};

/// Why no pages are chosen.
#[derive(Clone, Copy, Debug, PartialEq, Eq)]
pub enum SelectFault {
    /// The first number of a window that isn't there, window by window, in each the start before the end.
    NoSuchPage(i64),
    /// All numbers are there, and more than 1,000,000 pages would be chosen.
    TooManyPages,
    /// There was no memory.
    OutOfMemory,
}

impl From<AllocError> for SelectFault {
    ghost use Rattle.std.specs.Prelude.{◌≡◌};
    ghost use Rattle.dv_words.specs.declared.selection.SelectFault.TheVariants.{OutOfMemory};

    ghost from_gives = { λ _ fault. fault ≡ OutOfMemory };

    fn from(_: AllocError) -> SelectFault {
        SelectFault::OutOfMemory
    }
}

/// The places in `doc.pages()` of the chosen pages, in output order.
///
/// Several windows are united in file order. Then the parity keeps pages, then the first `limit` stay, then the order is reversed, then
/// the list is repeated `collated` times. The pages are looked up in an index, so the time grows with the pages and the windows, and with
/// the logarithm of the pages.
pub fn select(
    alloc: Global,
    doc: &Doc<'_>,
    windows: &Windows,
    parity: Parity,
    limit: Option<u32>,
    reverse: bool,
    collated: u32,
) -> Result<Vec<u32>, SelectFault>
    ensures chosen { IfOk result (λ places. IsChosen (numbers_of doc.now.pages) windows.now parity limit reverse collated places.items) }
    ensures fault { IfErr result (IsCause (numbers_of doc.now.pages) windows.now parity limit reverse collated) }
{
    let numbers = page_numbers(alloc, doc.pages())?;
    let pairs = index_of(alloc, &numbers)?;
    let wanted = wanted_in(alloc, windows)?;
    let spans = find_spans(alloc, &numbers, &pairs, &wanted)?;
    let places = kept(alloc, &numbers, &spans, parity)?;
    repeated(alloc, turned(limited(places, limit), reverse), collated)
}

/// The pages' numbers, count 0.
fn page_numbers(alloc: Global, pages: &[Page]) -> Result<Vec<i64>, AllocError>
    ensures { IfOk result (λ numbers. numbers.items ≡ numbers_of (map page_view pages.now)) }
{
    let mut numbers = Vec::new(alloc);
    for page in pages {
        numbers.push(i64::from(page.counts[0]))?;
    }
    Ok(numbers)
}

fn larger(a: usize, b: usize) -> usize
    ensures { result ≡ max a b }
{
    if a < b { b } else { a }
}

/// For each place, the furthest stop of the windows that begin there.
fn far(alloc: Global, count: usize, spans: &[Span]) -> Result<Vec<usize>, AllocError>
    ensures { IfOk result (λ far. IsFar count spans.now far.items) }
{
    let mut far = vec![in alloc; 0; count]?;
    for span in spans {
        if count <= span.start {
            continue;
        }
        far[span.start] = larger(far[span.start], span.stop);
    }
    Ok(far)
}

fn is_odd(number: i64) -> bool
    ensures { result ≡ is_odd number }
{
    number.unsigned_abs() % 2 == 1
}

fn keeps(parity: Parity, number: i64) -> bool
    ensures { result ≡ keeps parity number }
{
    match parity {
        Parity::All => true,
        Parity::Odd => is_odd(number),
        Parity::Even => !is_odd(number),
    }
}

/// Appends a place. One that passes 32 bits can't be kept; no document has so many pages.
fn push_place(places: &mut Vec<u32>, place: usize) -> Result<(), AllocError>
    ensures { OnOk result (places.new.items ≡ places.old.items ++ place ∷ []) }
{
    match u32::try_from(place) {
        Ok(place) => match places.push(place) {
            Ok(()) => Ok(()),
            Err(_) => Err(AllocError),
        },
        Err(_) => Err(AllocError),
    }
}

/// The places in any of the windows whose numbers have the parity.
fn kept(
    alloc: Global,
    numbers: &[i64],
    spans: &[Span],
    parity: Parity,
) -> Result<Vec<u32>, AllocError>
    ensures { IfOk result (λ places. places.items ≡ kept_from 0 spans.now parity numbers.now) }
{
    let far = far(alloc, numbers.len(), spans)?;
    let mut places = Vec::new(alloc);
    let mut stop = 0;
    for (place, number) in numbers.iter().enumerate() {
        stop = larger(far[place], stop);
        if stop <= place {
            continue;
        }
        if !keeps(parity, *number) {
            continue;
        }
        push_place(&mut places, place)?;
    }
    Ok(places)
}

/// The first so many places.
fn limited(mut places: Vec<u32>, limit: Option<u32>) -> Vec<u32>
    ensures { result.items ≡ limited limit places.items }
{
    if let Some(limit) = limit {
        places.truncate(limit as usize);
    }
    places
}

/// The places in reverse order, if that is asked for.
fn turned(mut places: Vec<u32>, reverse: bool) -> Vec<u32>
    ensures { result.items ≡ turned reverse places.items }
{
    if reverse {
        places.reverse();
    }
    places
}

/// Whether the places `collated` times are at most 1,000,000.
fn may_repeat(places: &[u32], collated: u32) -> bool
    ensures { result ≡ nat_le (collated * length places.now) 1000000 }
{
    u128::from(collated) * places.len() as u128 <= 1_000_000
}

/// The places `collated` times.
fn repeated(alloc: Global, places: Vec<u32>, collated: u32) -> Result<Vec<u32>, SelectFault>
    ensures places { IfOk result (λ all. IsRepeated places.items collated all.items) }
    ensures fault { IfErr result (IsTimesCause places.items collated) }
{
    if places.is_empty() {
        return Ok(places);
    }
    if !may_repeat(&places, collated) {
        return Err(SelectFault::TooManyPages);
    }
    let mut all = Vec::new(alloc);
    for _round in 0..collated {
        append(&mut all, &places)?;
    }
    Ok(all)
}

/// Appends the places.
fn append(all: &mut Vec<u32>, places: &[u32]) -> Result<(), AllocError>
    ensures { OnOk result (all.new.items ≡ all.old.items ++ places.now) }
{
    for place in places {
        all.push(*place)?;
    }
    Ok(())
}
