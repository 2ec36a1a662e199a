//! The places that windows cover.
ghost use Rattle.std.specs.Prelude.{◌≡◌, IfOk, IfErr, Ok, map};
ghost use Rattle.dv_words.specs.Absent.{IsAbsent};
ghost use Rattle.dv_words.specs.PageIndex.{IsIndex};
ghost use Rattle.dv_words.specs.Selection.{one_of, span_of, spans_of, start_at, stop_at, wanted_in};

use crate::page_index::find;
use crate::pages::{Window, Windows};
use crate::selection::SelectFault;
use std::alloc::{AllocError, Global};

/// The places from `start` on, without `stop`.
#[derive(Clone, Copy)]
pub struct Span {
    pub start: usize,
    pub stop: usize,
}

/// A window by its two numbers, by count 0 or, where they are physical, counted from 1.
#[derive(Clone, Copy)]
pub struct Wanted {
    pub first: Option<i64>,
    pub last: Option<i64>,
    pub physical: bool,
}

/// The windows that are asked for.
pub fn wanted_in(alloc: Global, windows: &Windows) -> Result<Vec<Wanted>, AllocError>
    ensures { IfOk result (λ wanted. wanted.items ≡ wanted_in windows.now) }
{
    let mut wanted = Vec::new(alloc);
    match windows {
        Windows::All => wanted.push(Wanted {
            first: None,
            last: None,
            physical: false,
        })?,
        Windows::One {
            first,
            last,
            physical,
        } => wanted.push(Wanted {
            first: *first,
            last: *last,
            physical: *physical,
        })?,
        Windows::Many(list) => return each_wanted(alloc, list.as_slice()),
    }
    Ok(wanted)
}

/// The windows of a list, by count 0.
fn each_wanted(alloc: Global, list: &[Window]) -> Result<Vec<Wanted>, AllocError>
    ensures { IfOk result (λ wanted. wanted.items ≡ map one_of list.now) }
{
    let mut wanted = Vec::new(alloc);
    for window in list {
        wanted.push(Wanted {
            first: Some(window.first),
            last: Some(window.last),
            physical: false,
        })?;
    }
    Ok(wanted)
}

/// The place where a window begins, or its first number, where that isn't there.
fn start_at(numbers: &[i64], pairs: &[(i64, usize)], wanted: Wanted) -> Result<usize, i64>
    requires { IsIndex numbers.now pairs.now }
    ensures { result ≡ start_at wanted.physical wanted.first numbers.now }
{
    match wanted.first {
        None => Ok(0),
        Some(first) => find(numbers, pairs, wanted.physical, 0, first).ok_or(first),
    }
}

/// The place behind a window that begins at the start, or its last number, where that isn't there.
fn stop_at(
    numbers: &[i64],
    pairs: &[(i64, usize)],
    wanted: Wanted,
    start: usize,
) -> Result<usize, i64>
    requires { IsIndex numbers.now pairs.now }
    ensures { result ≡ stop_at wanted.physical wanted.last start numbers.now }
{
    match wanted.last {
        None => Ok(numbers.len()),
        Some(last) => match find(numbers, pairs, wanted.physical, start, last) {
            Some(place) => Ok(place + 1),
            None => Err(last),
        },
    }
}

/// The places of a window, or the first of its numbers that isn't there.
fn find_span(numbers: &[i64], pairs: &[(i64, usize)], wanted: Wanted) -> Result<Span, i64>
    requires { IsIndex numbers.now pairs.now }
    ensures { result ≡ span_of numbers.now wanted }
{
    let start = start_at(numbers, pairs, wanted)?;
    let stop = stop_at(numbers, pairs, wanted, start)?;
    Ok(Span { start, stop })
}

/// The places of windows, one after another.
pub fn find_spans(
    alloc: Global,
    numbers: &[i64],
    pairs: &[(i64, usize)],
    wanted: &[Wanted],
) -> Result<Vec<Span>, SelectFault>
    requires { IsIndex numbers.now pairs.now }
    ensures spans { IfOk result (λ spans. spans_of numbers.now wanted.now ≡ Ok spans.items) }
    ensures fault { IfErr result (IsAbsent numbers.now wanted.now) }
{
    let mut spans = Vec::new(alloc);
    for window in wanted {
        match find_span(numbers, pairs, *window) {
            Ok(span) => match spans.push(span) {
                Ok(()) => {}
                Err(_) => return Err(SelectFault::OutOfMemory),
            },
            Err(number) => return Err(SelectFault::NoSuchPage(number)),
        }
    }
    Ok(spans)
}
