//! Pages by their numbers.
ghost use Rattle.std.specs.Prelude.{◌≡◌, ◌≤◌, ◌<◌, IfOk, IfSome, length};
ghost use Rattle.std.specs.List.Sorted.{IsSortedBy};
ghost use Rattle.std.specs.Ordering.{is_lt};
ghost use Rattle.dv_words.specs.PageIndex.{IsIndex, IsNear, pair_cmp};
ghost use Rattle.dv_words.specs.Selection.{counted, find};

use std::alloc::{AllocError, Global};

/// The pages' numbers with their places, in order: an index by number, so that no window has to search the pages.
pub fn index_of(alloc: Global, numbers: &[i64]) -> Result<Vec<(i64, usize)>, AllocError>
    ensures { IfOk result (λ pairs. IsIndex numbers.now pairs.items) }
{
    let mut pairs = Vec::new(alloc);
    for (place, number) in numbers.iter().enumerate() {
        pairs.push((*number, place))?;
    }
    pairs.sort_unstable();
    Ok(pairs)
}

/// Where the pair stands, or would stand.
fn near(pairs: &[(i64, usize)], pair: (i64, usize)) -> usize
    requires { IsSortedBy (λ a b. is_lt (pair_cmp a b)) pairs.now }
    ensures near { IsNear pairs.now pair result }
    ensures inside { result ≤ length pairs.now }
{
    match pairs.binary_search(&pair) {
        Ok(at) => at,
        Err(at) => at,
    }
}

/// The place of a page by its physical number, which counts from 1, from the start on.
fn counted(start: usize, number: i64, pages: usize) -> Option<usize>
    ensures place { result ≡ counted start number pages }
    ensures inside { IfSome result (λ place. place < pages) }
{
    let count = i128::from(number);
    if (start as i128) < count && count <= pages as i128 {
        Some(number.unsigned_abs() as usize - 1)
    } else {
        None
    }
}

/// The place of the first page from the start on that has the number.
pub fn find(
    numbers: &[i64],
    pairs: &[(i64, usize)],
    physical: bool,
    start: usize,
    number: i64,
) -> Option<usize>
    requires { IsIndex numbers.now pairs.now }
    ensures place { result ≡ find physical start number numbers.now }
    ensures inside { IfSome result (λ place. place < length numbers.now) }
{
    if physical {
        return counted(start, number, numbers.len());
    }
    let at = near(pairs, (number, start));
    if at == pairs.len() {
        return None;
    }
    let (found, place) = pairs[at];
    if found == number { Some(place) } else { None }
}
