//! Lists of windows of pages, as `1,3-5,-2:7`.
ghost use Rattle.std.specs.Prelude.{◌≡◌, ◌≤◌, length, IfOk};
ghost use Rattle.std.specs.List.{position_or_len};
ghost use Rattle.specials.specs.Commas.{is_comma};
ghost use Rattle.dv_words.specs.Windows.{Adds, both, is_dash, window_of, windows_of};

use crate::number::page_number;
use crate::pages::Window;
use std::alloc::AllocError;

fn is_dash(byte: u8) -> bool
    ensures { result ≡ is_dash byte }
{
    byte == b'-' || byte == b':'
}

/// The place of the first comma, or the length where there is none.
fn first_comma(list: &[u8]) -> usize
    ensures place { result ≡ position_or_len is_comma list.now }
    ensures inside { result ≤ length list.now }
{
    list.iter().take_while(|byte| **byte != b',').count()
}

/// The place of the first dash, or the length where there is none.
fn first_dash(list: &[u8]) -> usize
    ensures place { result ≡ position_or_len is_dash list.now }
    ensures inside { result ≤ length list.now }
{
    list.iter().take_while(|byte| !is_dash(**byte)).count()
}

fn both(first: Option<i64>, last: Option<i64>) -> Option<Window>
    ensures { result ≡ both first last }
{
    match (first, last) {
        (Some(first), Some(last)) => Some(Window { first, last }),
        _ => None,
    }
}

/// A window from one number to another, or of one number. A dash in the first place is a minus sign.
fn read_window(item: &[u8]) -> Option<Window>
    ensures { result ≡ window_of item.now }
{
    if item.is_empty() {
        return None;
    }
    let (_, rest) = item.split_at(1);
    let (first, after) = item.split_at(first_dash(rest) + 1);
    if after.is_empty() {
        return both(page_number(item), page_number(item));
    }
    let (_, last) = after.split_at(1);
    both(page_number(first), page_number(last))
}

/// Adds the windows of a list, and answers whether it is one.
pub fn read_windows(windows: &mut Vec<Window>, list: &[u8]) -> Result<bool, AllocError>
    ensures { IfOk result (λ done. Adds (windows_of list.now) windows.old.items done windows.new.items) }
{
    let mut rest = list;
    loop {
        let (item, after) = rest.split_at(first_comma(rest));
        match read_window(item) {
            None => return Ok(false),
            Some(window) => windows.push(window)?,
        }
        if after.is_empty() {
            return Ok(true);
        }
        (_, rest) = after.split_at(1);
    }
}
