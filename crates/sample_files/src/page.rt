//! A page of the document.
ghost use Rattle.std.specs.Prelude.{◌≡◌, ◌+◌, ◌*◌, ◌<◌, ◌≤◌, ◌^◌, ◌++◌, OnOk};
ghost use Rattle.sample_files.specs.Letters.{after};
ghost use Rattle.sample_files.specs.Commands.{bop, definition, down, no_counts};
ghost use Rattle.sample_files.specs.Pages.{page, row, rows, start, words};

use crate::letters::put_ten;
use std::alloc::AllocError;

/// How many DVI units lie between two rows.
const LINE: u32 = 786_432;

/// Appends fnt_def: the font with the number 0 is `smp` at 10 points.
pub fn put_definition(bytes: &mut Vec<u8>) -> Result<(), AllocError>
    ensures { OnOk result (bytes.new.items ≡ bytes.old.items ++ definition) }
{
    bytes.extend_from_slice(&[243, 0, 0, 0, 0, 0])?;
    bytes.extend_from_slice(&655_360_u32.to_be_bytes())?;
    bytes.extend_from_slice(&655_360_u32.to_be_bytes())?;
    bytes.extend_from_slice(&[0, 3, b's', b'm', b'p'])
}

/// Appends the nine counts of a page behind the first one, which are 0.
#[tactic(auto, unfolding(crate::specs::Commands::no_counts))]
fn put_no_counts(bytes: &mut Vec<u8>) -> Result<(), AllocError>
    ensures { OnOk result (bytes.new.items ≡ bytes.old.items ++ no_counts) }
{
    bytes.extend_from_slice(&[0; 36])
}

/// Appends bop with the count 0 and the place of the bop before, as the four bytes of -1 where there is none.
fn put_bop(bytes: &mut Vec<u8>, number: u32, back: u32) -> Result<(), AllocError>
    ensures { OnOk result (bytes.new.items ≡ bytes.old.items ++ bop number back) }
{
    bytes.push(139)?;
    bytes.extend_from_slice(&number.to_be_bytes())?;
    put_no_counts(bytes)?;
    bytes.extend_from_slice(&back.to_be_bytes())
}

/// Appends a move down, of at least 2^15 units.
fn put_down(bytes: &mut Vec<u8>, units: u32) -> Result<(), AllocError>
    ensures { OnOk result (bytes.new.items ≡ bytes.old.items ++ down units) }
{
    let four = units.to_be_bytes();
    if units < 1 << 23 {
        bytes.push(159)?;
        bytes.extend_from_slice(&four[1..])
    } else {
        bytes.push(160)?;
        bytes.extend_from_slice(&four)
    }
}

/// Appends six times ten characters with a move right behind them.
fn put_words(bytes: &mut Vec<u8>, state: &mut u32) -> Result<(), AllocError>
    ensures bytes { OnOk result (bytes.new.items ≡ bytes.old.items ++ words 6 state.old) }
    ensures state { OnOk result (state.new ≡ after 60 state.old) }
{
    for _word in 0_u32..6 {
        put_ten(bytes, state)?;
        bytes.extend_from_slice(&[145, 3, 85, 85])?;
    }
    Ok(())
}

/// Appends the row with this number, counted from 0.
#[tactic(auto, unfolding(crate::specs::Pages::row))]
fn put_row(bytes: &mut Vec<u8>, number: u32, state: &mut u32) -> Result<(), AllocError>
    requires { number < 40 }
    ensures bytes { OnOk result (bytes.new.items ≡ bytes.old.items ++ row number state.old) }
    ensures state { OnOk result (state.new ≡ after 60 state.old) }
{
    bytes.push(141)?;
    put_down(bytes, (number + 1) * LINE)?;
    put_words(bytes, state)?;
    bytes.push(142)?;
    Ok(())
}

/// Appends the forty rows of a page.
fn put_rows(bytes: &mut Vec<u8>, state: &mut u32) -> Result<(), AllocError>
    ensures bytes { OnOk result (bytes.new.items ≡ bytes.old.items ++ rows 40 state.old) }
    ensures state { OnOk result (state.new ≡ after 2400 state.old) }
{
    for number in 0..40 {
        put_row(bytes, number, state)?;
    }
    Ok(())
}

/// Appends a page's beginning up to its rows; the first page defines the font.
fn put_start(bytes: &mut Vec<u8>, number: u32, back: u32) -> Result<(), AllocError>
    ensures { OnOk result (bytes.new.items ≡ bytes.old.items ++ start number back) }
{
    put_bop(bytes, number, back)?;
    if number == 1 {
        put_definition(bytes)?;
    }
    bytes.push(171)?;
    Ok(())
}

/// Appends the page with this number, counted from 1.
#[tactic(auto, unfolding(crate::specs::Pages::page))]
pub fn put_page(
    bytes: &mut Vec<u8>,
    number: u32,
    back: u32,
    state: &mut u32,
) -> Result<(), AllocError>
    ensures bytes { OnOk result (bytes.new.items ≡ bytes.old.items ++ page number back state.old) }
    ensures state { OnOk result (state.new ≡ after 2400 state.old) }
{
    put_start(bytes, number, back)?;
    put_rows(bytes, state)?;
    bytes.push(137)?;
    bytes.extend_from_slice(&26_214_u32.to_be_bytes())?;
    bytes.extend_from_slice(&23_592_960_u32.to_be_bytes())?;
    bytes.push(140)?;
    Ok(())
}
