//! The document.
ghost use Rattle.std.specs.Prelude.{◌≡◌, ◌+◌, ◌*◌, ◌<◌, ◌≤◌, ◌^◌, ◌++◌, OnOk, IfOk};
ghost use Rattle.sample_files.specs.Letters.{after};
ghost use Rattle.sample_files.specs.Commands.{post, pre, trailer, units};
ghost use Rattle.sample_files.specs.Document.{back, document, first_pages, place};

use crate::page::{put_definition, put_page};
use std::alloc::{AllocError, Global};

/// How many bytes a page has; the first one has 19 more, which define the font.
const PAGE: u32 = 3_686;

/// Appends the units of a DVI file: those that TeX uses, unmagnified.
fn put_units(bytes: &mut Vec<u8>) -> Result<(), AllocError>
    ensures { OnOk result (bytes.new.items ≡ bytes.old.items ++ units) }
{
    bytes.extend_from_slice(&25_400_000_u32.to_be_bytes())?;
    bytes.extend_from_slice(&473_628_672_u32.to_be_bytes())?;
    bytes.extend_from_slice(&1_000_u32.to_be_bytes())
}

fn put_pre(bytes: &mut Vec<u8>) -> Result<(), AllocError>
    ensures { OnOk result (bytes.new.items ≡ bytes.old.items ++ pre) }
{
    bytes.extend_from_slice(&[247, 2])?;
    put_units(bytes)?;
    bytes.push(0)?;
    Ok(())
}

/// Appends post without the definition behind it.
fn put_post(bytes: &mut Vec<u8>, back: u32, pages: u32) -> Result<(), AllocError>
    requires { pages ≤ 1000 }
    ensures { OnOk result (bytes.new.items ≡ bytes.old.items ++ post back pages) }
{
    bytes.push(248)?;
    bytes.extend_from_slice(&back.to_be_bytes())?;
    put_units(bytes)?;
    bytes.extend_from_slice(&[0, 0, 0, 0, 0, 0, 0, 0, 0, 1])?;
    bytes.extend_from_slice(&(pages as u16).to_be_bytes())
}

/// Appends post_post and the bytes that end the file.
fn put_trailer(bytes: &mut Vec<u8>, post: u32) -> Result<(), AllocError>
    ensures { OnOk result (bytes.new.items ≡ bytes.old.items ++ trailer post) }
{
    bytes.push(249)?;
    bytes.extend_from_slice(&post.to_be_bytes())?;
    bytes.extend_from_slice(&[2, 223, 223, 223, 223])
}

/// The place behind `pages` pages.
fn place(pages: u32) -> u32
    requires { pages ≤ 1000 }
    ensures value { result ≡ place pages }
    ensures small { result < 2 ^ 22 }
{
    if pages == 0 { 15 } else { 34 + pages * PAGE }
}

/// The place of the last of `pages` pages, as the four bytes of -1 where there is none.
fn back(pages: u32) -> u32
    requires { pages ≤ 1000 }
    ensures { result ≡ back pages }
{
    match pages.checked_sub(1) {
        Some(before) => place(before),
        None => u32::MAX,
    }
}

fn put_pages(bytes: &mut Vec<u8>, pages: u32) -> Result<(), AllocError>
    requires { pages ≤ 1000 }
    ensures { OnOk result (bytes.new.items ≡ bytes.old.items ++ first_pages pages) }
{
    let mut state = 1;
    for before in 0..pages {
        put_page(bytes, before + 1, back(before), &mut state)?;
    }
    Ok(())
}

/// The bytes of `sample.dvi` with so many pages, at most 1,000.
pub fn document(alloc: Global, pages: u32) -> Result<Vec<u8>, AllocError>
    requires { pages ≤ 1000 }
    ensures { IfOk result (λ bytes. bytes.items ≡ document pages) }
{
    let mut bytes = Vec::with_capacity(alloc, place(pages) as usize + 58)?;
    put_pre(&mut bytes)?;
    put_pages(&mut bytes, pages)?;
    put_post(&mut bytes, back(pages), pages)?;
    put_definition(&mut bytes)?;
    put_trailer(&mut bytes, place(pages))?;
    Ok(bytes)
}
