//! Runs of dvicopy over a shelf and a tray in memory.
ghost use Rattle.std.specs.Prelude.{◌≤◌};

use super::run_tool;
use super::tests::{TFM, VF, document};
use dv_base::{MemShelf, MemTray};
use std::alloc::Global;
use std::str;
use std::test::Fail;

/// The copy of a page with one character of `cmr10`.
const COPY: [u8; 144] = [
    0xf7, 2, 0x01, 0x83, 0x92, 0xc0, 0x1c, 0x3b, 0, 0, 0, 0, 0x03, 0xe8, 0, 0xf3, 0, 0, 0, 0, 0, 0,
    10, 0, 0, 0, 10, 0, 0, 0, 5, 0x63, 0x6d, 0x72, 0x31, 0x30, 0x8b, 0, 0, 0, 1, 0, 0, 0, 0, 0, 0,
    0, 0, 0, 0, 0, 0, 0, 0, 0, 0, 0, 0, 0, 0, 0, 0, 0, 0, 0, 0, 0, 0, 0, 0, 0, 0, 0, 0, 0, 0, 0xff,
    0xff, 0xff, 0xff, 0xab, 0x41, 0x8c, 0xf8, 0, 0, 0, 36, 0x01, 0x83, 0x92, 0xc0, 0x1c, 0x3b, 0,
    0, 0, 0, 0x03, 0xe8, 0, 0, 0, 0, 0, 0, 0, 0, 0, 0, 0, 1, 0xf3, 0, 0, 0, 0, 0, 0, 10, 0, 0, 0,
    10, 0, 0, 0, 5, 0x63, 0x6d, 0x72, 0x31, 0x30, 0xf9, 0, 0, 0, 0x54, 2, 0xdf, 0xdf, 0xdf, 0xdf,
];

/// A shelf with a document of the fonts `cmr10` and `vir`, whose one page has these commands, with the widths of both fonts, and with
/// a packet for the code 65 of `vir`.
fn shelf(alloc: Global, page: &[u8], packet: &[u8]) -> Result<MemShelf, Fail> {
    let mut shelf = MemShelf::new(alloc);
    let bytes = document(alloc, &["cmr10", "vir"], &[(1, page)])?;
    shelf.add("one.dvi", bytes.as_slice())?;
    shelf.add("cmr10.tfm", &TFM)?;
    shelf.add("vir.tfm", &TFM)?;
    let mut vf = Vec::from_slice(alloc, &VF)?;
    vf.push(242)?;
    vf.extend_from_slice(&u32::try_from(packet.len())?.to_be_bytes())?;
    vf.extend_from_slice(&[0, 0, 0, 65, 0, 8, 0, 0])?;
    vf.extend_from_slice(packet)?;
    vf.push(248)?;
    shelf.add("vir.vf", vf.as_slice())?;
    Ok(shelf)
}

/// The words of a run that copies the document.
fn words(alloc: Global) -> Result<Vec<String>, Fail> {
    let mut words = Vec::new(alloc);
    for word in ["dvicopy", "one.dvi", "two"] {
        words.push(String::from_str(alloc, word)?)?;
    }
    Ok(words)
}

/// These bytes, and so many times another one.
fn repeated(alloc: Global, front: &[u8], byte: u8, count: usize) -> Result<Vec<u8>, Fail> {
    let mut bytes = Vec::from_slice(alloc, front)?;
    bytes.resize(front.len().saturating_add(count), byte)?;
    Ok(bytes)
}

/// A tray of which each write takes at most `chunk` bytes, and the write `fails` takes none.
fn tray(alloc: Global, chunk: usize, fails: u32) -> Result<MemTray, Fail>
    requires { 1 ≤ chunk }
{
    let mut tray = MemTray::new(alloc, 1_000, 100)?;
    tray.chunk(chunk);
    tray.fail_at(fails)?;
    Ok(tray)
}

/// How the copy of such a page ends: the status, the bytes from its bop's end on, as many as are wanted, and what is said.
fn copied(alloc: Global, page: &[u8], packet: &[u8], wanted: &[u8]) -> Result<String, Fail> {
    let words = words(alloc)?;
    let mut shelf = shelf(alloc, page, packet)?;
    let mut tray = tray(alloc, 1_000, 0)?;
    let outcome = run_tool(alloc, &words, &mut shelf, &mut tray);
    let status = outcome.status();
    let said = str::from_utf8(tray.said())?;
    let name = tray.name().unwrap_or("nothing");
    let mut found = false;
    for place in 50..100 {
        if tray
            .written()
            .get(place..)
            .unwrap_or(&[])
            .starts_with(wanted)
        {
            found = true;
        }
    }
    Ok(format!(in alloc; "{status} {name} {found} {said}")?)
}

#[test]
fn copies_of_a_page(rt: HostRuntime) -> Result<(), Fail> {
    let alloc = rt.alloc();
    // a special of 1,000,000 bytes, and a page that sets its character 2,148 times
    let long = repeated(alloc, &[242, 0x00, 0x0f, 0x42, 0x40], 46, 1_000_000)?;
    let often = repeated(alloc, &[172], 65, 2_148)?;
    let done = "0 two.dvi true ";
    let end = copied(alloc, &[171, 65], &[], &[255, 171, 65, 140, 248])?;
    assert_eq!(rt; end.as_str(), done);
    // each move of a packet is scaled by itself: 1 and 1, and not 3
    let moves = [143, 3, 143, 3, 65];
    let end = copied(alloc, &[172, 65], &moves, &[255, 143, 2, 171, 65, 140, 248])?;
    assert_eq!(rt; end.as_str(), done);
    let end = copied(
        alloc,
        &[172, 65],
        &[239, 1, 46],
        &[255, 239, 1, 46, 140, 248],
    )?;
    assert_eq!(rt; end.as_str(), done);
    let end = copied(alloc, &often, &long, &[])?;
    assert_eq!(rt; end.as_str(), "1 nothing true texdvi: CopyTooLong\n");
    Ok(())
}

#[test]
fn a_copy_however_the_tray_takes_it(rt: HostRuntime) -> Result<(), Fail> {
    let alloc = rt.alloc();
    let words = words(alloc)?;
    let mut shelf = shelf(alloc, &[171, 65], &[])?;
    for chunk in [1, 7] {
        let mut tray = tray(alloc, chunk, 0)?;
        let outcome = run_tool(alloc, &words, &mut shelf, &mut tray);
        assert_eq!(rt; outcome.status(), 0, "chunk {chunk}");
        assert_eq!(rt; tray.written(), COPY.as_slice(), "chunk {chunk}");
    }
    for fails in 1..=2 {
        let mut tray = tray(alloc, 100, fails)?;
        let outcome = run_tool(alloc, &words, &mut shelf, &mut tray);
        assert_eq!(rt; outcome.status(), 4, "write {fails}");
        assert!(rt; COPY.starts_with(tray.written()), "write {fails}");
    }
    Ok(())
}
