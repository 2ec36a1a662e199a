//! Copies of documents that were put together here, over fonts that were.
use super::*;
use dv_base::{Conv, FileName, MemShelf, MemTray, Units};
use dvi_doc::Doc;
use font_set::{Fonts, Want};
use std::alloc::{AllocError, Global};
use std::test::Fail;
use vf_expand::Walker;

/// The version 2 and the numbers num, den and mag of TeX's documents.
const UNITS: [u8; 13] = [
    2, 0x01, 0x83, 0x92, 0xc0, 0x1c, 0x3b, 0, 0, 0, 0, 0x03, 0xe8,
];

/// A TFM file with the code 65 alone, whose width is half the size.
const TFM: [u8; 56] = [
    0, 14, 0, 2, 0, 65, 0, 65, 0, 2, 0, 1, 0, 1, 0, 1, 0, 0, 0, 0, 0, 0, 0, 0, 0, 0, 0, 0, 0, 0xa0,
    0, 0, 1, 0, 0, 0, 0, 0, 0, 0, 0, 8, 0, 0, 0, 0, 0, 0, 0, 0, 0, 0, 0, 0, 0, 0,
];

/// The definition of a font of 10 points.
const CMR10: [u8; 21] = [
    243, 0, 0, 0, 0, 0, 0, 0x0a, 0, 0, 0, 0x0a, 0, 0, 0, 5, 99, 109, 114, 49, 48,
];

/// The definition of a virtual font of 10 points.
const BOX: [u8; 21] = [
    243, 0, 0, 0, 0, 0, 0, 0x0a, 0, 0, 0, 0x0a, 0, 0, 0, 5, 98, 111, 120, 101, 100,
];

/// What stands before the packet of the code 65 in a VF file over cmr10, but for the packet's length.
const VF: [u8; 33] = [
    247, 202, 0, 0, 0, 0, 0, 0, 0xa0, 0, 0, 243, 0, 0, 0, 0, 0, 0, 0x10, 0, 0, 0, 0xa0, 0, 0, 0, 5,
    99, 109, 114, 49, 48, 242,
];

/// A VF file with this packet for the code 65.
fn virtual_font(alloc: Global, packet: &[u8]) -> Result<Vec<u8>, AllocError> {
    let mut bytes = Vec::from_slice(alloc, &VF)?;
    bytes.extend_from_slice(&u32::try_from(packet.len()).unwrap_or(0).to_be_bytes())?;
    bytes.extend_from_slice(&[0, 0, 0, 65, 0, 8, 0, 0])?;
    bytes.extend_from_slice(packet)?;
    bytes.push(248)?;
    Ok(bytes)
}

/// A document with one page, whose only font has this definition.
fn document(alloc: Global, font: &[u8], page: &[u8]) -> Result<Vec<u8>, AllocError> {
    let mut bytes = Vec::from_slice(alloc, &[247])?;
    bytes.extend_from_slice(&UNITS)?;
    bytes.extend_from_slice(&[0, 139, 0, 0, 0, 1])?;
    bytes.extend_from_slice(&[0; 36])?;
    bytes.extend_from_slice(&[255; 4])?;
    bytes.extend_from_slice(font)?;
    bytes.extend_from_slice(page)?;
    bytes.push(140)?;
    let post = u32::try_from(bytes.len()).unwrap_or(0);
    bytes.extend_from_slice(&[248, 0, 0, 0, 15])?;
    bytes.extend_from_slice(&UNITS[1..])?;
    bytes.extend_from_slice(&[0, 0, 0, 0, 0, 0, 0, 0, 0, 0, 0, 1])?;
    bytes.extend_from_slice(font)?;
    bytes.push(249)?;
    bytes.extend_from_slice(&post.to_be_bytes())?;
    bytes.extend_from_slice(&[2, 223, 223, 223, 223])?;
    Ok(bytes)
}

/// The copy of that document that a copier has to write, where its page has these commands.
fn expected(alloc: Global, page: &[u8]) -> Result<Vec<u8>, AllocError> {
    let mut bytes = Vec::from_slice(alloc, &[247])?;
    bytes.extend_from_slice(&UNITS)?;
    bytes.push(0)?;
    bytes.extend_from_slice(&CMR10)?;
    bytes.extend_from_slice(&[139, 0, 0, 0, 1])?;
    bytes.extend_from_slice(&[0; 36])?;
    bytes.extend_from_slice(&[255; 4])?;
    bytes.extend_from_slice(page)?;
    bytes.push(140)?;
    let post = u32::try_from(bytes.len()).unwrap_or(0);
    bytes.extend_from_slice(&[248, 0, 0, 0, 36])?;
    bytes.extend_from_slice(&UNITS[1..])?;
    bytes.extend_from_slice(&[0, 0, 0, 0, 0, 0, 0, 0, 0, 0, 0, 1])?;
    bytes.extend_from_slice(&CMR10)?;
    bytes.push(249)?;
    bytes.extend_from_slice(&post.to_be_bytes())?;
    bytes.extend_from_slice(&[2, 223, 223, 223, 223])?;
    for _ in 0..3u32 {
        if bytes.len() % 4 != 0 {
            bytes.push(223)?;
        }
    }
    Ok(bytes)
}

/// Copies the document's page to the tray, and answers what came of it.
fn copied(
    alloc: Global,
    packet: &[u8],
    bytes: &[u8],
    tray: &mut MemTray,
) -> Result<&'static str, Fail> {
    let mut shelf = MemShelf::new(alloc);
    shelf.add("cmr10.tfm", &TFM)?;
    shelf.add("boxed.tfm", &TFM)?;
    shelf.add("boxed.vf", &virtual_font(alloc, packet)?)?;
    if bytes.len() > 1_000_000 {
        return Err("a long document".into());
    }
    let Ok(doc) = Doc::read(alloc, bytes) else {
        return Err("no document".into());
    };
    let units = Units {
        num: 25_400_000,
        den: 473_628_672,
        mag: 1_000,
        dpi: 300,
    };
    let conv = Conv::new(&units).ok_or("units")?;
    let mut fonts = Fonts::new(alloc, units, conv, Want::Packets);
    if doc.pages().len() != 1 {
        return Err("no page".into());
    }
    let Ok(()) = fonts.load_page(&mut shelf, &doc, 0) else {
        return Err("unloaded".into());
    };
    let mut walker = Walker::new(alloc, conv, conv, 2)?;
    let name = FileName::new("two.dvi").ok_or("name")?;
    Ok(
        match copy(alloc, &doc, &fonts, &mut walker, &[0], 1_000, &name, tray) {
            Ok(()) => "copied",
            Err(CopyFault::Walk(_)) => "walk",
            Err(CopyFault::CopyTooLong) => "too long",
            Err(CopyFault::WriteFault) => "write fault",
            Err(CopyFault::OutOfMemory) => "out of memory",
        },
    )
}

#[test]
fn copies_of_pages(rt: HostRuntime) -> Result<(), Fail> {
    let alloc = rt.alloc();
    // the packet of the virtual font, whether the page is set in it, the page, and the copy's page
    let cases: [(&[u8], bool, &[u8], &[u8]); 8] = [
        // one character
        (&[65], false, &[171, 65], &[171, 65]),
        // moves that follow one another are one move
        (
            &[65],
            false,
            &[171, 65, 145, 0, 0xea, 0x60, 145, 0, 0xea, 0x60, 65],
            &[171, 65, 145, 1, 0xd4, 0xc0, 65],
        ),
        // a put is a character that is followed by a move back
        (
            &[65],
            false,
            &[171, 133, 65, 65],
            &[171, 65, 145, 0xfb, 0, 0, 65],
        ),
        // at the edge a put stays one
        (
            &[65],
            false,
            &[146, 0x7f, 0xff, 0xff, 0xff, 171, 133, 65],
            &[146, 0x7f, 0xff, 0xff, 0xff, 171, 133, 65],
        ),
        // a move from one edge to the other is two
        (
            &[65],
            false,
            &[
                146, 0x80, 0, 0, 1, 239, 1, 120, 146, 0x7f, 0xff, 0xff, 0xff, 146, 0x7f, 0xff,
                0xff, 0xff, 239, 1, 121, 171, 133, 65,
            ],
            &[
                146, 0x80, 0, 0, 1, 239, 1, 120, 146, 0x7f, 0xff, 0xff, 0xff, 146, 0x7f, 0xff,
                0xff, 0xff, 239, 1, 121, 171, 133, 65,
            ],
        ),
        // the moves of a packet are scaled one by one, and the font of its characters is numbered anew
        (&[143, 3, 143, 3, 65], true, &[171, 65], &[143, 2, 171, 65]),
        // a packet's special and rule, and what stands behind its character
        (
            &[239, 2, 104, 105, 157, 255, 137, 0, 1, 0, 0, 0, 2, 0, 0, 65],
            true,
            &[171, 65, 239, 1, 120],
            &[
                239, 2, 104, 105, 157, 255, 137, 0, 0, 0xa0, 0, 0, 1, 0x40, 0, 171, 65, 157, 1,
                239, 1, 120,
            ],
        ),
        // nothing is painted by a rule without a height
        (
            &[65],
            false,
            &[171, 65, 132, 0, 0, 0, 0, 0, 0, 0, 5, 65],
            &[171, 65, 143, 5, 65],
        ),
    ];
    for (packet, is_virtual, page, wanted) in cases {
        let font = if is_virtual { BOX } else { CMR10 };
        let bytes = document(alloc, &font, page)?;
        let mut tray = MemTray::new(alloc, 1_000, 100)?;
        let answer = copied(alloc, packet, &bytes, &mut tray)?;
        assert_eq!(rt; answer, "copied");
        let wanted = expected(alloc, wanted)?;
        assert_eq!(rt; tray.written(), wanted.as_slice());
    }
    Ok(())
}

#[test]
fn copies_that_fail(rt: HostRuntime) -> Result<(), Fail> {
    let alloc = rt.alloc();
    let bytes = document(alloc, &CMR10, &[171, 65])?;
    let wanted = expected(alloc, &[171, 65])?;
    // one byte a write, and each write in turn fails
    for call in 1..145u32 {
        let mut tray = MemTray::new(alloc, 1_000, 100)?;
        tray.chunk(1);
        tray.fail_at(call)?;
        let answer = copied(alloc, &[65], &bytes, &mut tray)?;
        assert_eq!(rt; answer, "write fault");
        assert_eq!(rt; tray.written().len() + 1, call as usize);
        assert!(rt; wanted.as_slice().starts_with(tray.written()));
    }
    // a character whose packet sets a special of a million bytes
    let mut packet = Vec::from_slice(alloc, &[242, 0, 0x0f, 0x42, 0x40])?;
    packet.extend_from_slice(&[120; 1_000])?;
    for _ in 0..999u32 {
        packet.extend_from_slice(&[120; 1_000])?;
    }
    let mut page = Vec::from_slice(alloc, &[171])?;
    for _ in 0..2_148u32 {
        page.push(65)?;
    }
    let long = document(alloc, &BOX, page.as_slice())?;
    let mut tray = MemTray::new(alloc, 1_000, 100)?;
    let answer = copied(alloc, packet.as_slice(), &long, &mut tray)?;
    assert_eq!(rt; answer, "too long");
    assert_eq!(rt; tray.name().is_some(), false);
    Ok(())
}
