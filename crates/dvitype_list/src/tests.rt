//! Listings of documents that were put together here, and what stands of them at each fault.
use super::*;
use dv_base::{Begun, Conv, FileName, MemShelf, MemTray, Shelf, Spot, Tray, Units};
use dv_words::ListJob;
use dvi_doc::Doc;
use font_set::{FontFault, Fonts, LoadFault, Want};
use std::alloc::{AllocError, Global};
use std::test::Fail;

/// The version 2 and the numbers num, den and mag of TeX's documents.
const UNITS: [u8; 13] = [
    2, 0x01, 0x83, 0x92, 0xc0, 0x1c, 0x3b, 0, 0, 0, 0, 0x03, 0xe8,
];

/// A TFM file with the code 65 alone, whose width is half the size.
const TFM: [u8; 56] = [
    0, 14, 0, 2, 0, 65, 0, 65, 0, 2, 0, 1, 0, 1, 0, 1, 0, 0, 0, 0, 0, 0, 0, 0, 0, 0, 0, 0, 0, 0xa0,
    0, 0, 1, 0, 0, 0, 0, 0, 0, 0, 0, 8, 0, 0, 0, 0, 0, 0, 0, 0, 0, 0, 0, 0, 0, 0,
];

/// The definition of the font cmr10 of 10 points, with the number 0.
const DEFINITION: [u8; 21] = [
    243, 0, 0, 0, 0, 0, 0, 0x0a, 0, 0, 0, 0x0a, 0, 0, 0, 5, b'c', b'm', b'r', b'1', b'0',
];

/// A document with one page, at place 15, and the font cmr10.
fn document(alloc: Global, page: &[u8]) -> Result<Vec<u8>, AllocError> {
    let mut bytes = Vec::from_slice(alloc, &[247])?;
    bytes.extend_from_slice(&UNITS)?;
    bytes.extend_from_slice(&[0, 139, 0, 0, 0, 1])?;
    bytes.extend_from_slice(&[0; 36])?;
    bytes.extend_from_slice(&[255; 4])?;
    bytes.extend_from_slice(page)?;
    bytes.push(140)?;
    let post = u32::try_from(bytes.len()).unwrap_or(0);
    bytes.extend_from_slice(&[248, 0, 0, 0, 15])?;
    bytes.extend_from_slice(&UNITS[1..])?;
    bytes.extend_from_slice(&[0, 0, 0, 0, 0, 0, 0, 0, 0, 0, 0, 1])?;
    bytes.extend_from_slice(&DEFINITION)?;
    bytes.push(249)?;
    bytes.extend_from_slice(&post.to_be_bytes())?;
    bytes.extend_from_slice(&[2, 223, 223, 223, 223])?;
    Ok(bytes)
}

/// A place in the document.
fn place(spot: &Spot) -> i64 {
    match spot {
        Spot::Page { at } => i64::from(*at),
        Spot::Packet { at, .. } => i64::from(*at),
    }
}

/// The name of a fault of the font's TFM file.
fn file_fault(fault: &FontFault) -> &'static str {
    match fault {
        FontFault::Missing(name) if name.as_str() == "cmr10.tfm" => "Missing",
        FontFault::ReadFault(name) if name.as_str() == "cmr10.tfm" => "ReadFault",
        _ => "Font",
    }
}

/// The name of a fault of fonts or characters, with its place or its code.
fn load_fault(fault: &LoadFault) -> (&'static str, i64) {
    match fault {
        LoadFault::UndefinedFont(spot) => ("UndefinedFont", place(spot)),
        LoadFault::NoFont(spot) => ("NoFont", place(spot)),
        LoadFault::NoChar(_, code) => ("NoChar", *code),
        LoadFault::Font(fault) => (file_fault(fault), 0),
        _ => ("Load", 0),
    }
}

/// The name of an answer, with its place or its code.
fn told(answer: &Result<(), ListFault>) -> (&'static str, i64) {
    match answer {
        Ok(()) => ("Ok", 0),
        Err(ListFault::Load(fault)) => load_fault(fault),
        Err(ListFault::StackUnder(spot)) => ("StackUnder", place(spot)),
        Err(ListFault::StackLeft(spot)) => ("StackLeft", place(spot)),
        Err(ListFault::StackDeep(spot)) => ("StackDeep", place(spot)),
        Err(ListFault::Overflow(spot)) => ("Overflow", place(spot)),
        Err(ListFault::WriteFault) => ("WriteFault", 0),
        Err(ListFault::OutOfMemory) => ("OutOfMemory", 0),
    }
}

/// The answer for a page, and behind a line end what was written.
fn listed(
    alloc: Global,
    shelf: &mut MemShelf,
    tray: &mut MemTray,
    page: &[u8],
    detail: u8,
) -> Result<String, Fail> {
    let bytes = document(alloc, page)?;
    if bytes.len() > 1_000_000 {
        return Err("a long document".into());
    }
    let Ok(doc) = Doc::read(alloc, &bytes) else {
        return Err("no document".into());
    };
    if doc.pages().len() != 1 {
        return Err("no page".into());
    }
    let units = Units {
        num: 25_400_000,
        den: 473_628_672,
        mag: 1_000,
        dpi: 300,
    };
    let conv = Conv::new(&units).ok_or("units")?;
    let mut fonts = Fonts::new(alloc, units, conv, Want::Widths);
    let job = ListJob {
        input: FileName::new("one.dvi").ok_or("name")?,
        start: None,
        most: 1_000_000,
        dpi: 300,
        mag: None,
        detail,
    };
    let Begun::Ready = tray.begin(alloc, "-") else {
        return Err("no output".into());
    };
    let answer = list(alloc, &doc, &mut fonts, shelf, &conv, &[0], &job, tray);
    let (outcome, number) = told(&answer);
    match str::from_utf8(tray.written()) {
        Ok(text) => Ok(format!(in alloc; "{outcome} {number}\n{text}")?),
        Err(_) => Err("no text".into()),
    }
}

/// The same with the TFM file of the font on the shelf, and room for the listing.
fn answered(alloc: Global, page: &[u8], detail: u8) -> Result<String, Fail> {
    let mut shelf = MemShelf::new(alloc);
    shelf.add("cmr10.tfm", &TFM)?;
    let mut tray = MemTray::new(alloc, 100_000, 0)?;
    listed(alloc, &mut shelf, &mut tray, page, detail)
}

/// The lines before those of a page's commands.
const HEAD: &str =
    "dvi id=2 num=25400000 den=473628672 mag=1000 pages=1\ncomment=\nfont 0 cmr10 size=655360 design=655360 checksum=00000000\npage 1 at 15 counts=1.0.0.0.0.0.0.0.0.0\n";

/// A definition, a selection and a character.
const PLAIN: [u8; 23] = [
    243, 0, 0, 0, 0, 0, 0, 0x0a, 0, 0, 0, 0x0a, 0, 0, 0, 5, b'c', b'm', b'r', b'1', b'0', 171, 65,
];

/// The lines of these.
const PLAIN_LINES: &str =
    "60: fntdef 0 h=0 v=0 hh=0 vv=0\n81: fnt 0 h=0 v=0 hh=0 vv=0\n82: set 65 h=327680 v=0 hh=21 vv=0\n83: eop h=327680 v=0 hh=21 vv=0\ndone pages=1\n";

#[test]
fn listings(rt: HostRuntime) -> Result<(), Fail> {
    let alloc = rt.alloc();
    let cases: [(&[u8], u8, &str, &str); 13] = [
        (&PLAIN, 1, "Ok 0", PLAIN_LINES),
        (&PLAIN, 0, "Ok 0", "done pages=1\n"),
        // each command that a page may hold
        (
            &[
                138, 171, 141, 145, 16, 0, 0, 148, 5, 147, 155, 1, 0, 0, 152, 159, 2, 0, 0, 164,
                255, 0, 0, 161, 170, 0, 16, 0, 0, 166, 132, 0, 0, 0, 0, 0, 0, 0, 100, 137, 0, 0, 0,
                5, 255, 255, 255, 255, 65, 133, 65, 128, 65, 239, 6, 97, 126, 92, 0, 233, 40, 143,
                156, 142, 65,
            ],
            1,
            "Ok 0",
            "60: nop h=0 v=0 hh=0 vv=0\n61: fnt 0 h=0 v=0 hh=0 vv=0\n62: push h=0 v=0 hh=0 vv=0\n63: right 1048576 h=1048576 v=0 hh=66 vv=0\n67: w 5 h=1048581 v=0 hh=66 vv=0\n69: w0 h=1048586 v=0 hh=66 vv=0\n70: x 65536 h=1114122 v=0 hh=70 vv=0\n74: x0 h=1179658 v=0 hh=74 vv=0\n75: down 131072 h=1179658 v=131072 hh=74 vv=8\n79: y -65536 h=1179658 v=65536 hh=74 vv=4\n83: y0 h=1179658 v=0 hh=74 vv=0\n84: z 1048576 h=1179658 v=1048576 hh=74 vv=66\n89: z0 h=1179658 v=2097152 hh=74 vv=133\n90: setrule 0 100 h=1179758 v=2097152 hh=75 vv=133\n99: putrule 5 -1 h=1179758 v=2097152 hh=75 vv=133\n108: set 65 h=1507438 v=2097152 hh=96 vv=133\n109: put 65 h=1507438 v=2097152 hh=96 vv=133\n111: set 65 h=1835118 v=2097152 hh=117 vv=133\n113: xxx a~\\5c\\00\\e9( h=1835118 v=2097152 hh=117 vv=133\n121: right -100 h=1835018 v=2097152 hh=117 vv=133\n123: pop h=0 v=0 hh=0 vv=0\n124: set 65 h=327680 v=0 hh=21 vv=0\n125: eop h=327680 v=0 hh=21 vv=0\ndone pages=1\n",
        ),
        // what can't be run, and the lines before it
        (
            &[138, 172],
            1,
            "UndefinedFont 61",
            "60: nop h=0 v=0 hh=0 vv=0\n",
        ),
        (&[65], 1, "NoFont 60", ""),
        (&[171, 0], 1, "NoChar 0", "60: fnt 0 h=0 v=0 hh=0 vv=0\n"),
        (
            &[171, 134, 1, 0],
            1,
            "NoChar 256",
            "60: fnt 0 h=0 v=0 hh=0 vv=0\n",
        ),
        (&[142], 1, "StackUnder 60", ""),
        (&[141], 1, "StackLeft 61", "60: push h=0 v=0 hh=0 vv=0\n"),
        (&[138, 141], 0, "StackLeft 62", ""),
        (
            &[146, 127, 255, 255, 255, 143, 1],
            1,
            "Overflow 65",
            "60: right 2147483647 h=2147483647 v=0 hh=136023 vv=0\n",
        ),
        (&[137, 128, 0, 0, 0, 0, 0, 0, 0], 1, "Overflow 60", ""),
        (&[132, 0, 0, 0, 0, 128, 0, 0, 0], 1, "Overflow 60", ""),
    ];
    for (page, detail, outcome, lines) in cases {
        let want = format!(in alloc; "{outcome}\n{HEAD}{lines}")?;
        assert_eq!(rt; answered(alloc, page, detail)?.as_str(), want.as_str());
    }
    let deep = [141; 1_001];
    let got = answered(alloc, &deep, 0)?;
    let want = format!(in alloc; "StackDeep 1060\n{HEAD}")?;
    assert_eq!(rt; got.as_str(), want.as_str());
    Ok(())
}

/// A font's file that isn't there, or can't be read: the lines before the character.
#[test]
fn files_that_fail(rt: HostRuntime) -> Result<(), Fail> {
    let alloc = rt.alloc();
    let before = "60: fntdef 0 h=0 v=0 hh=0 vv=0\n81: fnt 0 h=0 v=0 hh=0 vv=0\n";
    for (holds, outcome) in [(false, "Missing"), (true, "ReadFault")] {
        let mut shelf = MemShelf::new(alloc);
        if holds {
            shelf.add("cmr10.tfm", &TFM)?;
            shelf.fail_at(1)?;
        }
        let mut tray = MemTray::new(alloc, 1_000, 0)?;
        let got = listed(alloc, &mut shelf, &mut tray, &PLAIN, 1)?;
        let want = format!(in alloc; "{outcome} 0\n{HEAD}{before}")?;
        assert_eq!(rt; got.as_str(), want.as_str());
    }
    Ok(())
}

/// A tray that takes a few bytes at a time, or fails.
#[test]
fn trays(rt: HostRuntime) -> Result<(), Fail> {
    let alloc = rt.alloc();
    let whole = format!(in alloc; "{HEAD}{PLAIN_LINES}")?;
    for most in [1, 2, 3, 7] {
        let mut shelf = MemShelf::new(alloc);
        shelf.add("cmr10.tfm", &TFM)?;
        let mut tray = MemTray::new(alloc, 1_000, 0)?;
        tray.chunk(most);
        let got = listed(alloc, &mut shelf, &mut tray, &PLAIN, 1)?;
        let want = format!(in alloc; "Ok 0\n{whole}")?;
        assert_eq!(rt; got.as_str(), want.as_str());
        for call in [1, 2, 40] {
            let mut tray = MemTray::new(alloc, 1_000, 0)?;
            tray.chunk(most);
            tray.fail_at(call)?;
            let got = listed(alloc, &mut shelf, &mut tray, &PLAIN, 1)?;
            let taken = (call as usize).saturating_sub(1).saturating_mul(most);
            assert_eq!(rt; got.as_str().starts_with("WriteFault 0\n"), true);
            assert_eq!(rt; whole.as_bytes().starts_with(tray.written()), true);
            assert_eq!(rt; tray.written().len(), taken);
        }
    }
    Ok(())
}
