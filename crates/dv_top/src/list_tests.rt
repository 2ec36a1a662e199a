//! Runs of dvitype over a shelf and a tray in memory.
use super::run_tool;
use dv_base::{MemShelf, MemTray};
use std::alloc::Global;
use std::str;
use std::test::Fail;

/// A document whose one page defines the font `cmr10` of 10 points, selects it, and sets the code 65, at place 82.
const ONE: [u8; 144] = [
    247, 2, 1, 131, 146, 192, 28, 59, 0, 0, 0, 0, 3, 232, 0, 139, 0, 0, 0, 1, 0, 0, 0, 0, 0, 0, 0,
    0, 0, 0, 0, 0, 0, 0, 0, 0, 0, 0, 0, 0, 0, 0, 0, 0, 0, 0, 0, 0, 0, 0, 0, 0, 0, 0, 0, 0, 255,
    255, 255, 255, 243, 0, 0, 0, 0, 0, 0, 10, 0, 0, 0, 10, 0, 0, 0, 5, 99, 109, 114, 49, 48, 171,
    65, 140, 248, 0, 0, 0, 15, 1, 131, 146, 192, 28, 59, 0, 0, 0, 0, 3, 232, 0, 0, 0, 0, 0, 0, 0,
    0, 0, 0, 0, 1, 243, 0, 0, 0, 0, 0, 0, 10, 0, 0, 0, 10, 0, 0, 0, 5, 99, 109, 114, 49, 48, 249,
    0, 0, 0, 84, 2, 223, 223, 223, 223,
];

/// A TFM file with the code 65 alone, whose width is half the size.
const TFM: [u8; 44] = [
    0, 11, 0, 2, 0, 65, 0, 65, 0, 2, 0, 0, 0, 0, 0, 0, 0, 0, 0, 0, 0, 0, 0, 0, 0, 0, 0, 0, 0, 0xa0,
    0, 0, 1, 0, 0, 0, 0, 0, 0, 0, 0, 8, 0, 0,
];

/// How a run ends: its status and the name of its output, what is written, what is said. The document has this code at place 82, the shelf
/// has the TFM bytes under that name too, and one of its reads fails.
fn end_of(alloc: Global, words: &str, code: u8, file: &str, fails: u32) -> Result<String, Fail> {
    let mut list = Vec::new(alloc);
    for word in words.split(' ') {
        list.push(String::from_str(alloc, word)?)?;
    }
    let mut one = ONE;
    one[82] = code;
    let mut shelf = MemShelf::new(alloc);
    shelf.add("one.dvi", &one)?;
    shelf.add("cmr10.vf", &[0])?;
    shelf.add(file, &TFM)?;
    shelf.fail_at(fails)?;
    let mut tray = MemTray::new(alloc, 1_000, 100)?;
    let outcome = run_tool(alloc, &list, &mut shelf, &mut tray);
    let status = outcome.status();
    let name = tray.name().unwrap_or("nothing");
    let written = str::from_utf8(tray.written())?;
    let said = str::from_utf8(tray.said())?;
    Ok(format!(in alloc; "{status} {name}\n{written}{said}")?)
}

#[test]
fn listings(rt: HostRuntime) -> Result<(), Fail> {
    let head =
        "dvi id=2 num=25400000 den=473628672 mag=1000 pages=1\ncomment=\nfont 0 cmr10 size=655360 design=655360 checksum=00000000\npage 1 at 15 counts=1.0.0.0.0.0.0.0.0.0\n";
    let fonts = "60: fntdef 0 h=0 v=0 hh=0 vv=0\n81: fnt 0 h=0 v=0 hh=0 vv=0\n";
    let end = "82: set 65 h=327680 v=0 hh=21 vv=0\n83: eop h=327680 v=0 hh=21 vv=0\ndone pages=1\n";
    let tfm = "cmr10.tfm";
    let rows = [
        // the whole listing; the third read, which there isn't, would be that of the virtual font
        (
            "dvitype -dpi=300 one.dvi",
            65,
            tfm,
            3,
            "0 -",
            [head, fonts, end],
        ),
        (
            "dvitype -detail=0 one",
            65,
            tfm,
            0,
            "0 -",
            [head, "done pages=1\n", ""],
        ),
        (
            "dvitype -page-start=2 one",
            65,
            tfm,
            0,
            "1 nothing",
            ["texdvi: NoSuchPage 2\n", "", ""],
        ),
        // a fault, and the lines before its command
        (
            "dvitype one",
            0,
            tfm,
            0,
            "1 -",
            [head, fonts, "texdvi: NoChar cmr10 0\n"],
        ),
        (
            "dvitype one",
            142,
            tfm,
            0,
            "1 -",
            [head, fonts, "texdvi: StackUnder page 82\n"],
        ),
        (
            "dvitype one",
            65,
            "x.tfm",
            0,
            "1 -",
            [head, fonts, "texdvi: Missing cmr10.tfm\n"],
        ),
        (
            "dvitype one",
            65,
            tfm,
            2,
            "3 -",
            [head, fonts, "texdvi: ReadFault cmr10.tfm\n"],
        ),
        (
            "dvitype one",
            65,
            tfm,
            1,
            "3 nothing",
            ["texdvi: ReadFault one.dvi\n", "", ""],
        ),
    ];
    for (words, code, file, fails, outcome, [first, middle, last]) in rows {
        let got = end_of(rt.alloc(), words, code, file, fails)?;
        let want = format!(in rt.alloc(); "{outcome}\n{first}{middle}{last}")?;
        assert_eq!(rt;
            got.as_str(),
            want.as_str(),
            "{words} {code} {file} {fails}"
        );
    }
    Ok(())
}
