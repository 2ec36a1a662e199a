//! Papers, headers and warnings of runs.
use super::run_tool;
use crate::tests::document;
use dv_base::{MemShelf, MemTray};
use std::alloc::Global;
use std::str;
use std::test::Fail;

/// The commands of these specials, parted by `;`.
fn specials(alloc: Global, texts: &str) -> Result<Vec<u8>, Fail> {
    let mut page = Vec::new(alloc);
    for text in texts.split(';') {
        if !text.is_empty() {
            page.push(239)?;
            page.push(u8::try_from(text.len())?)?;
            page.extend_from_slice(text.as_bytes())?;
        }
    }
    Ok(page)
}

/// How a run with these options ends on a document of two pages with these specials, and on the files `a.pro` and `b.pro`: its status,
/// the paper in whole points, the number of blocks, and what is said.
fn end_of(alloc: Global, options: &str, first: &str, second: &str) -> Result<String, Fail> {
    let mut words = Vec::new(alloc);
    for word in ["dvips", "a"] {
        words.push(String::from_str(alloc, word)?)?;
    }
    for word in options.split(' ') {
        if !word.is_empty() {
            words.push(String::from_str(alloc, word)?)?;
        }
    }
    let one = specials(alloc, first)?;
    let two = specials(alloc, second)?;
    let file = document(alloc, &[], &[(1, one.as_slice()), (2, two.as_slice())])?;
    let mut shelf = MemShelf::new(alloc);
    shelf.add("a.dvi", file.as_slice())?;
    shelf.add("a.pro", b"% a")?;
    shelf.add("b.pro", b"% b")?;
    let mut tray = MemTray::new(alloc, 16_000, 1_000)?;
    let status = run_tool(alloc, &words, &mut shelf, &mut tray).status();
    let written = str::from_utf8(tray.written())?;
    let paper = written
        .split("%%BoundingBox: 0 0 ")
        .nth(1)
        .unwrap_or("nothing\n");
    let paper = paper.split('\n').nth(0).unwrap_or("");
    let blocks = written.split("%TeXblock: ").skip(1).count();
    let said = str::from_utf8(tray.said())?;
    Ok(format!(in alloc; "{status} {paper} {blocks} {said}")?)
}

/// In each line the options, the specials of the first page, those of the second, and how the run ends, its lines ended by `/`.
const RUNS: &str = "||| 0 612 792 0 
-h a.pro|header=a.pro|header=a.pro| 0 612 792 1 
|header=b.pro|header=a.pro;header=b.pro| 0 612 792 2 
|header=a.pro;header=c.pro|x| 1 nothing 0 texdvi: Missing c.pro/
-h c.pro||| 1 nothing 0 texdvi: Missing c.pro/
|papersize=1in,1in;papersize=210mm,297mm|papersize=2in,2in| 0 596 842 0 
|x|papersize=210mm,297mm| 0 612 792 0 texdvi: warning: special x/
-r|x|papersize=210mm,297mm| 0 596 842 0 texdvi: warning: special x/
-t a3|papersize=210mm,297mm|| 0 842 1191 0 
|papersize=1in, 0in|| 0 612 792 0 texdvi: warning: special papersize=1in, 0in/
-q|papersize=1in, 0in|| 0 612 792 0 
|ps:1 0 0 setrgbcolor|x\u{1}\\| 0 612 792 0 texdvi: warning: special ps:1 0 0 setrgbcolor/texdvi: warning: special x\\01\\5c/
--pass=ps|ps:1 0 0 setrgbcolor|y| 0 612 792 1 texdvi: warning: special y/
-C 3|z|y| 0 612 792 0 texdvi: warning: special z/texdvi: warning: special y/
-n 1|z|y| 0 612 792 0 texdvi: warning: special z/
|0123456789012345678901234567890123456789012345678901234567890|| 0 612 792 0 texdvi: warning: special 012345678901234567890123456789012345678901234567890123456789/";

#[test]
fn what_pages_say(rt: HostRuntime) -> Result<(), Fail> {
    let alloc = rt.alloc();
    for line in RUNS.split('\n') {
        let options = line.split('|').nth(0).ok_or("options")?;
        let first = line.split('|').nth(1).ok_or("first")?;
        let second = line.split('|').nth(2).ok_or("second")?;
        let want = line.split('|').nth(3).ok_or("end")?;
        let end = end_of(alloc, options, first, second)?;
        let mut said = String::new(alloc);
        said.push_str(" ")?;
        for part in end.as_str().split('\n') {
            said.push_str(part)?;
            said.push_str("/")?;
        }
        let shown = said.as_str().strip_suffix("/").unwrap_or("");
        assert_eq!(rt; shown, want, "{line}");
    }
    Ok(())
}

#[test]
fn many_headers(rt: HostRuntime) -> Result<(), Fail> {
    let alloc = rt.alloc();
    let mut names = String::new(alloc);
    for number in 0..64 {
        let name = format!(in alloc; "header={number};")?;
        names.push_str(name.as_str())?;
    }
    let end = end_of(alloc, "", names.as_str(), "header=7")?;
    assert_eq!(rt; end.as_str(), "1 nothing 0 texdvi: Missing 0\n");
    let end = end_of(alloc, "", names.as_str(), "header=64")?;
    assert_eq!(rt; end.as_str(), "1 nothing 0 texdvi: TooManyHeaders\n");
    Ok(())
}
