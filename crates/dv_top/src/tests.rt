//! Runs over a shelf and a tray in memory.
ghost use Rattle.std.specs.Prelude.{◌≤◌};

use super::run_tool;
use dv_base::{MemShelf, MemTray, Tray};
use ps_subset::PROLOG;
use std::alloc::Global;
use std::str;
use std::test::Fail;

/// A document whose one page has one rule.
const RULE: [u8; 128] = [
    0xf7, 2, 0x01, 0x83, 0x92, 0xc0, 0x1c, 0x3b, 0, 0, 0, 0, 0x03, 0xe8, 0, 0x8b, 0, 0, 0, 1, 0, 0,
    0, 0, 0, 0, 0, 0, 0, 0, 0, 0, 0, 0, 0, 0, 0, 0, 0, 0, 0, 0, 0, 0, 0, 0, 0, 0, 0, 0, 0, 0, 0, 0,
    0, 0, 0xff, 0xff, 0xff, 0xff, 0x84, 0, 0, 0, 0, 0, 0, 0, 0x64, 0x89, 0, 0, 0, 5, 0xff, 0xff,
    0xff, 0xff, 0x84, 0, 0, 0x14, 0x8e, 0, 0, 0xb9, 0x02, 0x8c, 0xf8, 0, 0, 0, 0x0f, 0x01, 0x83,
    0x92, 0xc0, 0x1c, 0x3b, 0, 0, 0, 0, 0x03, 0xe8, 0, 0, 0, 0, 0, 0, 0, 0, 0, 0, 0, 1, 0xf9, 0, 0,
    0, 0x58, 2, 0xdf, 0xdf, 0xdf, 0xdf, 0xdf,
];

/// A TFM file with the codes 65 and 66, each half the size wide.
pub const TFM: [u8; 48] = [
    0, 12, 0, 2, 0, 65, 0, 66, 0, 2, 0, 0, 0, 0, 0, 0, 0, 0, 0, 0, 0, 0, 0, 0, 0, 0, 0, 0, 0, 0xa0,
    0, 0, 1, 0, 0, 0, 1, 0, 0, 0, 0, 0, 0, 0, 0, 8, 0, 0,
];

/// A PK file with a black bitmap of 4 by 2 pixels for the code 65.
const PK: [u8; 32] = [
    0xf7, 0x59, 0, 0, 0xa0, 0, 0, 0, 0, 0, 0, 0, 0, 0, 0, 0, 0, 0, 0, 0xe0, 9, 0x41, 8, 0, 0, 0x15,
    4, 2, 0, 1, 0xff, 0xf5,
];

/// A PK file with 8 by 65,536 pixels for the code 65.
const LARGE: [u8; 57] = [
    0xf7, 0x59, 0, 0, 0xa0, 0, 0, 0, 0, 0, 0, 0, 0, 0, 0, 0, 0, 0, 0, 0xe7, 0, 0, 0, 28, 0, 0, 0,
    0x41, 0, 8, 0, 0, 0, 0, 0, 0, 0, 0, 0, 0, 0, 0, 0, 8, 0, 1, 0, 0, 0, 0, 0, 0, 0, 0, 0, 0, 0xf5,
];

/// What begins a VF file with one local font, `cmr10` at the virtual font's own size.
pub const VF: [u8; 32] = [
    0xf7, 0xca, 0, 0, 0, 0, 0, 0, 0xa0, 0, 0, 0xf3, 0, 0, 0, 0, 0, 0, 0x10, 0, 0, 0, 0xa0, 0, 0, 0,
    5, 0x63, 0x6d, 0x72, 0x31, 0x30,
];

/// The text of the page of rules at 300 dots an inch: what stands before the prolog, and what stands behind it.
const TEXT: (&str, &str) = (
    "%!PS-Adobe-2.0
%%Creator: texdvi
%%Title: rule.dvi
%%Pages: 1
%%BoundingBox: 0 0 612 792
%%EndComments
%%BeginProlog
",
    "%%EndProlog
%%BeginSetup
/#copies 1 def
TeXDict begin
52099153 300 300 300 300 TS
%%EndSetup
bos
%%Page: 1 1
bop
1 w
3 1 v
eop
eos
%%Trailer
end
%%EOF
",
);

/// Room for any text of these tests.
const ROOM: usize = 16_000;

/// The words of a run that prints a file.
fn words(alloc: Global, input: &str) -> Result<Vec<String>, Fail> {
    let mut words = Vec::new(alloc);
    for word in ["dvips", "-D", "300", "-o", "rule.ps", input] {
        words.push(String::from_str(alloc, word)?)?;
    }
    Ok(words)
}

fn text(alloc: Global) -> Result<Vec<u8>, Fail> {
    let mut bytes = Vec::from_slice(alloc, TEXT.0.as_bytes())?;
    bytes.extend_from_slice(PROLOG)?;
    bytes.extend_from_slice(TEXT.1.as_bytes())?;
    Ok(bytes)
}

/// A tray of which each write takes at most `chunk` bytes, and the write `fails` takes none.
fn tray(alloc: Global, chunk: usize, fails: u32) -> Result<MemTray, Fail>
    requires { 1 ≤ chunk }
{
    let mut tray = MemTray::new(alloc, ROOM, 100)?;
    tray.chunk(chunk);
    tray.fail_at(fails)?;
    Ok(tray)
}

#[test]
fn the_text_however_the_tray_takes_it(rt: HostRuntime) -> Result<(), Fail> {
    let alloc = rt.alloc();
    let words = words(alloc, "rule")?;
    let text = text(alloc)?;
    let mut shelf = MemShelf::new(alloc);
    shelf.add("rule.dvi", &RULE)?;
    for chunk in [1, 2, 3, 7] {
        let mut tray = tray(alloc, chunk, 0)?;
        let outcome = run_tool(alloc, &words, &mut shelf, &mut tray);
        assert_eq!(rt; outcome.status(), 0, "chunk {chunk}");
        assert_eq!(rt; tray.written(), text.as_slice(), "chunk {chunk}");
    }
    Ok(())
}

#[test]
fn a_front_of_the_text_where_a_write_fails(rt: HostRuntime) -> Result<(), Fail> {
    let alloc = rt.alloc();
    let words = words(alloc, "rule")?;
    let text = text(alloc)?;
    let mut shelf = MemShelf::new(alloc);
    shelf.add("rule.dvi", &RULE)?;
    // each write fails in turn, until a run needs fewer
    for fails in 1..=100 {
        let mut tray = tray(alloc, ROOM, fails)?;
        let outcome = run_tool(alloc, &words, &mut shelf, &mut tray);
        if outcome.status() == 0 {
            assert!(rt; fails > 5, "a few writes");
            return Ok(());
        }
        assert_eq!(rt; outcome.status(), 4, "write {fails}");
        assert!(rt; text.starts_with(tray.written()), "write {fails}");
    }
    Err("no run came through".into())
}

/// The file `a.dvi` of a run.
#[derive(Clone, Copy, Drop)]
enum File<'a> {
    /// There is none.
    Absent,
    /// A document with these pages, each a count 0 and the commands between its bop and its eop.
    Pages(&'a [(i32, &'a [u8])]),
    /// A document whose one page has so many pushes, and then as many pops.
    Pushes(usize),
    /// A document of no page, with bytes 223 at its end until it has so many bytes.
    Long(usize),
    /// The first so many bytes of the page of rules.
    Front(usize),
    /// The page of rules, with these bytes at that place.
    Changed(usize, &'a [u8]),
    /// The page of rules, with a denominator of 0.
    NoUnits,
}

/// The definition of a font of this number, of 655,360 units.
fn define(bytes: &mut Vec<u8>, number: u8, name: &str) -> Result<(), Fail> {
    bytes.extend_from_slice(&[243, number, 0, 0, 0, 0, 0, 10, 0, 0, 0, 10, 0, 0, 0])?;
    bytes.push(u8::try_from(name.len())?)?;
    bytes.extend_from_slice(name.as_bytes())?;
    Ok(())
}

/// A document with these fonts, numbered from 0, and these pages.
pub fn document(alloc: Global, fonts: &[&str], pages: &[(i32, &[u8])]) -> Result<Vec<u8>, Fail> {
    let mut bytes = Vec::from_slice(alloc, &RULE[..15])?;
    let mut last = -1_i32;
    for (count, commands) in pages {
        let bop = i32::try_from(bytes.len())?;
        bytes.push(139)?;
        bytes.extend_from_slice(&count.to_be_bytes())?;
        bytes.extend_from_slice(&[0; 36])?;
        bytes.extend_from_slice(&last.to_be_bytes())?;
        bytes.extend_from_slice(commands)?;
        bytes.push(140)?;
        last = bop;
    }
    let post = i32::try_from(bytes.len())?;
    bytes.push(248)?;
    bytes.extend_from_slice(&last.to_be_bytes())?;
    bytes.extend_from_slice(&RULE[2..14])?;
    bytes.extend_from_slice(&[0; 10])?;
    bytes.extend_from_slice(&u16::try_from(pages.len())?.to_be_bytes())?;
    for (number, name) in fonts.iter().enumerate() {
        define(&mut bytes, u8::try_from(number)?, name)?;
    }
    bytes.push(249)?;
    bytes.extend_from_slice(&post.to_be_bytes())?;
    bytes.extend_from_slice(&[2, 223, 223, 223, 223])?;
    Ok(bytes)
}

/// The bytes of a file; none where it is absent.
fn bytes_of(alloc: Global, file: &File<'_>) -> Result<Option<Vec<u8>>, Fail> {
    let mut rule = RULE;
    let bytes = match file {
        File::Absent => return Ok(None),
        File::Pages(pages) => document(alloc, &[], pages)?,
        File::Pushes(count) => {
            let mut page = Vec::new(alloc);
            page.resize(*count, 141)?;
            page.resize(count.saturating_add(*count), 142)?;
            document(alloc, &[], &[(1, page.as_slice())])?
        }
        File::Long(length) => {
            let mut bytes = document(alloc, &[], &[])?;
            bytes.resize(*length, 223)?;
            bytes
        }
        File::Front(length) => Vec::from_slice(alloc, rule.get(..*length).ok_or("long")?)?,
        File::Changed(at, new) => {
            for (place, byte) in new.iter().enumerate() {
                *rule.get_mut(at.saturating_add(place)).ok_or("far")? = *byte;
            }
            Vec::from_slice(alloc, &rule)?
        }
        File::NoUnits => {
            for at in [6, 7, 8, 9, 97, 98, 99, 100] {
                rule[at] = 0;
            }
            Vec::from_slice(alloc, &rule)?
        }
    };
    Ok(Some(bytes))
}

/// What fails outside.
#[derive(Clone, Copy, Drop)]
enum Outside {
    Nothing,
    Read,
    Begin,
    Write,
}

/// How a run ends: its status, the text behind the setup where an output was begun, and what is said.
fn end_of(alloc: Global, words: &str, file: &File<'_>, outside: &Outside) -> Result<String, Fail> {
    let mut list = Vec::new(alloc);
    for word in words.split(' ') {
        list.push(String::from_str(alloc, word)?)?;
    }
    let mut shelf = MemShelf::new(alloc);
    if let Some(bytes) = bytes_of(alloc, file)? {
        shelf.add("a.dvi", bytes.as_slice())?;
    }
    let mut tray = tray(alloc, ROOM, 0)?;
    match outside {
        Outside::Nothing => {}
        Outside::Read => shelf.fail_at(1)?,
        Outside::Begin => {
            let _ = tray.begin(alloc, "another");
        }
        Outside::Write => tray.fail_at(1)?,
    }
    let outcome = run_tool(alloc, &list, &mut shelf, &mut tray);
    let status = outcome.status();
    let said = str::from_utf8(tray.said())?;
    let written = str::from_utf8(tray.written())?;
    let text = written.split("%%EndSetup\n").nth(1).unwrap_or("");
    let name = tray.name().unwrap_or("nothing");
    Ok(format!(in alloc; "{status} {name} {text}{said}")?)
}

/// A file of a font.
#[derive(Clone, Copy, Drop)]
enum FontFile<'a> {
    /// These bytes.
    Plain(&'a [u8]),
    /// A VF file with this packet for the code 65.
    Packet(&'a [u8]),
    /// So many bytes 0.
    Zeros(usize),
}

/// The bytes of a font's file.
fn font_file(alloc: Global, file: &FontFile<'_>) -> Result<Vec<u8>, Fail> {
    let mut bytes = Vec::new(alloc);
    match file {
        FontFile::Plain(plain) => bytes.extend_from_slice(plain)?,
        FontFile::Packet(packet) => {
            bytes.extend_from_slice(&VF)?;
            bytes.push(u8::try_from(packet.len())?)?;
            bytes.extend_from_slice(&[65, 8, 0, 0])?;
            bytes.extend_from_slice(packet)?;
            bytes.push(0xf8)?;
        }
        FontFile::Zeros(length) => bytes.resize(*length, 0)?,
    }
    Ok(bytes)
}

/// How a run ends on a document with the fonts `cmr10` and `vir`, whose one page has these commands, and on these files.
fn print(
    alloc: Global,
    page: &[u8],
    files: &[(&str, FontFile<'_>)],
    fails: u32,
) -> Result<String, Fail> {
    let mut shelf = MemShelf::new(alloc);
    let bytes = document(alloc, &["cmr10", "vir"], &[(1, page)])?;
    shelf.add("rule.dvi", bytes.as_slice())?;
    for (name, file) in files {
        let bytes = font_file(alloc, file)?;
        shelf.add(name, bytes.as_slice())?;
    }
    shelf.fail_at(fails)?;
    let mut tray = tray(alloc, ROOM, 0)?;
    let words = words(alloc, "rule")?;
    let outcome = run_tool(alloc, &words, &mut shelf, &mut tray);
    let status = outcome.status();
    let said = str::from_utf8(tray.said())?;
    let written = str::from_utf8(tray.written())?;
    let text = written.split("%%EndSetup\n").nth(1).unwrap_or("");
    Ok(format!(in alloc; "{status} {text}{said}")?)
}

#[test]
fn fonts_of_a_page(rt: HostRuntime) -> Result<(), Fail> {
    let tfm = ("cmr10.tfm", FontFile::Plain(&TFM));
    let pk = ("cmr10.300pk", FontFile::Plain(&PK));
    let vir = ("vir.tfm", FontFile::Plain(&TFM));
    // one character of cmr10; of vir, whose packet sets it in cmr10 from where the page's w has moved, and not by its own w
    let one =
        "0 bos\n/F0 FB\n65[4 2 true[1 0 0 1 0 1]{<f0f0>}21 0 0 -1 4 1]D\nE\n%%Page: 1 1\nbop\nF0 F\n(A)p\neop\neos\n%%Trailer\nend\n%%EOF\n";
    let moved =
        "0 bos\n/F1 FB\n65[4 2 true[1 0 0 1 0 1]{<f0f0>}21 0 0 -1 4 1]D\nE\n%%Page: 1 1\nbop\nF1 F\n6 w\n(A)p\neop\neos\n%%Trailer\nend\n%%EOF\n";
    let packet = ("vir.vf", FontFile::Packet(&[147, 65]));
    let rows = [
        (&[171, 65][..], [tfm, pk, vir, packet], one),
        (
            &[172, 150, 1, 134, 160, 65][..],
            [tfm, pk, vir, packet],
            moved,
        ),
        // font 1 is selected inside a push, and stays so behind the pop
        (
            &[171, 141, 172, 142, 65][..],
            [
                tfm,
                pk,
                vir,
                ("vir.vf", FontFile::Packet(&[145, 1, 134, 160, 65])),
            ],
            "0 bos\n/F0 FB\n65[4 2 true[1 0 0 1 0 1]{<f0f0>}21 0 0 -1 4 1]D\nE\n%%Page: 1 1\nbop\nF0 F\n4 w\n(A)p\neop\neos\n%%Trailer\nend\n%%EOF\n",
        ),
    ];
    for (page, files, want) in &rows {
        let end = print(rt.alloc(), page, files, 0)?;
        assert_eq!(rt; end.as_str(), *want);
    }
    Ok(())
}

#[test]
fn faults_of_fonts(rt: HostRuntime) -> Result<(), Fail> {
    let tfm = ("cmr10.tfm", FontFile::Plain(&TFM));
    let pk = ("cmr10.300pk", FontFile::Plain(&PK));
    let vir = ("vir.tfm", FontFile::Plain(&TFM));
    let packet = ("vir.vf", FontFile::Packet(&[65]));
    let rows = [
        (
            &[176][..],
            [tfm, pk, vir, packet],
            0,
            "1 texdvi: UndefinedFont page 60\n",
        ),
        (
            &[65][..],
            [tfm, pk, vir, packet],
            0,
            "1 texdvi: NoFont page 60\n",
        ),
        (
            &[171, 0][..],
            [tfm, pk, vir, packet],
            0,
            "1 texdvi: NoChar cmr10 0\n",
        ),
        (
            &[171, 66][..],
            [tfm, pk, vir, packet],
            0,
            "1 texdvi: NoGlyph cmr10 66\n",
        ),
        (
            &[172, 66][..],
            [tfm, pk, vir, packet],
            0,
            "1 texdvi: NoPacket vir 66\n",
        ),
        (
            &[171, 65][..],
            [tfm, ("cmr10.300pk", FontFile::Plain(&LARGE)), vir, packet],
            0,
            "1 texdvi: GlyphTooBig cmr10 65 65536\n",
        ),
        (
            &[171, 65][..],
            [("x.tfm", FontFile::Plain(&TFM)), pk, vir, packet],
            0,
            "1 texdvi: Missing cmr10.tfm\n",
        ),
        (
            &[171, 65][..],
            [tfm, ("cmr10.302pk", FontFile::Plain(&PK)), vir, packet],
            0,
            "1 texdvi: Missing cmr10.301pk\n",
        ),
        (
            &[171, 65][..],
            [("cmr10.tfm", FontFile::Zeros(131_069)), pk, vir, packet],
            0,
            "1 texdvi: FileTooLong cmr10.tfm\n",
        ),
        (
            &[171, 65][..],
            [tfm, pk, vir, packet],
            2,
            "3 texdvi: ReadFault cmr10.vf\n",
        ),
        (
            &[171, 65][..],
            [("cmr10.tfm", FontFile::Zeros(10)), pk, vir, packet],
            0,
            "1 texdvi: BadTfm cmr10.tfm Short\n",
        ),
        (
            &[171, 65][..],
            [tfm, ("cmr10.300pk", FontFile::Zeros(10)), vir, packet],
            0,
            "1 texdvi: BadPk cmr10.300pk BadPreamble\n",
        ),
        (
            &[172, 65][..],
            [tfm, pk, vir, ("vir.vf", FontFile::Zeros(10))],
            0,
            "1 texdvi: BadVf vir.vf BadPreamble\n",
        ),
        (
            &[172, 65][..],
            [tfm, pk, vir, ("vir.vf", FontFile::Packet(&[142]))],
            0,
            "1 texdvi: StackUnder packet vir 65 0\n",
        ),
        (
            &[172, 65][..],
            [tfm, pk, vir, ("vir.vf", FontFile::Packet(&[171, 176, 65]))],
            0,
            "1 texdvi: UndefinedFont packet vir 65 1\n",
        ),
    ];
    for (page, files, fails, want) in &rows {
        let end = print(rt.alloc(), page, files, *fails)?;
        assert_eq!(rt; end.as_str(), *want);
    }
    Ok(())
}

#[test]
fn every_outcome(rt: HostRuntime) -> Result<(), Fail> {
    let right = "dvips -D 300 -o a.ps a";
    let none = "0 a.ps %%Trailer\nend\n%%EOF\n";
    let files = [
        (File::Pages(&[]), none),
        (File::Long(1_000_000), none),
        (
            File::Long(67_108_865),
            "1 nothing texdvi: FileTooLong a.dvi\n",
        ),
        (File::Absent, "1 nothing texdvi: Missing a.dvi\n"),
        // push, an inch right and down, a rule of 2 by 2 pixels, pop, the rule again; nothing; down and a rule of one pixel
        (
            File::Pages(&[
                (
                    7,
                    &[
                        141, 146, 0, 72, 69, 31, 160, 0, 72, 69, 31, 137, 0, 0, 61, 172, 0, 0, 61,
                        172, 142, 137, 0, 0, 61, 172, 0, 0, 61, 172,
                    ],
                ),
                (-3, &[]),
                (
                    2,
                    &[239, 1, 120, 160, 0, 72, 69, 31, 137, 0, 0, 0, 1, 0, 0, 0, 1],
                ),
            ]),
            "0 a.ps bos\n%%Page: 7 1\nbop\n300 300 a\n2 2 v\n0 0 a\n2 2 v\neop\n%%Page: -3 2\nbop\neop\n%%Page: 2 3\nbop\n300 x\n1 1 v\neop\neos\n%%Trailer\nend\n%%EOF\ntexdvi: warning: special x\n",
        ),
        (
            File::Pushes(1_000),
            "0 a.ps bos\n%%Page: 1 1\nbop\neop\neos\n%%Trailer\nend\n%%EOF\n",
        ),
        (
            File::Pushes(1_001),
            "1 nothing texdvi: StackDeep page 1060\n",
        ),
        (
            File::Pages(&[(1, &[]), (2, &[142])]),
            "1 nothing texdvi: StackUnder page 106\n",
        ),
        (
            File::Pages(&[(1, &[141])]),
            "1 nothing texdvi: StackLeft page 61\n",
        ),
        (
            File::Pages(&[(1, &[146, 127, 255, 255, 255, 143, 1])]),
            "1 nothing texdvi: Overflow page 65\n",
        ),
        (
            File::NoUnits,
            "1 nothing texdvi: BadConv 25400000 0 1000 300\n",
        ),
        (File::Front(0), "1 nothing texdvi: BadDvi NoPreamble\n"),
        (File::Front(126), "1 nothing texdvi: BadDvi NoTrailer\n"),
        (File::Changed(1, &[3]), "1 nothing texdvi: BadDvi BadId 1\n"),
        (
            File::Changed(60, &[250]),
            "1 nothing texdvi: BadDvi Undefined 60\n",
        ),
        (
            File::Changed(89, &[0, 0, 0, 14]),
            "1 nothing texdvi: BadDvi BadBackPointer 88\n",
        ),
        (
            File::Changed(115, &[0, 2]),
            "1 nothing texdvi: BadDvi PageCount 1 2\n",
        ),
        (
            File::Changed(118, &[0, 0, 0, 87]),
            "1 nothing texdvi: BadDvi BadPostPointer 117\n",
        ),
    ];
    for (file, want) in &files {
        let end = end_of(rt.alloc(), right, file, &Outside::Nothing)?;
        assert_eq!(rt; end.as_str(), *want);
    }
    let outside = [
        (Outside::Read, "3 nothing texdvi: ReadFault a.dvi\n"),
        (Outside::Begin, "4 another texdvi: WriteFault\n"),
        (Outside::Write, "4 a.ps texdvi: WriteFault\n"),
    ];
    for (fault, want) in &outside {
        let end = end_of(rt.alloc(), right, &File::Pages(&[]), fault)?;
        assert_eq!(rt; end.as_str(), *want);
    }
    let words = [
        ("", "2 nothing texdvi: BadWords 0\n"),
        ("dvips", "2 nothing texdvi: BadWords 1\n"),
        ("dvips -D 9 -o a.ps a", "2 nothing texdvi: BadWords 2\n"),
        ("dvips -D9 a", "2 nothing texdvi: BadWords 1\n"),
        ("dvips -X 9 a", "2 nothing texdvi: BadWords 2\n"),
        ("dvips -p", "2 nothing texdvi: BadWords 2\n"),
        ("dvips -Z a", "2 nothing texdvi: BadWords 1\n"),
        ("dvips a b", "2 nothing texdvi: BadWords 2\n"),
        ("dvips -A -B a", "2 nothing texdvi: BadWords 2\n"),
        ("dvips -pp 1 -p 2 a", "2 nothing texdvi: BadWords 3\n"),
        ("dvips -D 300 -o a.ps -a", "2 nothing texdvi: BadWords 5\n"),
        ("dvips -D 300 -o a.ps a b", "2 nothing texdvi: BadWords 6\n"),
    ];
    for (line, want) in &words {
        let end = end_of(rt.alloc(), line, &File::Pages(&[]), &Outside::Nothing)?;
        assert_eq!(rt; end.as_str(), *want);
    }
    Ok(())
}

/// The labels and numbers of the pages of a text.
fn page_lines(alloc: Global, text: &str) -> Result<String, Fail> {
    let mut lines = String::new(alloc);
    for line in text.split('\n') {
        if let Some(page) = line.strip_prefix("%%Page: ") {
            lines.push_str(page)?;
            lines.push_str(",")?;
        }
    }
    Ok(lines)
}

/// In each line the options, and the pages, each by its label and its number, or the message.
const CHOICES: &str = "-q/1 1,2 2,2 3,-1 4,
-p 2/2 1,2 2,-1 3,
-l 2/1 1,2 2,
-p =3/2 1,-1 2,
-A/1 1,-1 2,
-r/-1 1,2 2,2 3,1 4,
-pp 1,2/1 1,2 2,
-pp -1,1:2/1 1,2 2,-1 3,
-C 2/1 1,2 2,2 3,-1 4,1 5,2 6,2 7,-1 8,
-n 1 -r/1 1,
-p =2 -l =2/2 1,
-p 9/texdvi: NoSuchPage 9
-p 2 -l 1/texdvi: NoSuchPage 1";

#[test]
fn chosen_pages(rt: HostRuntime) -> Result<(), Fail> {
    let alloc = rt.alloc();
    let pages = File::Pages(&[(1, &[]), (2, &[]), (2, &[]), (-1, &[])]);
    for line in CHOICES.split('\n') {
        let options = line.split('/').nth(0).ok_or("options")?;
        let want = line.split('/').nth(1).ok_or("pages")?;
        let words = format!(in alloc; "dvips {options} a")?;
        let end = end_of(alloc, words.as_str(), &pages, &Outside::Nothing)?;
        let lines = page_lines(alloc, end.as_str())?;
        assert!(rt;
            lines.as_str() == want || end.as_str().contains(want),
            "{options}: {end}"
        );
    }
    Ok(())
}

/// In each line the options, and a part of the text of a page of rules.
const SETUPS: &str = "-D 300/%%BoundingBox: 0 0 612 792
-D 300/52099153 300 300 300 300 TS
-t a4 -D 600/%%BoundingBox: 0 0 596 842
-t a4 -D 600/55380990 600 600 600 600 TS
-D 300 -O 1in,0in/52099153 300 300 600 300 TS
-X 300 -Y 600/52099153 300 600 300 600 TS
-D 600 -X 300/52099153 300 600 300 600 TS
-X 300 -D 600/52099153 600 600 600 600 TS
-D 300 -c 3/#copies 3 def
-D 300 -x 2000/2 w
-D 300 -N/%!PS
";

#[test]
fn setups_of_jobs(rt: HostRuntime) -> Result<(), Fail> {
    let alloc = rt.alloc();
    for line in SETUPS.split('\n') {
        let Some(want) = line.split('/').nth(1) else {
            continue;
        };
        let options = line.split('/').nth(0).ok_or("options")?;
        let words = format!(in alloc; "dvips {options} a")?;
        let mut list = Vec::new(alloc);
        for word in words.as_str().split(' ') {
            list.push(String::from_str(alloc, word)?)?;
        }
        let mut shelf = MemShelf::new(alloc);
        shelf.add("a.dvi", &RULE)?;
        let mut tray = tray(alloc, ROOM, 0)?;
        let outcome = run_tool(alloc, &list, &mut shelf, &mut tray);
        assert_eq!(rt; outcome.status(), 0, "{options}");
        let written = str::from_utf8(tray.written())?;
        assert!(rt; written.contains(want), "{options}");
    }
    Ok(())
}
