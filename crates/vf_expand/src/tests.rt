//! Pages over fonts that were put together here: their marks and steps, and where a walk over them stops.
use super::*;
use dv_base::{Conv, MemShelf, Units};
use dvi_doc::Doc;
use font_set::{Fonts, Want};
use positions::{Canvas, GlyphMark, RuleMark, SpecialMark};
use std::alloc::{AllocError, Global};
use std::test::Fail;

/// A canvas that notes its marks as text, and counts its glyphs.
#[derive(Drop)]
struct Notes {
    alloc: Global,
    text: String,
    glyphs: u32,
}

impl Notes {
    fn note(&mut self, line: Result<String, AllocError>) -> Result<(), AllocError> {
        let line = line?;
        self.text.push_str(line.as_str())
    }
}

impl Canvas for Notes {
    type Fault = AllocError;

    ghost can = { λ c m. Unit {0} };

    ghost takes = { λ a b ms. Unit {0} };

    ghost refuses = { λ a b ms m f. Unit {0} };

    fn glyph(&mut self, mark: &GlyphMark) -> Result<(), AllocError> {
        let GlyphMark {
            font,
            code,
            x,
            y,
            h,
            v,
            width,
            pixels,
        } = *mark;
        let id = font.number();
        self.glyphs = self.glyphs.wrapping_add(1);
        let line = format!(in self.alloc;
            "{code} of {id} {x} {y} at {h} {v} wide {width} {pixels}, "
        );
        self.note(line)
    }

    fn rule(&mut self, mark: &RuleMark) -> Result<(), AllocError> {
        let RuleMark {
            x,
            y,
            w,
            rows,
            h,
            v,
            a,
            b,
        } = *mark;
        let line = format!(in self.alloc; "rule {x} {y} {w} {rows} at {h} {v} of {a} {b}, ");
        self.note(line)
    }

    fn special(&mut self, mark: &SpecialMark<'_>) -> Result<(), AllocError> {
        let SpecialMark { bytes, x, y, h, v } = *mark;
        let line = format!(in self.alloc; "special {bytes:?} {x} {y} at {h} {v}, ");
        self.note(line)
    }

    ghost starts = { λ c. tt };

    ghost chains = { λ a b c xs ys h k. tt };

    ghost refused_later = { λ a b c xs ys m f h k. tt };
}

/// The version 2 and the numbers num, den and mag of TeX's documents.
const UNITS: [u8; 13] = [
    2, 0x01, 0x83, 0x92, 0xc0, 0x1c, 0x3b, 0, 0, 0, 0, 0x03, 0xe8,
];

/// A TFM file with the code 65 alone, whose width is half the size.
const TFM: [u8; 56] = [
    0, 14, 0, 2, 0, 65, 0, 65, 0, 2, 0, 1, 0, 1, 0, 1, 0, 0, 0, 0, 0, 0, 0, 0, 0, 0, 0, 0, 0, 0xa0,
    0, 0, 1, 0, 0, 0, 0, 0, 0, 0, 0, 8, 0, 0, 0, 0, 0, 0, 0, 0, 0, 0, 0, 0, 0, 0,
];

/// A size and a design size of 10 points, as a document has them.
const PAGE_SIZES: [u8; 8] = [0, 0x0a, 0, 0, 0, 0x0a, 0, 0];

/// The virtual font's own size and a design size of 10 points, as a VF file has them.
const LOCAL_SIZES: [u8; 8] = [0, 0x10, 0, 0, 0, 0xa0, 0, 0];

/// The definition of a font.
fn define(bytes: &mut Vec<u8>, k: u8, sizes: &[u8; 8], name: &str) -> Result<(), AllocError> {
    bytes.extend_from_slice(&[243, k, 0, 0, 0, 0])?;
    bytes.extend_from_slice(sizes)?;
    bytes.extend_from_slice(&[0, u8::try_from(name.len()).unwrap_or(0)])?;
    bytes.extend_from_slice(name.as_bytes())
}

/// A VF file with one local font, and this packet for the code 65.
fn virtual_font(alloc: Global, local: &str, packet: &[u8]) -> Result<Vec<u8>, AllocError> {
    let mut bytes = Vec::from_slice(alloc, &[247, 202, 0, 0, 0, 0, 0, 0, 0xa0, 0, 0])?;
    define(&mut bytes, 0, &LOCAL_SIZES, local)?;
    bytes.extend_from_slice(&[u8::try_from(packet.len()).unwrap_or(0), 65, 8, 0, 0])?;
    bytes.extend_from_slice(packet)?;
    bytes.push(248)?;
    Ok(bytes)
}

/// Puts a virtual font on the shelf.
fn put(
    alloc: Global,
    shelf: &mut MemShelf,
    name: &str,
    local: &str,
    packet: &[u8],
) -> Result<(), AllocError> {
    let file = virtual_font(alloc, local, packet)?;
    let vf = format!(in alloc; "{name}.vf")?;
    let tfm = format!(in alloc; "{name}.tfm")?;
    shelf.add(vf.as_str(), &file)?;
    shelf.add(tfm.as_str(), &TFM)
}

/// Puts virtual fonts on the shelf, numbered from 1, each of which sets characters of the next one; the last one is over `last`.
fn chain(
    alloc: Global,
    shelf: &mut MemShelf,
    letter: &str,
    length: u32,
    last: &str,
    packet: &[u8],
) -> Result<(), AllocError> {
    for i in 1..length {
        let name = format!(in alloc; "{letter}{i}")?;
        let next = format!(in alloc; "{letter}{}", i + 1)?;
        put(alloc, shelf, name.as_str(), next.as_str(), packet)?;
    }
    let name = format!(in alloc; "{letter}{length}")?;
    put(alloc, shelf, name.as_str(), last, packet)
}

/// The real fonts `one` and `two`, and virtual ones over `one`.
fn shelf(alloc: Global) -> Result<MemShelf, AllocError> {
    let mut shelf = MemShelf::new(alloc);
    shelf.add("one.tfm", &TFM)?;
    shelf.add("two.tfm", &TFM)?;
    put(alloc, &mut shelf, "box", "one", &[147, 65])?;
    put(alloc, &mut shelf, "self", "self", &[65])?;
    put(alloc, &mut shelf, "moves", "one", &[143, 3, 143, 3, 65])?;
    put(alloc, &mut shelf, "deep", "one", &[141, 141, 65, 142, 142])?;
    let marks = [239, 2, 104, 105, 157, 255, 137, 0, 1, 0, 0, 0, 2, 0, 0];
    put(alloc, &mut shelf, "marks", "one", &marks)?;
    put(alloc, &mut shelf, "pops", "one", &[142, 141])?;
    chain(alloc, &mut shelf, "ten", 3, "one", &[65; 10])?;
    chain(alloc, &mut shelf, "nest", 17, "one", &[65])?;
    // the last one's packet is ten nops, so that no mark is given
    chain(alloc, &mut shelf, "w", 7, "w8", &[65; 10])?;
    put(alloc, &mut shelf, "w8", "one", &[138; 10])?;
    Ok(shelf)
}

/// Pieces of a page: how often each comes, and its bytes.
type Pieces = &'static [(u32, &'static [u8])];

/// A piece as often as it comes.
fn repeat(bytes: &mut Vec<u8>, count: u32, piece: &[u8]) -> Result<(), AllocError> {
    for _ in 0..count {
        bytes.extend_from_slice(piece)?;
    }
    Ok(())
}

/// A document with one page, at place 15, and two fonts, numbered from 0.
fn document(alloc: Global, fonts: (&str, &str), pieces: Pieces) -> Result<Vec<u8>, AllocError> {
    let mut bytes = Vec::from_slice(alloc, &[247])?;
    bytes.extend_from_slice(&UNITS)?;
    bytes.extend_from_slice(&[0, 139])?;
    bytes.extend_from_slice(&[0; 40])?;
    bytes.extend_from_slice(&[255; 4])?;
    for (count, piece) in pieces {
        repeat(&mut bytes, *count, piece)?;
    }
    bytes.push(140)?;
    let post = u32::try_from(bytes.len()).unwrap_or(0);
    bytes.extend_from_slice(&[248, 0, 0, 0, 15])?;
    bytes.extend_from_slice(&UNITS[1..])?;
    bytes.extend_from_slice(&[0, 0, 0, 1, 0, 0, 0, 1, 0, 0, 0, 1])?;
    define(&mut bytes, 0, &PAGE_SIZES, fonts.0)?;
    define(&mut bytes, 1, &PAGE_SIZES, fonts.1)?;
    bytes.push(249)?;
    bytes.extend_from_slice(&post.to_be_bytes())?;
    bytes.extend_from_slice(&[2, 223, 223, 223, 223])?;
    Ok(bytes)
}

/// A walker at 300 dots an inch across, and at a resolution down.
fn walker(alloc: Global, down: i64, drift: i64) -> Result<Walker, Fail> {
    if down > 10_000 || drift < 0 || drift > 1_000 {
        return Err("no walker".into());
    }
    let units = Units {
        num: 25_400_000,
        den: 473_628_672,
        mag: 1_000,
        dpi: 300,
    };
    let across = Conv::new(&units).ok_or("units")?;
    let down = Conv::new(&Units { dpi: down, ..units }).ok_or("units")?;
    Ok(Walker::new(alloc, across, down, drift)?)
}

/// What a walk over the page gives: its marks, its answer and the count of commands.
fn walked(
    alloc: Global,
    shelf: &mut MemShelf,
    bytes: &[u8],
    walker: &mut Walker,
) -> Result<String, Fail> {
    if bytes.len() > 1_000_000 {
        return Err("a long document".into());
    }
    let Ok(doc) = Doc::read(alloc, bytes) else {
        return Err("no document".into());
    };
    if doc.pages().is_empty() {
        return Err("no page".into());
    }
    let units = Units {
        num: 25_400_000,
        den: 473_628_672,
        mag: 1_000,
        dpi: 300,
    };
    let conv = Conv::new(&units).ok_or("units")?;
    let mut fonts = Fonts::new(alloc, units, conv, Want::Packets);
    let Ok(()) = fonts.load_page(shelf, &doc, 0) else {
        return Ok(format!(in alloc; "unloaded")?);
    };
    let mut notes = Notes {
        alloc,
        text: String::new(alloc),
        glyphs: 0,
    };
    let result = walker.page(&doc, 0, &fonts, &mut notes);
    Ok(format!(in alloc;
        "{}{} glyphs, {result:?} {}",
        notes.text,
        notes.glyphs,
        walker.steps()
    )?)
}

/// What a walk over a page in these fonts gives, at 300 dots an inch across and a resolution down.
fn told(
    alloc: Global,
    fonts: (&str, &str),
    down: i64,
    drift: i64,
    pieces: Pieces,
) -> Result<String, Fail> {
    let mut shelf = shelf(alloc)?;
    let bytes = document(alloc, fonts, pieces)?;
    let mut walker = walker(alloc, down, drift)?;
    walked(alloc, &mut shelf, &bytes, &mut walker)
}

#[test]
fn marks_of_pages(rt: HostRuntime) -> Result<(), Fail> {
    let cases: [((&str, &str), i64, Pieces, &str); 9] = [
        // the font stands beyond a pop, and a put moves nothing
        (
            ("one", "two"),
            300,
            &[(1, &[171, 141, 172, 142, 65, 133, 65])],
            "65 of 1 0 0 at 0 0 wide 327680 21, 65 of 1 21 0 at 327680 0 wide 327680 21, 2 glyphs, Ok(()) 6",
        ),
        // a packet begins with w = 0, and the page's w stands behind it
        (
            ("box", "two"),
            300,
            &[(1, &[171, 150, 1, 0x86, 0xa0, 65, 147, 65])],
            "65 of 1 6 0 at 100000 0 wide 327680 21, 65 of 1 33 0 at 527680 0 wide 327680 21, 2 glyphs, Ok(()) 9",
        ),
        // amounts of a packet are parts of its font's size, each one by itself
        (
            ("moves", "two"),
            300,
            &[(1, &[171, 65])],
            "65 of 1 0 0 at 2 0 wide 327680 21, 1 glyphs, Ok(()) 5",
        ),
        // a special and a rule of a packet, and a special behind it
        (
            ("marks", "two"),
            300,
            &[(1, &[171, 65, 239, 1, 120])],
            "special [104, 105] 0 0 at 0 0, rule 0 0 6 3 at 0 -1 of 40960 81920, special [120] 21 0 at 327680 0, 0 glyphs, Ok(()) 6",
        ),
        // ten by ten by ten characters
        (
            ("ten1", "two"),
            300,
            &[(1, &[171, 65])],
            "1000 glyphs, Ok(()) 1112",
        ),
        // 16 packets deep
        (
            ("nest2", "two"),
            300,
            &[(1, &[171, 65])],
            "65 of 16 0 0 at 0 0 wide 327680 21, 1 glyphs, Ok(()) 18",
        ),
        // 1,000 pushes of the page and a packet
        (
            ("deep", "two"),
            300,
            &[(1, &[171]), (998, &[141]), (1, &[65]), (998, &[142])],
            "1 glyphs, Ok(()) 2003",
        ),
        // a move down and a rule, at 300 and at 600 dots an inch down
        (
            ("one", "two"),
            300,
            &[(
                1,
                &[159, 0, 0xb9, 0x02, 137, 0, 0, 0x4e, 0x20, 0, 0, 0xb9, 0x02],
            )],
            "rule 0 3 3 2 at 0 47362 of 20000 47362, 0 glyphs, Ok(()) 2",
        ),
        (
            ("one", "two"),
            600,
            &[(
                1,
                &[159, 0, 0xb9, 0x02, 137, 0, 0, 0x4e, 0x20, 0, 0, 0xb9, 0x02],
            )],
            "rule 0 6 3 3 at 0 47362 of 20000 47362, 0 glyphs, Ok(()) 2",
        ),
    ];
    for (fonts, down, pieces, want) in cases {
        let text = told(rt.alloc(), fonts, down, 2, pieces)?;
        assert!(rt; text.as_str().ends_with(want), "{}", text);
    }
    Ok(())
}

/// Each fault, and where.
#[test]
fn faults_of_pages(rt: HostRuntime) -> Result<(), Fail> {
    let cases: [(&str, Pieces, &str); 10] = [
        (
            "self",
            &[(1, &[171, 65])],
            "Err(NestDeep(FontId(0), 65)) 18",
        ),
        (
            "nest1",
            &[(1, &[171, 65])],
            "Err(NestDeep(FontId(16), 65)) 18",
        ),
        (
            "pops",
            &[(1, &[171, 141, 65, 142])],
            "Err(StackUnder(Packet { font: FontId(0), code: 65, at: 0 })) 4",
        ),
        ("one", &[(1, &[142])], "Err(StackUnder(Page { at: 60 })) 1"),
        (
            "one",
            &[(1, &[141, 138])],
            "Err(StackLeft(Page { at: 62 })) 2",
        ),
        (
            "deep",
            &[(1, &[171]), (999, &[141]), (1, &[65]), (999, &[142])],
            "Err(StackDeep(Packet { font: FontId(0), code: 65, at: 1 })) 1003",
        ),
        (
            "one",
            &[(1, &[146, 127, 255, 255, 255, 171, 133, 65, 65])],
            "65 of 0 136023 0 at 2147483647 0 wide 327680 21, 65 of 0 136023 0 at 2147483647 0 wide 327680 21, 2 glyphs, Err(Overflow(Page { at: 68 })) 4",
        ),
        (
            "one",
            &[(1, &[160, 128, 0, 0, 1, 157, 255])],
            "Err(Overflow(Page { at: 65 })) 2",
        ),
        (
            "one",
            &[(1, &[137, 128, 0, 0, 0, 0, 0, 0, 1])],
            "Err(Overflow(Page { at: 60 })) 1",
        ),
        (
            "w1",
            &[(1, &[171, 65])],
            "0 glyphs, Err(TooManySteps) 50000000",
        ),
    ];
    for (font, pieces, want) in cases {
        let text = told(rt.alloc(), (font, "two"), 300, 2, pieces)?;
        assert!(rt; text.as_str().ends_with(want), "{}", text);
    }
    Ok(())
}

/// Characters of 5 points, and then a special: 62.3 pixels behind three of them, 830.2 behind forty. A move of a space or more takes
/// the exact pixel, and a shorter one doesn't.
#[test]
fn drifting_places(rt: HostRuntime) -> Result<(), Fail> {
    let cases: [(i64, Pieces, &str); 10] = [
        (
            0,
            &[(1, &[171]), (3, &[65]), (1, &[239, 0])],
            "special [] 62 0 at 983040 0, 3 glyphs, Ok(()) 5",
        ),
        (
            1,
            &[(1, &[171]), (3, &[65]), (1, &[239, 0])],
            "special [] 63 0 at 983040 0, 3 glyphs, Ok(()) 5",
        ),
        (
            1,
            &[(1, &[171]), (7, &[65]), (1, &[239, 0])],
            "special [] 146 0 at 2293760 0, 7 glyphs, Ok(()) 9",
        ),
        (
            2,
            &[(1, &[171]), (7, &[65]), (1, &[239, 0])],
            "special [] 147 0 at 2293760 0, 7 glyphs, Ok(()) 9",
        ),
        (
            0,
            &[(1, &[171]), (40, &[65]), (1, &[239, 0])],
            "special [] 830 0 at 13107200 0, 40 glyphs, Ok(()) 42",
        ),
        (
            2,
            &[(1, &[171]), (40, &[65]), (1, &[239, 0])],
            "special [] 832 0 at 13107200 0, 40 glyphs, Ok(()) 42",
        ),
        (
            2,
            &[(1, &[171]), (10, &[65]), (1, &[145, 1, 0xaa, 0xaa, 239, 0])],
            "special [] 214 0 at 3386026 0, 10 glyphs, Ok(()) 13",
        ),
        (
            2,
            &[(1, &[171]), (10, &[65]), (1, &[145, 1, 0xaa, 0xa9, 239, 0])],
            "special [] 216 0 at 3386025 0, 10 glyphs, Ok(()) 13",
        ),
        (
            2,
            &[
                (1, &[171]),
                (10, &[65]),
                (1, &[145, 0xf9, 0x55, 0x58, 239, 0]),
            ],
            "special [] 180 0 at 2839896 0, 10 glyphs, Ok(()) 13",
        ),
        (
            2,
            &[
                (1, &[171]),
                (10, &[65]),
                (1, &[145, 0xf9, 0x55, 0x59, 239, 0]),
            ],
            "special [] 182 0 at 2839897 0, 10 glyphs, Ok(()) 13",
        ),
    ];
    for (drift, pieces, want) in cases {
        let text = told(rt.alloc(), ("one", "two"), 300, drift, pieces)?;
        assert!(rt; text.as_str().ends_with(want), "{}", text);
    }
    Ok(())
}
