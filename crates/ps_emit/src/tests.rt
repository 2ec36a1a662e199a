//! Texts, byte for byte, however the tray takes them. The font of the tests has a glyph for each code, 21 pixels wide: 4 columns and 2 rows, all black; but
//! that of 66 is blank, and that of 67 has 40 bytes.
ghost use Rattle.std.specs.Prelude.{◌≡◌, ◌<◌, length, IfOk, OnOk};
ghost use Rattle.dv_base.specs.MemTray.{seen_of};
ghost use Rattle.ps_emit.specs.Bounds.{IsNearPixel};
ghost use Rattle.ps_emit.specs.Shown.{fonts_of, out_of};

use super::{Emitter, Setup, WriteFault};
use dv_base::{Begun, Conv, FileName, FontId, MemShelf, MemTray, Tray, Units, font_name};
use dvi_doc::FontKey;
use font_set::{Fonts, Want};
use positions::{Canvas, GlyphMark, RuleMark, SpecialMark};
use ps_subset::PROLOG;
use sections::Usage;
use std::alloc::{AllocError, Global};
use std::test::Fail;

/// A call on an emitter, or on the usage by which its fonts are written.
#[derive(Clone, Copy)]
enum Step {
    /// Uses a code, and nothing that was used before.
    Only(u8),
    /// Uses a code more.
    Use(u8),
    Section,
    LoadFonts,
    Page,
    /// Sets a code at a pixel of the first row.
    Set(u8, i32),
    /// Sets a code at a pixel.
    SetAt(u8, i32, i32),
    /// Paints a rule at a pixel that has so many columns and rows beside the first.
    Rule(i32, i32, u8, u8),
    /// Gives a special that asks for a colour.
    Colour,
    EndPage,
    EndSection,
}

use Step::{Colour, EndPage, EndSection, LoadFonts, Only, Page, Rule, Section, Set, SetAt, Use};

/// The ways behind letters: a long one, one near it, none.
const WAYS: [Step; 5] = [Page, Set(65, 0), Set(65, 51), Set(65, 103), EndPage];

/// The same with the third letter in another row.
const ROWS: [Step; 5] = [Page, Set(65, 0), Set(65, 51), SetAt(65, 103, 5), EndPage];

/// Codes that a string spells otherwise, each where the one before it ends.
const CODES: [Step; 7] = [
    Page,
    Set(40, 0),
    Set(41, 21),
    Set(92, 42),
    Set(10, 63),
    Set(200, 84),
    EndPage,
];

/// A literal special, and a letter at the place where it stands.
const BLOCK: [Step; 4] = [Page, Colour, Set(65, 0), EndPage];

/// The ways before rules.
const RULES: [Step; 6] = [
    Page,
    Rule(0, 10, 1, 2),
    Rule(5, 10, 0, 0),
    Rule(7, -2, 3, 0),
    Rule(7, -2, 5, 0),
    EndPage,
];

/// Two sections, of which both use one code; then a blank glyph and one of 40 bytes.
const SECTIONS: [Step; 14] = [
    Only(65),
    Use(97),
    Section,
    LoadFonts,
    EndSection,
    Only(65),
    Use(68),
    Section,
    LoadFonts,
    EndSection,
    Only(66),
    Use(67),
    LoadFonts,
    EndSection,
];

const WAYS_TEXT: &str = "%%Page: 1 1\nbop\nF0 F\n(A)30 b\n(A)h\n(A)p\neop\n";

const ROWS_TEXT: &str = "%%Page: 1 1\nbop\nF0 F\n(A)30 b\n(A)103 5 y\n(A)p\neop\n";

const CODES_TEXT: &str = "%%Page: 1 1\nbop\nF0 F\n(\\(\\)\\\\\\012\\310)p\neop\n";

const BLOCK_TEXT: &str =
    "%%Page: 1 1\nbop\n%TeXblock: 17\n1 0 0 setrgbcolor\nF0 F\n0 0 a\n(A)p\neop\n";

const RULES_TEXT: &str = "%%Page: 1 1\nbop\n10 x\n2 3 v\n5 w\n1 1 v\n7 -2 a\n4 1 v\n6 1 v\neop\n";

const SECTIONS_TEXT: &str = "bos
/F0 FB
65[4 2 true[1 0 0 1 0 1]{<f0f0>}21 0 0 -1 4 1]D
97[4 2 true[1 0 0 1 0 1]{<f0f0>}21 0 0 -1 4 1]D
E
eos
bos
/F0 FB
65[4 2 true[1 0 0 1 0 1]{<f0f0>}21 0 0 -1 4 1]D
68[4 2 true[1 0 0 1 0 1]{<f0f0>}21 0 0 -1 4 1]D
E
eos
/F0 FB
66[1 1 true[1 0 0 1 0 0]{<00>}21 0 0 0 1 1]D
67[16 20 true[1 0 0 1 0 1]{<ffffffffffffffffffffffffffffffffffffffffffffffffffffffffffffffff
ffffffffffffffff>}21 0 0 -1 16 19]D
E
eos
";

/// Fifty letters, and the one behind them.
const FULL_TEXT: &str = "%%Page: 1 1
bop
F0 F
(AAAAAAAAAAAAAAAAAAAAAAAAAAAAAAAAAAAAAAAAAAAAAAAAAA)p
(A)p
eop
";

/// Eleven letters, and one a pixel before their end.
const DRIFTED_TEXT: &str = "%%Page: 1 1
bop
F0 F
(AAAAAAAAAAA)o
(A)p
eop
";

/// A page with one rule: what stands before the prolog, and what stands behind it.
const ONE: (&str, &str) = (
    "%!PS-Adobe-2.0
%%Creator: texdvi
%%Title: rule.dvi
%%Pages: 1
%%BoundingBox: 0 0 612 792
%%EndComments
%%BeginProlog
",
    "%%EndProlog
%%BeginSetup
/#copies 1 def
TeXDict begin
52099153 300 300 300 300 TS
%%EndSetup
bos
%%Page: 1 1
bop
1 w
3 1 v
eop
eos
%%Trailer
end
%%EOF
",
);

/// The same without comments and with a header, two resolutions and two copies.
const BARE: (&str, &str) = (
    "%!PS
",
    "%TeXblock: 3
}a%
/#copies 2 def
TeXDict begin
52099153 600 300 -5 7 TS
bos
bop
1 w
3 1 v
eop
eos
end
",
);

/// A glyph's packet: its code, columns and rows, and how many bytes of raster follow.
fn packet(code: u8, w: u8, h: u8, bytes: u8) -> [u8; 12]
    requires { bytes < 200 }
{
    [0xe0, 8 + bytes, code, 8, 0, 0, 0x15, w, h, 0, 1, 0xff]
}

/// The PK file.
fn pk(alloc: Global) -> Result<Vec<u8>, AllocError> {
    let mut file = Vec::from_slice(alloc, &[0xf7, 89, 0, 0, 0xa0, 0, 0])?;
    file.extend_from_slice(&[0; 12])?;
    for number in 0..256u32 {
        let code = number as u8;
        match code {
            66 => {
                let glyph = packet(66, 4, 2, 1);
                file.extend_from_slice(&glyph[..11])?;
                file.extend_from_slice(&[0])?;
            }
            67 => {
                file.extend_from_slice(&packet(67, 16, 20, 40))?;
                file.extend_from_slice(&[0xff; 39])?;
            }
            _ => file.extend_from_slice(&packet(code, 4, 2, 1))?,
        }
    }
    file.extend_from_slice(&[245])?;
    Ok(file)
}

/// The TFM file: each code is as wide as half of the size.
fn tfm(alloc: Global) -> Result<Vec<u8>, AllocError> {
    let mut file = Vec::from_slice(alloc, &[1, 13, 0, 2, 0, 0, 0, 255, 0, 2, 0, 1, 0, 1, 0, 1])?;
    file.extend_from_slice(&[0; 12])?;
    file.extend_from_slice(&[0, 0xa0, 0, 0])?;
    for _ in 0..256u32 {
        file.extend_from_slice(&[1, 0, 0, 0])?;
    }
    file.extend_from_slice(&[0, 0, 0, 0, 0, 8, 0, 0])?;
    file.extend_from_slice(&[0; 12])?;
    Ok(file)
}

/// The font, loaded.
fn fonts(alloc: Global) -> Result<Fonts, Fail> {
    let mut shelf = MemShelf::new(alloc);
    shelf.add("half.tfm", tfm(alloc)?.as_slice())?;
    shelf.add("half.300pk", pk(alloc)?.as_slice())?;
    let units = Units {
        num: 25_400_000,
        den: 473_628_672,
        mag: 1_000,
        dpi: 300,
    };
    let conv = Conv::new(&units).ok_or("units")?;
    let mut fonts = Fonts::new(alloc, units, conv, Want::Rasters);
    let key = FontKey {
        name: font_name(b"half").ok_or("a name")?,
        checksum: 0,
        size: 655_360,
        design: 655_360,
    };
    match fonts.know(&key) {
        Ok(id) => match fonts.load(&mut shelf, id) {
            Ok(()) => Ok(fonts),
            Err(_) => Err("a font".into()),
        },
        Err(_) => Err("a key".into()),
    }
}

/// Sets a code at a pixel, as wide as the font says.
fn set(
    emitter: &mut Emitter<'_, MemTray>,
    fonts: &Fonts,
    id: FontId,
    code: u8,
    at: (i64, i64),
) -> Result<(), WriteFault>
    requires begun { 0 < (out_of emitter.old).seen.begun }
    requires same { fonts_of emitter.old ≡ fonts.now }
    requires given { id < length fonts.now.fonts }
    requires at { IsNearPixel at }
    ensures begun { OnOk result (0 < (out_of emitter.new).seen.begun) }
    ensures same { OnOk result (fonts_of emitter.new ≡ fonts.now) }
{
    match (fonts.glyph(id, code), fonts.pixels(id, code)) {
        (Some(_), Some(pixels)) => emitter.glyph(&GlyphMark {
            font: id,
            code,
            x: at.0,
            y: at.1,
            h: 0,
            v: 0,
            width: 0,
            pixels,
        }),
        _ => Ok(()),
    }
}

/// Paints a rule at a pixel that has so many columns and rows beside the first.
fn rule(
    emitter: &mut Emitter<'_, MemTray>,
    at: (i64, i64),
    columns: u8,
    rows: u8,
) -> Result<(), WriteFault>
    requires begun { 0 < (out_of emitter.old).seen.begun }
    requires at { IsNearPixel at }
    ensures begun { OnOk result (0 < (out_of emitter.new).seen.begun) }
    ensures same { OnOk result (fonts_of emitter.new ≡ fonts_of emitter.old) }
{
    emitter.rule(&RuleMark {
        x: at.0,
        y: at.1,
        w: i64::from(columns) + 1,
        rows: i64::from(rows) + 1,
        h: 0,
        v: 0,
        a: 0,
        b: 0,
    })
}

/// Uses a code.
fn uses(usage: &mut Usage, id: FontId, code: u8)
    requires { id < usage.old.fonts }
    ensures { usage.new.fonts ≡ usage.old.fonts }
{
    let mark = GlyphMark {
        font: id,
        code,
        x: 0,
        y: 0,
        h: 0,
        v: 0,
        width: 0,
        pixels: 0,
    };
    match usage.glyph(&mark) {
        Ok(()) => {}
        Err(fault) => match fault {},
    }
}

/// Does one call.
fn call(
    emitter: &mut Emitter<'_, MemTray>,
    usage: &mut Usage,
    fonts: &Fonts,
    id: FontId,
    step: Step,
) -> Result<(), WriteFault>
    requires begun { 0 < (out_of emitter.old).seen.begun }
    requires same { fonts_of emitter.old ≡ fonts.now }
    requires used { usage.old.fonts ≡ length fonts.now.fonts }
    requires given { id < length fonts.now.fonts }
    ensures begun { OnOk result (0 < (out_of emitter.new).seen.begun) }
    ensures same { OnOk result (fonts_of emitter.new ≡ fonts.now) }
    ensures used { usage.new.fonts ≡ usage.old.fonts }
{
    match step {
        Only(code) => {
            usage.clear();
            uses(usage, id, code);
            Ok(())
        }
        Use(code) => {
            uses(usage, id, code);
            Ok(())
        }
        Section => emitter.begin_section(),
        LoadFonts => emitter.fonts(usage),
        Page => emitter.begin_page(1, 1),
        Set(code, x) => set(emitter, fonts, id, code, (x.into(), 0)),
        SetAt(code, x, y) => set(emitter, fonts, id, code, (x.into(), y.into())),
        Rule(x, y, w, rows) => rule(emitter, (x.into(), y.into()), w, rows),
        Colour => emitter.special(&SpecialMark {
            bytes: b"ps:1 0 0 setrgbcolor",
            x: 0,
            y: 0,
            h: 0,
            v: 0,
        }),
        EndPage => emitter.end_page(),
        EndSection => emitter.end_section(),
    }
}

/// Does calls one after another.
fn run(
    emitter: &mut Emitter<'_, MemTray>,
    usage: &mut Usage,
    fonts: &Fonts,
    id: FontId,
    steps: &[Step],
) -> Result<(), WriteFault>
    requires begun { 0 < (out_of emitter.old).seen.begun }
    requires same { fonts_of emitter.old ≡ fonts.now }
    requires used { usage.old.fonts ≡ length fonts.now.fonts }
    requires given { id < length fonts.now.fonts }
{
    for step in steps {
        call(emitter, usage, fonts, id, *step)?;
    }
    Ok(())
}

/// The setup of a job on letter paper.
fn setup(pages: u32, dpi: (u32, u32), origin: (i64, i64), copies: u32) -> Result<Setup, Fail> {
    Ok(Setup {
        title: FileName::new("rule.dvi").ok_or("a name")?,
        pages,
        paper: (40_258_437, 52_099_153),
        dpi,
        origin,
        copies,
    })
}

/// A tray of which each write takes at most `chunk` bytes, and the write `fails` takes none; its output has begun.
fn tray(alloc: Global, chunk: usize, fails: u32) -> Result<MemTray, Fail>
    ensures { IfOk result (λ tray. 0 < (seen_of tray).begun) }
{
    let mut tray = MemTray::new(alloc, 20_000, 0)?;
    tray.chunk(chunk.max(1));
    tray.fail_at(fails)?;
    match tray.begin(alloc, "rule.ps") {
        Begun::Ready => Ok(tray),
        _ => Err("an output".into()),
    }
}

/// What the tray has taken of these calls, and whether none failed.
fn written(
    alloc: Global,
    fonts: &Fonts,
    steps: &[Step],
    chunk: usize,
    fails: u32,
) -> Result<(bool, MemTray), Fail> {
    if fonts.count() == 0 {
        return Err("no font".into());
    }
    let id = FontId::new(0).ok_or("an id")?;
    let mut usage = Usage::new(alloc, fonts)?;
    let mut taken = tray(alloc, chunk, fails)?;
    let mut emitter = Emitter::new(&mut taken, fonts, true, true);
    let done = run(&mut emitter, &mut usage, fonts, id, steps).is_ok();
    Ok((done, taken))
}

/// Whether the calls write the text, where no write fails; and else a front of it, which is all only where none failed.
fn writes(
    alloc: Global,
    fonts: &Fonts,
    steps: &[Step],
    text: &str,
    chunk: usize,
    fails: u32,
) -> Result<bool, Fail> {
    let (done, taken) = written(alloc, fonts, steps, chunk, fails)?;
    let whole = taken.written().len() == text.len();
    Ok(text.as_bytes().starts_with(taken.written()) && done == whole && (whole || fails > 0))
}

/// Whether each page, and the sections, are written as they should be by a tray that takes so many bytes at a time.
fn all_are_written(alloc: Global, fonts: &Fonts, chunk: usize) -> Result<bool, Fail> {
    Ok(
        writes(alloc, fonts, &WAYS, WAYS_TEXT, chunk, 0)?
            && writes(alloc, fonts, &ROWS, ROWS_TEXT, chunk, 0)?
            && writes(alloc, fonts, &CODES, CODES_TEXT, chunk, 0)?
            && writes(alloc, fonts, &BLOCK, BLOCK_TEXT, chunk, 0)?
            && writes(alloc, fonts, &RULES, RULES_TEXT, chunk, 0)?
            && writes(alloc, fonts, &SECTIONS, SECTIONS_TEXT, chunk, 0)?,
    )
}

#[test]
fn pages(rt: HostRuntime) -> Result<(), Fail> {
    let alloc = rt.alloc();
    let fonts = fonts(alloc)?;
    for chunk in [1, 2, 3, 7, 4000] {
        assert!(rt; all_are_written(alloc, &fonts, chunk)?);
    }
    Ok(())
}

#[test]
fn fronts(rt: HostRuntime) -> Result<(), Fail> {
    let alloc = rt.alloc();
    let fonts = fonts(alloc)?;
    for fails in 1..90 {
        assert!(rt; writes(alloc, &fonts, &SECTIONS, SECTIONS_TEXT, 7, fails)?);
        assert!(rt; writes(alloc, &fonts, &WAYS, WAYS_TEXT, 2, fails)?);
    }
    Ok(())
}

/// A page of `count` letters, each where the one before it ends, and one more at a pixel.
fn long(alloc: Global, count: u8, last: i32) -> Result<Vec<Step>, AllocError> {
    let mut steps = Vec::new(alloc);
    steps.push(Page)?;
    for number in 0..count {
        steps.push(Set(65, 21 * i32::from(number)))?;
    }
    steps.push(Set(65, last))?;
    steps.push(EndPage)?;
    Ok(steps)
}

#[test]
fn strings(rt: HostRuntime) -> Result<(), Fail> {
    let alloc = rt.alloc();
    let fonts = fonts(alloc)?;
    let full = long(alloc, 50, 1_050)?;
    let drifted = long(alloc, 11, 230)?;
    assert!(rt; writes(alloc, &fonts, full.as_slice(), FULL_TEXT, 4000, 0)?);
    assert!(rt; writes(alloc, &fonts, drifted.as_slice(), DRIFTED_TEXT, 4000, 0)?);
    Ok(())
}

/// A whole text with a header, without comments and fonts.
fn write_whole(
    tray: &mut MemTray,
    fonts: &Fonts,
    comments: bool,
    setup: &Setup,
    headers: &[Vec<u8>],
) -> Result<u64, WriteFault>
    requires { 0 < (seen_of tray.old).begun }
{
    let mut emitter = Emitter::new(tray, fonts, comments, false);
    emitter.prologue(setup, headers)?;
    emitter.begin_section()?;
    emitter.begin_page(1, 1)?;
    emitter.special(&SpecialMark {
        bytes: b"ps: showpage",
        x: 9,
        y: 9,
        h: 0,
        v: 0,
    })?;
    rule(&mut emitter, (1, 0), 2, 0)?;
    emitter.end_page()?;
    emitter.end_section()?;
    emitter.trailer()?;
    Ok(emitter.bytes())
}

/// The whole text.
fn text(alloc: Global, parts: (&str, &str)) -> Result<Vec<u8>, Fail> {
    let mut bytes = Vec::from_slice(alloc, parts.0.as_bytes())?;
    bytes.extend_from_slice(PROLOG)?;
    bytes.extend_from_slice(parts.1.as_bytes())?;
    Ok(bytes)
}

/// How many glyphs a text puts.
fn glyphs(text: &[u8]) -> usize {
    let mut count = 0_usize;
    for at in 0..text.len() {
        if text[at..].starts_with(b"]D\n") {
            count = count.saturating_add(1);
        }
    }
    count
}

#[test]
fn all_codes(rt: HostRuntime) -> Result<(), Fail> {
    let alloc = rt.alloc();
    let fonts = fonts(alloc)?;
    let mut steps = Vec::new(alloc);
    for number in 0..256u32 {
        steps.push(Use(number as u8))?;
    }
    steps.push(LoadFonts)?;
    let (done, taken) = written(alloc, &fonts, steps.as_slice(), 4000, 0)?;
    assert!(rt; done);
    assert_eq!(rt; glyphs(taken.written()), 256);
    Ok(())
}

#[test]
fn whole(rt: HostRuntime) -> Result<(), Fail> {
    let alloc = rt.alloc();
    let fonts = fonts(alloc)?;
    let one = text(alloc, ONE)?;
    let bare = text(alloc, BARE)?;
    let mut headers = Vec::new(alloc);
    let first = setup(1, (300, 300), (300, 300), 1)?;
    let second = setup(2, (600, 300), (-5, 7), 2)?;
    let mut taken = tray(alloc, 4000, 0)?;
    assert_eq!(rt;
        write_whole(&mut taken, &fonts, true, &first, headers.as_slice()),
        Ok(one.len() as u64)
    );
    assert_eq!(rt; taken.written(), one.as_slice());
    headers.push(Vec::from_slice(alloc, b"}a%")?)?;
    let mut taken = tray(alloc, 100, 0)?;
    assert_eq!(rt;
        write_whole(&mut taken, &fonts, false, &second, headers.as_slice()),
        Ok(bare.len() as u64)
    );
    assert_eq!(rt; taken.written(), bare.as_slice());
    Ok(())
}
