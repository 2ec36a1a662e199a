//! Pages whose fonts are loaded, from files that were put together here.

use crate::{FontFault, Fonts, LoadFault, Want};
use dv_base::{Conv, FontId, MemShelf, Units};
use dvi_doc::Doc;
use std::alloc::{AllocError, Global};
use std::test::Fail;

/// A preamble and a bop; the numbers of the preamble stand in post too.
const FRONT: [u8; 15] = [247, 2, 1, 131, 146, 192, 28, 59, 0, 0, 0, 0, 3, 232, 0];

const POST: [u8; 29] = [
    248, 0, 0, 0, 15, 1, 131, 146, 192, 28, 59, 0, 0, 0, 0, 3, 232, 0, 0, 0, 0, 0, 0, 0, 0, 0, 0,
    0, 1,
];

/// The checksum 0, and a size and a design size of 10 points.
const DEFINED: [u8; 13] = [0, 0, 0, 0, 0, 10, 0, 0, 0, 10, 0, 0, 0];

/// A TFM file with the codes 65 and 66.
const TFM: [u8; 60] = [
    0, 15, 0, 2, 0, 65, 0, 66, 0, 2, 0, 1, 0, 1, 0, 1, 0, 0, 0, 0, 0, 0, 0, 0, 0, 0, 0, 0, 0, 160,
    0, 0, 1, 0, 0, 0, 1, 0, 0, 0, 0, 0, 0, 0, 0, 8, 0, 0, 0, 0, 0, 0, 0, 0, 0, 0, 0, 0, 0, 0,
];

/// A PK file whose code 65 is 3 pixels wide and 5 high, and whose code 66 is 524,296 wide and 1 high.
const PK: [u8; 70] = [
    247, 89, 0, 0, 160, 0, 0, 0, 0, 0, 0, 0, 0, 0, 0, 0, 0, 0, 0, 224, 10, 65, 8, 0, 0, 21, 3, 5,
    0, 4, 171, 140, 7, 0, 0, 0, 28, 0, 0, 0, 66, 0, 0, 0, 0, 0, 0, 0, 0, 0, 0, 0, 0, 0, 8, 0, 8, 0,
    0, 0, 1, 0, 0, 0, 0, 0, 0, 0, 0, 245,
];

/// The same file up to the end of code 65.
const PK_OF_ONE: [u8; 33] = [
    247, 89, 0, 0, 160, 0, 0, 0, 0, 0, 0, 0, 0, 0, 0, 0, 0, 0, 0, 224, 10, 65, 8, 0, 0, 21, 3, 5,
    0, 4, 171, 140, 245,
];

/// A document of one page with these commands, and one font of 10 points, of number 0 and this name.
fn document(alloc: Global, name: &str, body: &[u8]) -> Result<Vec<u8>, AllocError> {
    let mut bytes = Vec::from_slice(alloc, &FRONT)?;
    bytes.push(139)?;
    bytes.extend_from_slice(&[0; 40])?;
    bytes.extend_from_slice(&[255; 4])?;
    bytes.extend_from_slice(body)?;
    bytes.push(140)?;
    let post = u32::try_from(bytes.len()).unwrap_or(0);
    bytes.extend_from_slice(&POST)?;
    bytes.extend_from_slice(&[243, 0])?;
    bytes.extend_from_slice(&DEFINED)?;
    bytes.push(u8::try_from(name.len()).unwrap_or(0))?;
    bytes.extend_from_slice(name.as_bytes())?;
    bytes.push(249)?;
    bytes.extend_from_slice(&post.to_be_bytes())?;
    bytes.extend_from_slice(&[2, 223, 223, 223, 223])?;
    Ok(bytes)
}

/// A VF file whose code 65 sets the code 65 of its local font, which has this name and its own size.
fn virtual_font(alloc: Global, local: &str, scale: u8) -> Result<Vec<u8>, AllocError> {
    let mut bytes = Vec::from_slice(alloc, &[247, 202, 0, 0, 0, 0, 0, 0, 160, 0, 0])?;
    bytes.extend_from_slice(&[243, 0, 0, 0, 0, 0, 0, scale, 0, 0, 0, 160, 0, 0, 0])?;
    bytes.push(u8::try_from(local.len()).unwrap_or(0))?;
    bytes.extend_from_slice(local.as_bytes())?;
    bytes.extend_from_slice(&[1, 65, 0, 0, 0, 65, 248])?;
    Ok(bytes)
}

/// What a fault says.
fn word(fault: &LoadFault) -> &'static str {
    match fault {
        LoadFault::UndefinedFont(_) => "UndefinedFont",
        LoadFault::NoFont(_) => "NoFont",
        LoadFault::NoChar(..) => "NoChar",
        LoadFault::NoPacket(..) => "NoPacket",
        LoadFault::NoGlyph(..) => "NoGlyph",
        LoadFault::GlyphTooBig(_, 66, 65_537) => "GlyphTooBig",
        LoadFault::GlyphTooBig(..) => "another size",
        LoadFault::Font(FontFault::TooManyFonts) => "TooManyFonts",
        LoadFault::Font(FontFault::Missing(_)) => "Missing",
        LoadFault::Font(FontFault::BadSize(_)) => "BadSize",
        LoadFault::Font(_) => "another fault",
    }
}

/// Whether the font 0 of a document is found to have this id, with a hint that is wrong and again with the one that is left.
fn is_found(fonts: &Fonts, doc: &Doc<'_>, id: Option<FontId>) -> bool {
    let Some(font) = doc.font(0) else {
        return false;
    };
    let font = doc.definition(font);
    let mut hint = FontId::new(7);
    fonts.id_of(&font, &mut hint) == id && hint == id && fonts.id_of(&font, &mut hint) == id
}

/// What loading the first page answers, and how many fonts are known then, the document's first.
fn loading(alloc: Global, shelf: &mut MemShelf, bytes: &[u8]) -> Option<(&'static str, u32)> {
    if bytes.len() > 100_000 {
        return None;
    }
    let Ok(doc) = Doc::read(alloc, bytes) else {
        return None;
    };
    let units = Units {
        num: 25_400_000,
        den: 473_628_672,
        mag: 1_000,
        dpi: 300,
    };
    let conv = Conv::new(&units)?;
    let mut fonts = Fonts::new(alloc, units, conv, Want::Rasters);
    if doc.pages().is_empty() {
        return None;
    }
    let word = match fonts.load_page(shelf, &doc, 0) {
        Ok(()) => "loaded",
        Err(fault) => word(&fault),
    };
    let count = fonts.count();
    let first = if count == 0 { None } else { FontId::new(0) };
    if !is_found(&fonts, &doc, first) {
        return None;
    }
    Some((word, count))
}

/// A shelf with the real fonts f and g, of which g has no bitmap of code 66, and the virtual fonts v, which sets code 65 of itself, and
/// b, whose local font has the size 0. All have the widths of codes 65 and 66.
fn small_shelf(alloc: Global) -> Result<MemShelf, AllocError> {
    let mut shelf = MemShelf::new(alloc);
    shelf.add("f.tfm", &TFM)?;
    shelf.add("f.300pk", &PK)?;
    shelf.add("g.tfm", &TFM)?;
    shelf.add("g.300pk", &PK_OF_ONE)?;
    shelf.add("v.tfm", &TFM)?;
    shelf.add("v.vf", &virtual_font(alloc, "v", 16)?)?;
    shelf.add("b.tfm", &TFM)?;
    shelf.add("b.vf", &virtual_font(alloc, "f", 0)?)?;
    Ok(shelf)
}

/// The font of a document, two commands of its page, what loading the page answers, and how many fonts are known then. The byte 171
/// selects the font, and 138 does nothing.
const PAGES: [(&str, [u8; 2], &str, u32); 10] = [
    ("f", [171, 65], "loaded", 1),
    ("f", [171, 138], "loaded", 1),
    ("f", [138, 65], "NoFont", 0),
    ("f", [172, 65], "UndefinedFont", 0),
    ("f", [171, 67], "NoChar", 1),
    ("f", [171, 66], "GlyphTooBig", 1),
    ("g", [171, 66], "NoGlyph", 1),
    ("v", [171, 65], "loaded", 1),
    ("v", [171, 66], "NoPacket", 1),
    ("b", [171, 65], "BadSize", 1),
];

#[test]
fn pages(rt: HostRuntime) -> Result<(), Fail> {
    let mut shelf = small_shelf(rt.alloc())?;
    for (name, body, word, known) in PAGES {
        let bytes = document(rt.alloc(), name, &body)?;
        let Some((found, count)) = loading(rt.alloc(), &mut shelf, &bytes) else {
            return Err("no document, or its font isn't found".into());
        };
        assert_eq!(rt; found, word, "{name} {body:?}");
        assert_eq!(rt; count, known, "{name} {body:?}");
    }
    Ok(())
}

/// A shelf with a chain of this many virtual fonts; the last one sets a character of itself.
fn chain(alloc: Global, many: u32) -> Result<MemShelf, AllocError> {
    let mut shelf = MemShelf::new(alloc);
    for place in 0..many {
        let next = if place + 1 < many { place + 1 } else { place };
        let local = format!(in alloc; "v{next}")?;
        let vf = virtual_font(alloc, &local, 16)?;
        let tfm_name = format!(in alloc; "v{place}.tfm")?;
        let vf_name = format!(in alloc; "v{place}.vf")?;
        shelf.add(&tfm_name, &TFM)?;
        shelf.add(&vf_name, &vf)?;
    }
    Ok(shelf)
}

/// How many virtual fonts are in the chain, what loading the page answers, and how many fonts are known then.
const CHAINS: [(u32, &str, u32); 3] = [
    (2, "loaded", 2),
    (1_000, "loaded", 1_000),
    (1_001, "TooManyFonts", 1_000),
];

#[test]
fn chains_of_virtual_fonts(rt: HostRuntime) -> Result<(), Fail> {
    for (many, word, known) in CHAINS {
        let mut shelf = chain(rt.alloc(), many)?;
        let bytes = document(rt.alloc(), "v0", &[171, 65])?;
        let Some((found, count)) = loading(rt.alloc(), &mut shelf, &bytes) else {
            return Err("no document".into());
        };
        assert_eq!(rt; found, word, "{many}");
        assert_eq!(rt; count, known, "{many}");
    }
    Ok(())
}
