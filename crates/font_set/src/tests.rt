//! Fonts from files that were put together here.

ghost use Rattle.std.specs.Prelude.{◌≡◌, [], IfSome};
ghost use Rattle.font_set.specs.Key.{IsKey, IsUnits};
ghost use Rattle.font_set.specs.Views.{key_of};

use crate::{FontFault, Fonts, Kind, Want};
use dv_base::{Conv, FileName, MemShelf, Units, font_name};
use dvi_doc::FontKey;
use std::alloc::{AllocError, Global};
use std::test::Fail;

/// A TFM file with the code 65 alone, which has the fix_word 524288, but for its checksum.
const TFM_LENGTHS: [u8; 24] = [
    0, 14, 0, 2, 0, 65, 0, 65, 0, 2, 0, 1, 0, 1, 0, 1, 0, 0, 0, 0, 0, 0, 0, 0,
];

const TFM_REST: [u8; 28] = [
    0, 0xa0, 0, 0, 1, 0, 0, 0, 0, 0, 0, 0, 0, 8, 0, 0, 0, 0, 0, 0, 0, 0, 0, 0, 0, 0, 0, 0,
];

/// A PK file whose code 65 is 3 pixels wide and 5 high.
const PK_HEAD: [u8; 7] = [0xf7, 89, 0, 0, 0xa0, 0, 0];

const PK_REST: [u8; 22] = [
    0, 0, 0, 0, 0, 0, 0, 0, 0xe0, 10, 65, 8, 0, 0, 0x15, 3, 5, 0, 4, 0xab, 0x8c, 245,
];

/// A VF file with one local font, of 943718 / 2^20 of its size and 10 points, with a name of four bytes, and one packet, of code 65, which sets code 65 in it.
const VF_LOCAL: [u8; 10] = [0, 0x0e, 0x66, 0x66, 0, 0xa0, 0, 0, 0, 4];

const VF_REST: [u8; 7] = [1, 65, 0, 0, 0, 65, 248];

fn tfm(alloc: Global, checksum: u8) -> Result<Vec<u8>, AllocError> {
    let mut bytes = Vec::from_slice(alloc, &TFM_LENGTHS)?;
    bytes.extend_from_slice(&[0, 0, 0, checksum])?;
    bytes.extend_from_slice(&TFM_REST)?;
    Ok(bytes)
}

fn pk(alloc: Global, checksum: u8) -> Result<Vec<u8>, AllocError> {
    let mut bytes = Vec::from_slice(alloc, &PK_HEAD)?;
    bytes.extend_from_slice(&[0, 0, 0, checksum])?;
    bytes.extend_from_slice(&PK_REST)?;
    Ok(bytes)
}

fn vf(alloc: Global, checksum: u8, local: &[u8; 4]) -> Result<Vec<u8>, AllocError> {
    let mut bytes = Vec::from_slice(alloc, &[0xf7, 202, 0, 0, 0, 0, checksum, 0, 0xa0, 0, 0])?;
    bytes.extend_from_slice(&[243, 0, 0, 0, 0, 0])?;
    bytes.extend_from_slice(&VF_LOCAL)?;
    bytes.extend_from_slice(local)?;
    bytes.extend_from_slice(&VF_REST)?;
    Ok(bytes)
}

fn fonts(alloc: Global, dpi: i64, want: Want) -> Option<Fonts>
    ensures { IfSome result (λ fonts. fonts.fonts ≡ []) }
{
    if dpi > 10_000 {
        return None;
    }
    let units = Units {
        num: 25_400_000,
        den: 473_628_672,
        mag: 1_000,
        dpi,
    };
    let conv = Conv::new(&units)?;
    Some(Fonts::new(alloc, units, conv, want))
}

fn key(name: &str, checksum: u32, size: u32) -> Option<FontKey>
    requires { IsUnits size }
    ensures { IfSome result (λ key. IsKey (key_of key)) }
{
    Some(FontKey {
        name: font_name(name.as_bytes())?,
        checksum,
        size,
        design: 655_360,
    })
}

/// What loading a font answers: the font's kind or its fault, the file that the fault names, and whether checksums differ.
#[derive(Drop)]
struct Answer {
    word: &'static str,
    name: Option<FileName>,
    differs: bool,
}

impl Answer {
    /// Whether the fault names this file; none has no name.
    fn has_name(&self, name: &str) -> bool {
        match &self.name {
            Some(found) => found.as_str() == name,
            None => name.is_empty(),
        }
    }
}

/// What a fault says, and the name that it has.
fn told(fault: FontFault) -> Answer {
    let (word, name) = match fault {
        FontFault::Missing(name) => ("Missing", Some(name)),
        FontFault::FileTooLong(name) => ("FileTooLong", Some(name)),
        FontFault::ReadFault(name) => ("ReadFault", Some(name)),
        FontFault::Tfm(name, _) => ("Tfm", Some(name)),
        FontFault::Pk(name, _) => ("Pk", Some(name)),
        FontFault::Vf(name, _) => ("Vf", Some(name)),
        FontFault::TooManyFonts => ("TooManyFonts", None),
        FontFault::BadSize(_) => ("BadSize", None),
        FontFault::RasterSpace => ("RasterSpace", None),
        FontFault::OutOfMemory => ("OutOfMemory", None),
    };
    Answer {
        word,
        name,
        differs: false,
    }
}

/// The kind of a font in which code 65 is half as wide as the size.
fn word(kind: Kind, width: Option<i64>) -> &'static str {
    if width != Some(327_680) {
        return "another width";
    }
    match kind {
        Kind::Known => "Known",
        Kind::Real => "Real",
        Kind::Virtual => "Virtual",
    }
}

/// Puts a file on the shelf that fits the ending of its name.
fn put(
    alloc: Global,
    shelf: &mut MemShelf,
    name: &str,
    checksum: u8,
    local: &[u8; 4],
) -> Result<(), AllocError> {
    let bytes = if name.ends_with(".vf") {
        vf(alloc, checksum, local)?
    } else if name.ends_with(".tfm") {
        tfm(alloc, checksum)?
    } else {
        pk(alloc, checksum)?
    };
    shelf.add(name, &bytes)
}

/// Loads the font `base` at 10 points.
fn load(
    alloc: Global,
    shelf: &mut MemShelf,
    dpi: i64,
    want: Want,
    checksum: u32,
) -> Option<Answer> {
    let mut fonts = fonts(alloc, dpi, want)?;
    let key = key("base", checksum, 655_360)?;
    let Ok(id) = fonts.know(&key) else {
        return None;
    };
    match fonts.load(shelf, id) {
        Ok(()) => Some(Answer {
            word: word(fonts.kind(id), fonts.width(id, 65)),
            name: None,
            differs: fonts.mismatch(id),
        }),
        Err(fault) => Some(told(fault)),
    }
}

/// The files of a shelf, the call that fails (0: none does), the resolution and what is wanted, and the answer.
type Load = (
    [&'static str; 2],
    u32,
    i64,
    Want,
    &'static str,
    &'static str,
);

const ABOVE: [&str; 2] = ["base.tfm", "base.301pk"];

const BOTH: [&str; 2] = ["base.vf", "base.tfm"];

const WIDTHS_ALONE: [&str; 2] = ["base.tfm", "base.tfm"];

const PACKETS_ALONE: [&str; 2] = ["base.vf", "base.vf"];

const LOADS: [Load; 15] = [
    (ABOVE, 0, 300, Want::Rasters, "Real", ""),
    (ABOVE, 1, 300, Want::Rasters, "ReadFault", "base.vf"),
    (ABOVE, 2, 300, Want::Rasters, "ReadFault", "base.tfm"),
    (ABOVE, 3, 300, Want::Rasters, "ReadFault", "base.300pk"),
    (ABOVE, 4, 300, Want::Rasters, "ReadFault", "base.299pk"),
    (ABOVE, 5, 300, Want::Rasters, "ReadFault", "base.301pk"),
    (WIDTHS_ALONE, 0, 300, Want::Rasters, "Missing", "base.301pk"),
    (BOTH, 3, 300, Want::Rasters, "Virtual", ""),
    (WIDTHS_ALONE, 3, 300, Want::Packets, "Real", ""),
    (PACKETS_ALONE, 0, 300, Want::Packets, "Missing", "base.tfm"),
    (BOTH, 2, 300, Want::Widths, "Real", ""),
    (PACKETS_ALONE, 0, 300, Want::Widths, "Missing", "base.tfm"),
    (WIDTHS_ALONE, 3, 1, Want::Rasters, "ReadFault", "base.1pk"),
    (WIDTHS_ALONE, 4, 1, Want::Rasters, "ReadFault", "base.2pk"),
    (WIDTHS_ALONE, 5, 1, Want::Rasters, "Missing", "base.2pk"),
];

/// A shelf with two files, one call of which fails.
fn shelf_of(alloc: Global, files: [&'static str; 2], call: u32) -> Result<MemShelf, AllocError> {
    let mut shelf = MemShelf::new(alloc);
    put(alloc, &mut shelf, files[0], 0, b"next")?;
    put(alloc, &mut shelf, files[1], 0, b"next")?;
    shelf.fail_at(call)?;
    Ok(shelf)
}

#[test]
fn loads(rt: HostRuntime) -> Result<(), Fail> {
    for (files, call, dpi, want, word, name) in LOADS {
        let mut shelf = shelf_of(rt.alloc(), files, call)?;
        let Some(answer) = load(rt.alloc(), &mut shelf, dpi, want, 0) else {
            return Err("no answer".into());
        };
        assert_eq!(rt; answer.word, word, "{name} {call}");
        assert!(rt; answer.has_name(name), "{name} {call}");
    }
    Ok(())
}

/// Checksums of the key, of the TFM file and of the PK or VF file, and whether they differ.
const CHECKSUMS: [(u32, u8, u8, bool); 6] = [
    (0, 0, 0, false),
    (7, 7, 7, false),
    (7, 0, 8, false),
    (0, 7, 0, false),
    (7, 8, 0, true),
    (0, 7, 8, true),
];

/// Whether checksums differ, where this file is there beside the TFM file.
fn differ(alloc: Global, sums: (u32, u8, u8), name: &str) -> Result<Option<bool>, AllocError> {
    let (key, tfm, other) = sums;
    let mut shelf = MemShelf::new(alloc);
    put(alloc, &mut shelf, "base.tfm", tfm, b"next")?;
    put(alloc, &mut shelf, name, other, b"next")?;
    match load(alloc, &mut shelf, 300, Want::Rasters, key) {
        Some(answer) => Ok(Some(answer.differs)),
        None => Ok(None),
    }
}

#[test]
fn mismatches(rt: HostRuntime) -> Result<(), Fail> {
    for (key, tfm, other, expected) in CHECKSUMS {
        let sums = (key, tfm, other);
        assert!(rt;
            differ(rt.alloc(), sums, "base.300pk")? == Some(expected),
            "{key} {tfm} {other}"
        );
        assert!(rt;
            differ(rt.alloc(), sums, "base.vf")? == Some(expected),
            "{key} {tfm} {other}"
        );
    }
    Ok(())
}

/// Loads a font, and gives the key of its local font.
fn local_of(fonts: &mut Fonts, shelf: &mut MemShelf, key: &FontKey) -> Option<FontKey>
    requires key { IsKey (key_of key.now) }
    ensures { IfSome result (λ key. IsKey (key_of key)) }
{
    let Ok(id) = fonts.know(key) else {
        return None;
    };
    if fonts.load(shelf, id).is_err() {
        return None;
    }
    match fonts.key_of_local(id, 0) {
        Ok(local) => local,
        Err(_) => None,
    }
}

/// Each local font has 943718 / 2^20 of the size of its font, and the bitmaps are asked for at its own resolution first.
#[test]
fn sizes_of_local_fonts(rt: HostRuntime) -> Result<(), Fail> {
    let mut shelf = MemShelf::new(rt.alloc());
    put(rt.alloc(), &mut shelf, "top.vf", 0, b"next")?;
    put(rt.alloc(), &mut shelf, "top.tfm", 0, b"next")?;
    put(rt.alloc(), &mut shelf, "next.vf", 0, b"base")?;
    put(rt.alloc(), &mut shelf, "next.tfm", 0, b"base")?;
    put(rt.alloc(), &mut shelf, "base.tfm", 0, b"base")?;
    shelf.fail_at(7)?;
    let mut fonts = fonts(rt.alloc(), 300, Want::Rasters).ok_or("units")?;
    let top = key("top", 0, 655_360).ok_or("a key")?;
    let next = local_of(&mut fonts, &mut shelf, &top).ok_or("the next font")?;
    let base = local_of(&mut fonts, &mut shelf, &next).ok_or("the base font")?;
    assert_eq!(rt; next.size, 589_823);
    assert_eq!(rt; base.size, 530_840);
    let Ok(id) = fonts.know(&base) else {
        return Err("not known".into());
    };
    match fonts.load(&mut shelf, id) {
        Ok(()) => Err("no fault".into()),
        Err(fault) => {
            assert!(rt; told(fault).has_name("base.243pk"));
            Ok(())
        }
    }
}

#[test]
fn numbers(rt: HostRuntime) -> Result<(), Fail> {
    let mut fonts = fonts(rt.alloc(), 300, Want::Widths).ok_or("units")?;
    for number in 0..1_000u32 {
        let known = fonts.know(&key("base", 0, number + 1).ok_or("a key")?);
        assert!(rt; known.is_ok_and(|id| id.number() == number), "{number}");
    }
    let one_more = fonts.know(&key("base", 0, 1_001).ok_or("a key")?);
    assert!(rt; matches!(one_more, Err(FontFault::TooManyFonts)));
    let again = fonts.know(&key("base", 0, 3).ok_or("a key")?);
    assert!(rt; again.is_ok_and(|id| id.number() == 2));
    assert_eq!(rt; fonts.count(), 1_000);
    Ok(())
}
