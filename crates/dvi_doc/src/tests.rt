//! Documents that were written by hand from the DVI format, and faults.

ghost use Rattle.std.specs.Prelude.{◌≡◌, ◌≤◌, ◌^◌, length, IfOk};

use super::*;
use std::alloc::{AllocError, Global};
use std::test::Fail;

/// One page with one character of one font: 144 bytes.
const ONE: [u8; 144] = [
    247, 2, 1, 131, 146, 192, 28, 59, 0, 0, 0, 0, 3, 232, 0, 139, 0, 0, 0, 1, 0, 0, 0, 0, 0, 0, 0,
    0, 0, 0, 0, 0, 0, 0, 0, 0, 0, 0, 0, 0, 0, 0, 0, 0, 0, 0, 0, 0, 0, 0, 0, 0, 0, 0, 0, 0, 255,
    255, 255, 255, 243, 0, 0, 0, 0, 0, 0, 10, 0, 0, 0, 10, 0, 0, 0, 5, 99, 109, 114, 49, 48, 171,
    65, 140, 248, 0, 0, 0, 15, 1, 131, 146, 192, 28, 59, 0, 0, 0, 0, 3, 232, 0, 0, 0, 0, 0, 0, 0,
    0, 0, 0, 0, 1, 243, 0, 0, 0, 0, 0, 0, 10, 0, 0, 0, 10, 0, 0, 0, 5, 99, 109, 114, 49, 48, 249,
    0, 0, 0, 84, 2, 223, 223, 223, 223,
];

/// One page with three rules: 128 bytes.
const RULE: [u8; 128] = [
    247, 2, 1, 131, 146, 192, 28, 59, 0, 0, 0, 0, 3, 232, 0, 139, 0, 0, 0, 1, 0, 0, 0, 0, 0, 0, 0,
    0, 0, 0, 0, 0, 0, 0, 0, 0, 0, 0, 0, 0, 0, 0, 0, 0, 0, 0, 0, 0, 0, 0, 0, 0, 0, 0, 0, 0, 255,
    255, 255, 255, 132, 0, 0, 0, 0, 0, 0, 0, 100, 137, 0, 0, 0, 5, 255, 255, 255, 255, 132, 0, 0,
    20, 142, 0, 0, 185, 2, 140, 248, 0, 0, 0, 15, 1, 131, 146, 192, 28, 59, 0, 0, 0, 0, 3, 232, 0,
    0, 0, 0, 0, 0, 0, 0, 0, 0, 0, 1, 249, 0, 0, 0, 88, 2, 223, 223, 223, 223, 223,
];

/// No page and no font: 54 bytes.
const EMPTY: [u8; 54] = [
    247, 2, 1, 131, 146, 192, 28, 59, 0, 0, 0, 0, 3, 232, 0, 248, 255, 255, 255, 255, 1, 131, 146,
    192, 28, 59, 0, 0, 0, 0, 3, 232, 0, 0, 0, 0, 0, 0, 0, 0, 0, 0, 0, 0, 249, 0, 0, 0, 15, 2, 223,
    223, 223, 223,
];

/// Three pages with fillers between them, a special on the second, and two fonts; seven bytes 223.
const THREE: [u8; 285] = [
    247, 2, 1, 131, 146, 192, 28, 59, 0, 0, 0, 0, 3, 232, 0, 138, 243, 7, 0, 0, 0, 0, 0, 10, 0, 0,
    0, 10, 0, 0, 0, 4, 99, 109, 98, 120, 139, 0, 0, 0, 1, 0, 0, 0, 0, 0, 0, 0, 0, 0, 0, 0, 0, 0, 0,
    0, 0, 0, 0, 0, 0, 0, 0, 0, 0, 0, 0, 0, 0, 0, 0, 0, 0, 0, 0, 0, 0, 255, 255, 255, 255, 141, 142,
    140, 138, 243, 0, 0, 0, 0, 0, 0, 10, 0, 0, 0, 10, 0, 0, 0, 5, 99, 109, 114, 49, 48, 139, 255,
    255, 255, 254, 0, 0, 0, 0, 0, 0, 0, 0, 0, 0, 0, 0, 0, 0, 0, 0, 0, 0, 0, 0, 0, 0, 0, 0, 0, 0, 0,
    0, 0, 0, 0, 0, 0, 0, 0, 0, 0, 0, 0, 36, 239, 1, 65, 140, 139, 0, 0, 0, 3, 0, 0, 0, 0, 0, 0, 0,
    0, 0, 0, 0, 0, 0, 0, 0, 0, 0, 0, 0, 0, 0, 0, 0, 0, 0, 0, 0, 0, 0, 0, 0, 0, 0, 0, 0, 0, 0, 0, 0,
    106, 140, 248, 0, 0, 0, 155, 1, 131, 146, 192, 28, 59, 0, 0, 0, 0, 3, 232, 0, 0, 0, 0, 0, 0, 0,
    0, 0, 0, 0, 3, 243, 7, 0, 0, 0, 0, 0, 10, 0, 0, 0, 10, 0, 0, 0, 4, 99, 109, 98, 120, 138, 243,
    0, 0, 0, 0, 0, 0, 10, 0, 0, 0, 10, 0, 0, 0, 5, 99, 109, 114, 49, 48, 249, 0, 0, 0, 201, 2, 223,
    223, 223, 223, 223, 223, 223,
];

/// No page, and one font that is defined twice.
const TWICE: [u8; 96] = [
    247, 2, 1, 131, 146, 192, 28, 59, 0, 0, 0, 0, 3, 232, 0, 248, 255, 255, 255, 255, 1, 131, 146,
    192, 28, 59, 0, 0, 0, 0, 3, 232, 0, 0, 0, 0, 0, 0, 0, 0, 0, 0, 0, 0, 243, 0, 0, 0, 0, 0, 0, 10,
    0, 0, 0, 10, 0, 0, 0, 5, 99, 109, 114, 49, 48, 243, 0, 0, 0, 0, 0, 0, 10, 0, 0, 0, 10, 0, 0, 0,
    5, 99, 109, 114, 49, 48, 249, 0, 0, 0, 15, 2, 223, 223, 223, 223,
];

/// No page, and a post_post before the trailer's.
const EARLY: [u8; 60] = [
    247, 2, 1, 131, 146, 192, 28, 59, 0, 0, 0, 0, 3, 232, 0, 248, 255, 255, 255, 255, 1, 131, 146,
    192, 28, 59, 0, 0, 0, 0, 3, 232, 0, 0, 0, 0, 0, 0, 0, 0, 0, 0, 0, 0, 249, 0, 0, 0, 15, 2, 249,
    0, 0, 0, 15, 2, 223, 223, 223, 223,
];

/// What reading answers, as a text: the places of the pages, or the fault.
fn shown(alloc: Global, bytes: &[u8]) -> Result<String, Fail>
    requires { length bytes.now ≤ 2 ^ 26 }
{
    match Doc::read(alloc, bytes) {
        Ok(doc) => {
            let mut text = format!(in alloc; "fonts")?;
            for font in doc.fonts() {
                text.push_str(&format!(in alloc; " {}", doc.definition(font).k)?)?;
            }
            text.push_str(":")?;
            for page in doc.pages() {
                text.push_str(&format!(in alloc; " {} {} {}", page.at, page.first, page.eop)?)?;
            }
            Ok(text)
        }
        Err(fault) => Ok(format!(in alloc; "{fault:?}")?),
    }
}

#[test]
fn whole_documents(rt: HostRuntime) -> Result<(), Fail> {
    let cases: [(&[u8], &str); 6] = [
        (&ONE, "fonts 0: 15 60 83"),
        (&RULE, "fonts: 15 60 87"),
        (&EMPTY, "fonts:"),
        (&THREE, "fonts 7 0: 36 81 83 106 151 154 155 200 200"),
        (&TWICE, "FontTwice { k: 0 }"),
        (&EARLY, "BadOrder { at: 44 }"),
    ];
    for (bytes, want) in cases {
        assert!(rt; bytes.len() <= 67_108_864);
        assert_eq!(rt; shown(rt.alloc(), bytes)?.as_str(), want);
    }
    for length in 0..144 {
        assert!(rt; Doc::read(rt.alloc(), &ONE[..length]).is_err());
    }
    Ok(())
}

/// A copy of a document with two of its bytes changed.
fn changed(
    alloc: Global,
    bytes: &[u8],
    first: (usize, u8),
    second: (usize, u8),
) -> Result<Vec<u8>, AllocError>
    ensures { IfOk result (λ copy. length copy.items ≡ length bytes.now) }
{
    let mut copy = bytes.to_vec(alloc)?;
    if first.0 < copy.len() {
        copy[first.0] = first.1;
    }
    if second.0 < copy.len() {
        copy[second.0] = second.1;
    }
    Ok(copy)
}

#[test]
fn faults_of_the_rules(rt: HostRuntime) -> Result<(), Fail> {
    // the byte at a place is changed, and reading answers this
    let cases = [
        (92, 14, "BadBackPointer { at: 88 }"),
        (116, 2, "PageCount { found: 1, told: 2 }"),
        (60, 250, "Undefined { at: 60 }"),
        (121, 87, "BadPostPointer { at: 117 }"),
        (1, 3, "BadId { at: 1 }"),
        (122, 3, "BadId { at: 122 }"),
        (0, 138, "NoPreamble"),
        (124, 0, "NoTrailer"),
        (117, 138, "NoTrailer"),
        (87, 138, "BadOrder { at: 88 }"),
    ];
    for (at, byte, want) in cases {
        let copy = changed(rt.alloc(), &RULE, (at, byte), (at, byte))?;
        assert_eq!(rt; shown(rt.alloc(), &copy)?.as_str(), want);
    }
    Ok(())
}

#[test]
fn faults_of_the_character(rt: HostRuntime) -> Result<(), Fail> {
    // the bytes at two places are changed, and reading answers this
    let cases = [
        ((82, 239), (82, 239), "Short { at: 82 }"),
        ((82, 239), (83, 52), "BadOrder { at: 134 }"),
        ((65, 1), (65, 1), "FontDiffers { k: 0 }"),
        ((74, 1), (75, 4), "FontDiffers { k: 0 }"),
        ((76, 47), (129, 47), "BadName { k: 0 }"),
        ((66, 8), (119, 8), "BadSize { k: 0 }"),
        ((66, 255), (119, 255), "BadSize { k: 0 }"),
        ((100, 233), (100, 233), "PostDiffers"),
    ];
    for (first, second, want) in cases {
        let copy = changed(rt.alloc(), &ONE, first, second)?;
        assert_eq!(rt; shown(rt.alloc(), &copy)?.as_str(), want);
    }
    // the second and the third bop name another bop than the last before them
    let copy = changed(rt.alloc(), &THREE, (199, 36), (199, 36))?;
    assert_eq!(rt;
        shown(rt.alloc(), &copy)?.as_str(),
        "BadBackPointer { at: 155 }"
    );
    Ok(())
}

#[test]
fn parts_of_a_document(rt: HostRuntime) -> Result<(), Fail> {
    one_document();
    let doc = Doc::read(rt.alloc(), &ONE)?;
    assert_eq!(rt;
        (doc.head().num, doc.head().den, doc.head().mag),
        (25_400_000, 473_628_672, 1000)
    );
    assert_eq!(rt; (doc.tail().back, doc.tail().pages), (15, 1));
    let pages = doc.pages();
    assert_eq!(rt; pages.len(), 1);
    assert_eq!(rt; pages[0].counts, [1, 0, 0, 0, 0, 0, 0, 0, 0, 0]);
    assert_eq!(rt; doc.body(0), &ONE[60..83]);
    assert!(rt; doc.font(1).is_none());
    let Some(font) = doc.font(0) else {
        return Err("font 0".into());
    };
    let def = doc.definition(font);
    let key = FontKey::of(&def);
    assert_eq!(rt; key.name.as_str(), "cmr10");
    assert_eq!(rt;
        (def.k, key.checksum, key.size, key.design),
        (0, 0, 655_360, 655_360)
    );
    Ok(())
}

#[test]
fn faults_in_words(rt: HostRuntime) -> Result<(), Fail> {
    let names: [(DocFault, &str); 15] = [
        (DocFault::NoPreamble, "NoPreamble"),
        (DocFault::BadId { at: 1 }, "BadId"),
        (DocFault::NoTrailer, "NoTrailer"),
        (DocFault::BadPostPointer { at: 1 }, "BadPostPointer"),
        (DocFault::BadBackPointer { at: 1 }, "BadBackPointer"),
        (DocFault::BadOrder { at: 1 }, "BadOrder"),
        (DocFault::Undefined { at: 1 }, "Undefined"),
        (DocFault::Short { at: 1 }, "Short"),
        (DocFault::FontTwice { k: 1 }, "FontTwice"),
        (DocFault::FontDiffers { k: 1 }, "FontDiffers"),
        (DocFault::BadName { k: 1 }, "BadName"),
        (DocFault::BadSize { k: 1 }, "BadSize"),
        (DocFault::PageCount { found: 1, told: 2 }, "PageCount"),
        (DocFault::PostDiffers, "PostDiffers"),
        (DocFault::OutOfMemory, "OutOfMemory"),
    ];
    for (fault, name) in names {
        assert_eq!(rt; format!(in rt.alloc(); "{fault}")?.as_str(), name);
    }
    Ok(())
}
