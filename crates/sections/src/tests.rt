//! What pages of a font that was put together here use, and their sections.
ghost use Rattle.std.specs.Prelude.{◌≡◌, ◌<◌, length, IfOk, OnOk};
ghost use Rattle.font_set.specs.Key.{IsKey};
ghost use Rattle.font_set.specs.Views.{key_of};
ghost use Rattle.sections.specs.Cost.{IsPriced};
ghost use Rattle.sections.specs.Planned.{pages_given};

use crate::{PlanFault, Planner, Usage};
use dv_base::{Conv, FontId, MemShelf, Units, font_name};
use dvi_doc::FontKey;
use font_set::{Fonts, Want};
use positions::{Canvas, GlyphMark};
use std::alloc::Global;
use std::test::Fail;

/// A TFM file with the codes 65 to 68.
const TFM: [u8; 68] = [
    0, 17, 0, 2, 0, 65, 0, 68, 0, 2, 0, 1, 0, 1, 0, 1, 0, 0, 0, 0, 0, 0, 0, 0, 0, 0, 0, 0, 0, 0xa0,
    0, 0, 1, 0, 0, 0, 1, 0, 0, 0, 1, 0, 0, 0, 1, 0, 0, 0, 0, 0, 0, 0, 0, 8, 0, 0, 0, 0, 0, 0, 0, 0,
    0, 0, 0, 0, 0, 0,
];

/// A PK file whose codes 65 to 68 have bitmaps of two bytes, of which the last has no black pixel.
const PK: [u8; 72] = [
    0xf7, 89, 0, 0, 0xa0, 0, 0, 0, 0, 0, 0, 0, 0, 0, 0, 0, 0, 0, 0, 0xe0, 10, 65, 8, 0, 0, 0x15, 8,
    2, 0, 1, 255, 255, 0xe0, 10, 66, 8, 0, 0, 0x15, 8, 2, 0, 1, 0, 1, 0xe0, 10, 67, 8, 0, 0, 0x15,
    8, 2, 0, 1, 128, 0, 0xe0, 10, 68, 8, 0, 0, 0x15, 8, 2, 0, 1, 0, 0, 245,
];

/// The fonts with that one, and its number.
fn loaded(alloc: Global) -> Result<(Fonts, FontId), Fail>
    ensures { IfOk result (λ r. r.1 < length r.0.fonts) }
{
    let units = Units {
        num: 25_400_000,
        den: 473_628_672,
        mag: 1_000,
        dpi: 300,
    };
    let conv = Conv::new(&units).ok_or("units")?;
    let key = FontKey {
        name: font_name(b"base").ok_or("a name")?,
        checksum: 0,
        size: 655_360,
        design: 655_360,
    };
    let mut shelf = MemShelf::new(alloc);
    shelf.add("base.tfm", &TFM)?;
    shelf.add("base.300pk", &PK)?;
    let mut fonts = Fonts::new(alloc, units, conv, Want::Rasters);
    let id = fonts.know(&key).ok().ok_or("known")?;
    fonts.load(&mut shelf, id).ok().ok_or("loaded")?;
    Ok((fonts, id))
}

/// Clears a usage, and lets it take these characters.
fn take(usage: &mut Usage, fonts: &Fonts, id: FontId, codes: &str) -> Result<(), Fail>
    requires priced { IsPriced fonts.now usage.old }
    requires given { id < length fonts.now.fonts }
    ensures { OnOk result (IsPriced fonts.now usage.new) }
{
    usage.clear();
    for code in codes.as_bytes() {
        let mark = GlyphMark {
            font: id,
            code: *code,
            x: 0,
            y: 0,
            h: 0,
            v: 0,
            width: 0,
            pixels: 0,
        };
        usage.glyph(&mark).ok().ok_or("taken")?;
    }
    Ok(())
}

/// Plans pages of these characters; or tells of the page that can't be planned.
fn planned(
    alloc: Global,
    fonts: &Fonts,
    id: FontId,
    planner: Planner,
    pages: &str,
) -> Result<Result<Planner, String>, Fail>
    requires given { id < length fonts.now.fonts }
    requires same_fonts { IsPriced fonts.now planner.last }
    requires none { pages_given planner ≡ 0 }
    ensures { IfOk result (λ r. IfOk r (λ planner. IsPriced fonts.now planner.last)) }
{
    let mut planner = planner;
    let mut usage = Usage::new(alloc, fonts)?;
    let mut number = 0u32;
    for page in pages.split(' ') {
        number = number.checked_add(1).ok_or("too many")?;
        take(&mut usage, fonts, id, page)?;
        match planner.page(number, &usage, fonts) {
            Ok(()) => {}
            Err(PlanFault::PageTooBig { page, need, have }) => {
                let text = format!(in alloc; "page {page} needs {need} of {have}")?;
                return Ok(Err(text));
            }
            Err(PlanFault::OutOfMemory) => return Err("memory".into()),
        }
    }
    Ok(Ok(planner))
}

/// How many pages each section has, where the pages are of these characters.
fn plan(
    alloc: Global,
    fonts: &Fonts,
    id: FontId,
    planner: Planner,
    pages: &str,
) -> Result<String, Fail>
    requires given { id < length fonts.now.fonts }
    requires same_fonts { IsPriced fonts.now planner.last }
    requires none { pages_given planner ≡ 0 }
{
    match planned(alloc, fonts, id, planner, pages)? {
        Ok(planner) => Ok(format!(in alloc; "{:?}", planner.finish().as_slice())?),
        Err(text) => Ok(text),
    }
}

/// In each line the budget, how many pages a section may have (0: any number), the characters of the pages, and the answer.
const PLANS: &str = "2722/0/A/[1]
2721/0/A/page 1 needs 2722 of 2721
3045/0/AB AC/[1, 1]
3046/0/AB AC/[2]
3046/1/AB AC/[1, 1]
3046/2/A A A/[2, 1]
2883/0/A AB/page 2 needs 2884 of 2883
2721/0/D DD/[2]
2720/0/D/page 1 needs 2721 of 2720
3046/0/A AA B AB C AD/[5, 1]
2722/0/A B A/[1, 1, 1]
0/0/ /[2]";

#[test]
fn plans(rt: HostRuntime) -> Result<(), Fail> {
    let (fonts, id) = loaded(rt.alloc())?;
    for line in PLANS.lines() {
        let mut fields = line.splitn(4, '/');
        let budget: u32 = fields.next().ok_or("a budget")?.parse()?;
        let most = match fields.next().ok_or("a number of pages")? {
            "1" => Some(1),
            "2" => Some(2),
            _ => None,
        };
        let planner = Planner::new(rt.alloc(), &fonts, budget, most)?;
        let pages = fields.next().ok_or("pages")?;
        let answer = plan(rt.alloc(), &fonts, id, planner, pages)?;
        assert_eq!(rt;
            answer.as_str(),
            fields.next().ok_or("an answer")?,
            "{line}"
        );
    }
    Ok(())
}

/// Which of the codes 65 to 68 were taken.
fn has(usage: &Usage, id: FontId) -> [bool; 4]
    requires given { id < usage.now.fonts }
{
    [
        usage.has(id, 65),
        usage.has(id, 66),
        usage.has(id, 67),
        usage.has(id, 68),
    ]
}

/// In each line the budget, the characters of the pages, how many pages each section has, and which of the codes 65 to 68 the last one
/// uses.
const LASTS: &str = "3046/AB AC/[2] [true, true, true, false]
3045/AB AC/[1, 1] [true, false, true, false]
2722/A B B/[1, 2] [false, true, false, false]
2721/ D/[2] [false, false, false, true]";

/// How many pages each section has and what the last one uses, where the pages are of these characters.
fn last(
    alloc: Global,
    fonts: &Fonts,
    id: FontId,
    planner: Planner,
    pages: &str,
) -> Result<String, Fail>
    requires given { id < length fonts.now.fonts }
    requires same_fonts { IsPriced fonts.now planner.last }
    requires none { pages_given planner ≡ 0 }
{
    match planned(alloc, fonts, id, planner, pages)? {
        Ok(planner) => {
            let (plan, usage) = planner.into_parts();
            Ok(format!(in alloc; "{:?} {:?}", plan.as_slice(), has(&usage, id))?)
        }
        Err(text) => Ok(text),
    }
}

#[test]
fn lasts(rt: HostRuntime) -> Result<(), Fail> {
    let (fonts, id) = loaded(rt.alloc())?;
    for line in LASTS.lines() {
        let mut fields = line.splitn(3, '/');
        let budget: u32 = fields.next().ok_or("a budget")?.parse()?;
        let planner = Planner::new(rt.alloc(), &fonts, budget, None)?;
        let pages = fields.next().ok_or("pages")?;
        assert_eq!(rt;
            last(rt.alloc(), &fonts, id, planner, pages)?.as_str(),
            fields.next().ok_or("an answer")?,
            "{line}"
        );
    }
    Ok(())
}

/// What a usage tells that has taken these characters.
fn told(alloc: Global, fonts: &Fonts, id: FontId, codes: &str) -> Result<String, Fail>
    requires given { id < length fonts.now.fonts }
{
    let mut usage = Usage::new(alloc, fonts)?;
    take(&mut usage, fonts, id, codes)?;
    let cost = usage.cost(fonts);
    let uses = usage.uses(id);
    Ok(format!(in alloc; "{cost} {uses} {:?}", has(&usage, id))?)
}

/// In each line characters, what they cost, whether the font is used, and which of the codes 65 to 68 are.
const USES: &str = "/0 false [false, false, false, false]
AA/2722 true [true, false, false, false]
CAD/3045 true [true, false, true, true]
B/2722 true [false, true, false, false]";

#[test]
fn uses(rt: HostRuntime) -> Result<(), Fail> {
    let (fonts, id) = loaded(rt.alloc())?;
    for line in USES.lines() {
        let (codes, answer) = line.split_once('/').ok_or("characters")?;
        assert_eq!(rt;
            told(rt.alloc(), &fonts, id, codes)?.as_str(),
            answer,
            "{line}"
        );
    }
    Ok(())
}
