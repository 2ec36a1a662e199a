//! Which outcome tells of a fault. A fault names fonts by their numbers, an outcome by their names.
ghost use Rattle.vf_expand.specs.Given.{IsSpotGiven, NamesGiven};
ghost use Rattle.dv_top.specs.Given.{IsGiven, LoadNamesGiven};
ghost use Rattle.dv_top.specs.Tells.{FontTells, IsNameOf, LoadTells, SamePlace, WalkTells};

use crate::outcome::Outcome;
use dv_base::{FileName, FontId, Site, Spot};
use font_set::{FontFault, Fonts, LoadFault};
use positions::NoFault;
use vf_expand::WalkFault;

/// The name of a font.
fn name(fonts: &Fonts, id: FontId) -> FileName
    requires { IsGiven fonts.now id }
    ensures { IsNameOf fonts.now id result }
{
    fonts.key(id).name
}

/// The site of a spot.
fn site(fonts: &Fonts, spot: Spot) -> Site
    requires { IsSpotGiven fonts.now spot }
    ensures { SamePlace fonts.now spot result }
{
    match spot {
        Spot::Page { at } => Site::Page { at },
        Spot::Packet { font, code, at } => Site::Packet {
            font: name(fonts, font),
            code,
            at,
        },
    }
}

/// The outcome of a fault of a font's files, or of its key.
fn of_font(fault: FontFault) -> Outcome
    ensures { FontTells fault result }
{
    match fault {
        FontFault::Missing(name) => Outcome::Missing { name },
        FontFault::FileTooLong(name) => Outcome::FileTooLong { name },
        FontFault::ReadFault(name) => Outcome::ReadFault { name },
        FontFault::Tfm(name, kind) => Outcome::BadTfm { name, kind },
        FontFault::Pk(name, kind) => Outcome::BadPk { name, kind },
        FontFault::Vf(name, kind) => Outcome::BadVf { name, kind },
        FontFault::TooManyFonts => Outcome::TooManyFonts,
        FontFault::BadSize(parts) => Outcome::BadSize {
            font: parts.name,
            size: parts.size,
            design: parts.design,
        },
        FontFault::RasterSpace => Outcome::RasterSpace,
        FontFault::OutOfMemory => Outcome::OutOfMemory,
    }
}

/// The outcome of a fault met while the fonts of a page were loaded.
pub fn of_load(fonts: &Fonts, fault: LoadFault) -> Outcome
    requires { LoadNamesGiven fonts.now fault }
    ensures { LoadTells fonts.now fault result }
{
    match fault {
        LoadFault::UndefinedFont(spot) => Outcome::UndefinedFont {
            spot: site(fonts, spot),
        },
        LoadFault::NoFont(spot) => Outcome::NoFont {
            spot: site(fonts, spot),
        },
        LoadFault::NoChar(id, code) => Outcome::NoChar {
            font: name(fonts, id),
            code,
        },
        LoadFault::NoPacket(id, code) => Outcome::NoPacket {
            font: name(fonts, id),
            code,
        },
        LoadFault::NoGlyph(id, code) => Outcome::NoGlyph {
            font: name(fonts, id),
            code,
        },
        LoadFault::GlyphTooBig(id, code, bytes) => Outcome::GlyphTooBig {
            font: name(fonts, id),
            code,
            bytes,
        },
        LoadFault::Font(fault) => of_font(fault),
    }
}

/// The outcome of a fault met while a page was walked over.
pub fn of_walk(fonts: &Fonts, fault: WalkFault<NoFault>) -> Outcome
    requires { NamesGiven fonts.now fault }
    ensures { WalkTells fonts.now fault result }
{
    match fault {
        WalkFault::StackUnder(spot) => Outcome::StackUnder {
            spot: site(fonts, spot),
        },
        WalkFault::StackLeft(spot) => Outcome::StackLeft {
            spot: site(fonts, spot),
        },
        WalkFault::StackDeep(spot) => Outcome::StackDeep {
            spot: site(fonts, spot),
        },
        WalkFault::NestDeep(id, code) => Outcome::NestDeep {
            font: name(fonts, id),
            code,
        },
        WalkFault::TooManySteps => Outcome::TooManySteps,
        WalkFault::Overflow(spot) => Outcome::Overflow {
            spot: site(fonts, spot),
        },
        WalkFault::Canvas(fault) => match fault {},
    }
}
