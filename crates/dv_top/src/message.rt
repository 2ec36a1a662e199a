//! What a run says of its outcome.
ghost use Rattle.std.specs.Prelude.{◌≡◌, ◌≤◌, ◌+◌, ◌++◌, ◌∷◌, [], length, Some, None, IfSome, IfNone, MatchOption, codes, decimal};
ghost use Rattle.std.specs.Option.{option_map};
ghost use Rattle.std.specs.Fmt.{signed_decimal};
ghost use Rattle.dv_base.specs.FileName.{text_of};
ghost use Rattle.dv_top.specs.Message.{fault_text, message_of, named as named_with, outcome_text, pk_text, site_text, tfm_text, units_text, vf_text};
ghost use Rattle.dv_top.specs.Groups.{group_of};
ghost use Rattle.dv_top.specs.declared.message.Group.TheVariants.{OfFile, OfFont, OfOther, OfPlace};
ghost use Rattle.dv_top.specs.Lines.{SaysLine};

use crate::outcome::Outcome;
use dv_base::{FileName, Line, Site, Tray, Units};
use dvi_doc::DocFault;
use itoa::Integer;
use pk_raster::PkFault;
use tfm_widths::TfmFault;
use vf_packets::VfFault;

/// Appends a name with a number behind it.
fn named<I: Integer>(line: &mut Line, name: &[u8], number: I)
    requires { length line.old + length name.now + 41 ≤ 1024 }
    ensures value { line.new ≡ line.old ++ (name.now ++ 32 ∷ I.text number) }
    ensures len { length line.new ≤ length line.old + length name.now + 41 }
{
    line.text(name);
    line.text(b" ");
    line.number(number);
}

/// Appends the words of a fault.
fn fault(line: &mut Line, kind: DocFault)
    requires { length line.old ≤ 100 }
    ensures { line.new ≡ line.old ++ fault_text kind }
{
    match kind {
        DocFault::NoPreamble => line.text(b"NoPreamble"),
        DocFault::BadId { at } => named(line, b"BadId", at),
        DocFault::NoTrailer => line.text(b"NoTrailer"),
        DocFault::BadPostPointer { at } => named(line, b"BadPostPointer", at),
        DocFault::BadBackPointer { at } => named(line, b"BadBackPointer", at),
        DocFault::BadOrder { at } => named(line, b"BadOrder", at),
        DocFault::Undefined { at } => named(line, b"Undefined", at),
        DocFault::Short { at } => named(line, b"Short", at),
        DocFault::FontTwice { k } => named(line, b"FontTwice", k),
        DocFault::FontDiffers { k } => named(line, b"FontDiffers", k),
        DocFault::BadName { k } => named(line, b"BadName", k),
        DocFault::BadSize { k } => named(line, b"BadSize", k),
        DocFault::PageCount { found, told } => {
            line.text(b"PageCount ");
            line.field(found);
            line.number(told);
        }
        DocFault::PostDiffers => line.text(b"PostDiffers"),
        DocFault::OutOfMemory => line.text(b"OutOfMemory"),
    }
}

/// Appends the words of a fault of a TFM file.
fn tfm(line: &mut Line, kind: TfmFault)
    requires { length line.old ≤ 700 }
    ensures { line.new ≡ line.old ++ tfm_text kind }
{
    match kind {
        TfmFault::Short => line.text(b"Short"),
        TfmFault::BadLengths => line.text(b"BadLengths"),
        TfmFault::BadWidth(i) => named(line, b"BadWidth", i),
        TfmFault::BadIndex(c) => named(line, b"BadIndex", c),
        TfmFault::OutOfMemory => line.text(b"OutOfMemory"),
    }
}

/// Appends the words of a fault of a PK file.
fn pk(line: &mut Line, kind: PkFault)
    requires { length line.old ≤ 700 }
    ensures { line.new ≡ line.old ++ pk_text kind }
{
    match kind {
        PkFault::BadPreamble => line.text(b"BadPreamble"),
        PkFault::Undefined(at) => named(line, b"Undefined", at),
        PkFault::Short(at) => named(line, b"Short", at),
        PkFault::NoPost => line.text(b"NoPost"),
        PkFault::Twice(c) => named(line, b"Twice", c),
        PkFault::BadLength(c) => named(line, b"BadLength", c),
        PkFault::RunsShort(c) => named(line, b"RunsShort", c),
        PkFault::RunsPast(c) => named(line, b"RunsPast", c),
        PkFault::RepeatTwice(c) => named(line, b"RepeatTwice", c),
        PkFault::Space => line.text(b"Space"),
        PkFault::OutOfMemory => line.text(b"OutOfMemory"),
    }
}

/// Appends the words of a fault of a VF file.
fn vf(line: &mut Line, kind: VfFault)
    requires { length line.old ≤ 700 }
    ensures { line.new ≡ line.old ++ vf_text kind }
{
    match kind {
        VfFault::BadPreamble => line.text(b"BadPreamble"),
        VfFault::BadOrder(at) => named(line, b"BadOrder", at),
        VfFault::Short(at) => named(line, b"Short", at),
        VfFault::BadOp(c) => named(line, b"BadOp", c),
        VfFault::Twice(c) => named(line, b"Twice", c),
        VfFault::FontTwice(k) => named(line, b"FontTwice", k),
        VfFault::BadName(k) => named(line, b"BadName", k),
        VfFault::NoPost => line.text(b"NoPost"),
        VfFault::OutOfMemory => line.text(b"OutOfMemory"),
    }
}

/// Appends a name with a site behind it.
fn site(line: &mut Line, name: &[u8], site: &Site)
    requires { length line.old + length name.now ≤ 100 }
    ensures { line.new ≡ line.old ++ named_with name.now (site_text site.now) }
{
    line.text(name);
    match site {
        Site::Page { at } => named(line, b" page", *at),
        Site::Packet { font, code, at } => {
            line.text(b" packet ");
            line.text(font.as_str().as_bytes());
            line.text(b" ");
            line.field(*code);
            line.number(*at);
        }
    }
}

/// Appends a name with the four numbers of units behind it.
fn four(line: &mut Line, name: &[u8], units: &Units)
    requires { length line.old + length name.now ≤ 100 }
    ensures { line.new ≡ line.old ++ named_with name.now (units_text units.now) }
{
    line.text(name);
    line.text(b" ");
    line.field(units.num);
    line.field(units.den);
    line.field(units.mag);
    line.number(units.dpi);
}

/// Appends a name with the name of a file or a font behind it.
fn file(line: &mut Line, name: &[u8], file: &FileName)
    requires { length line.old + length name.now ≤ 100 }
    ensures value { line.new ≡ line.old ++ named_with name.now (text_of file.now) }
    ensures len { length line.new ≤ length line.old + length name.now + 541 }
{
    line.text(name);
    line.text(b" ");
    line.text(file.as_str().as_bytes());
}

/// Appends a name with the name of a font and the code of a character behind it.
fn code<I: Integer>(line: &mut Line, name: &[u8], font: &FileName, code: I)
    requires { length line.old + length name.now ≤ 100 }
    ensures value { line.new ≡ line.old ++ named_with name.now (named_with (text_of font.now) (I.text code)) }
    ensures len { length line.new ≤ length line.old + length name.now + 582 }
{
    file(line, name, font);
    line.text(b" ");
    line.number(code);
}

/// Appends a name with the name of a font and two numbers behind it.
fn pair<I: Integer, J: Integer>(line: &mut Line, name: &[u8], font: &FileName, first: I, second: J)
    requires { length line.old + length name.now ≤ 100 }
    ensures { line.new ≡ line.old ++ named_with name.now (named_with (text_of font.now) (named_with (I.text first) (J.text second))) }
{
    code(line, name, font, first);
    line.text(b" ");
    line.number(second);
}

/// Appends a page's number, what it needs and what there is.
fn too_big(line: &mut Line, page: u32, need: u64, have: u64)
    requires { length line.old ≤ 80 }
    ensures { line.new ≡ line.old ++ named_with (codes "PageTooBig") (named_with (decimal page) (named_with (decimal need) (decimal have))) }
{
    line.text(b"PageTooBig ");
    line.field(page);
    line.field(need);
    line.number(have);
}

/// Appends what is said of an outcome that names a file.
fn file_words(line: &mut Line, outcome: &Outcome)
    requires room { length line.old ≤ 80 }
    requires group { group_of outcome.now ≡ OfFile }
    ensures { IfSome (outcome_text outcome.now) (λ text. line.new ≡ line.old ++ text) }
{
    match outcome {
        Outcome::BadTfm { name, kind } => {
            file(line, b"BadTfm", name);
            line.text(b" ");
            tfm(line, *kind);
        }
        Outcome::BadPk { name, kind } => {
            file(line, b"BadPk", name);
            line.text(b" ");
            pk(line, *kind);
        }
        Outcome::BadVf { name, kind } => {
            file(line, b"BadVf", name);
            line.text(b" ");
            vf(line, *kind);
        }
        Outcome::Missing { name } => file(line, b"Missing", name),
        Outcome::FileTooLong { name } => file(line, b"FileTooLong", name),
        Outcome::ReadFault { name } => file(line, b"ReadFault", name),
        _ => unreachable!(),
    }
}

/// Appends what is said of an outcome that names the place of a command.
fn place_words(line: &mut Line, outcome: &Outcome)
    requires room { length line.old ≤ 80 }
    requires group { group_of outcome.now ≡ OfPlace }
    ensures { IfSome (outcome_text outcome.now) (λ text. line.new ≡ line.old ++ text) }
{
    match outcome {
        Outcome::UndefinedFont { spot } => site(line, b"UndefinedFont", spot),
        Outcome::NoFont { spot } => site(line, b"NoFont", spot),
        Outcome::StackUnder { spot } => site(line, b"StackUnder", spot),
        Outcome::StackLeft { spot } => site(line, b"StackLeft", spot),
        Outcome::StackDeep { spot } => site(line, b"StackDeep", spot),
        Outcome::Overflow { spot } => site(line, b"Overflow", spot),
        _ => unreachable!(),
    }
}

/// Appends what is said of an outcome that names a font.
fn font_words(line: &mut Line, outcome: &Outcome)
    requires room { length line.old ≤ 80 }
    requires group { group_of outcome.now ≡ OfFont }
    ensures { IfSome (outcome_text outcome.now) (λ text. line.new ≡ line.old ++ text) }
{
    match outcome {
        Outcome::NoChar { font, code: z } => code(line, b"NoChar", font, *z),
        Outcome::NoPacket { font, code: c } => code(line, b"NoPacket", font, *c),
        Outcome::NoGlyph { font, code: c } => code(line, b"NoGlyph", font, *c),
        Outcome::NestDeep { font, code: c } => code(line, b"NestDeep", font, *c),
        Outcome::GlyphTooBig { font, code, bytes } => {
            pair(line, b"GlyphTooBig", font, *code, *bytes);
        }
        Outcome::BadSize { font, size, design } => pair(line, b"BadSize", font, *size, *design),
        _ => unreachable!(),
    }
}

/// Appends what is said of an outcome that names none of these.
fn other_words(line: &mut Line, outcome: &Outcome)
    requires room { length line.old ≤ 80 }
    requires group { group_of outcome.now ≡ OfOther }
    ensures { IfSome (outcome_text outcome.now) (λ text. line.new ≡ line.old ++ text) }
{
    match outcome {
        Outcome::Done => {}
        Outcome::BadDvi { kind } => {
            line.text(b"BadDvi ");
            fault(line, *kind);
        }
        Outcome::BadConv { units } => four(line, b"BadConv", units),
        Outcome::NoSuchPage { number } => named(line, b"NoSuchPage", *number),
        Outcome::TooManyPages => line.text(b"TooManyPages"),
        Outcome::PageTooBig { page, need, have } => too_big(line, *page, *need, *have),
        Outcome::TooManyHeaders => line.text(b"TooManyHeaders"),
        Outcome::CopyTooLong => line.text(b"CopyTooLong"),
        Outcome::TooManyFonts => line.text(b"TooManyFonts"),
        Outcome::TooManySteps => line.text(b"TooManySteps"),
        Outcome::RasterSpace => line.text(b"RasterSpace"),
        Outcome::BadWords { index } => named(line, b"BadWords", *index),
        Outcome::WriteFault => line.text(b"WriteFault"),
        Outcome::OutOfMemory => line.text(b"OutOfMemory"),
        _ => unreachable!(),
    }
}

/// What kind of thing an outcome names.
#[derive(Clone, Copy)]
enum Group {
    OfFile,
    OfPlace,
    OfFont,
    OfOther,
}

/// What the outcome names.
fn names(outcome: &Outcome) -> Group
    ensures { result ≡ group_of outcome.now }
{
    match outcome {
        Outcome::BadTfm { .. }
        | Outcome::BadPk { .. }
        | Outcome::BadVf { .. }
        | Outcome::Missing { .. }
        | Outcome::FileTooLong { .. }
        | Outcome::ReadFault { .. } => Group::OfFile,
        Outcome::UndefinedFont { .. }
        | Outcome::NoFont { .. }
        | Outcome::StackUnder { .. }
        | Outcome::StackLeft { .. }
        | Outcome::StackDeep { .. }
        | Outcome::Overflow { .. } => Group::OfPlace,
        Outcome::NoChar { .. }
        | Outcome::NoPacket { .. }
        | Outcome::NoGlyph { .. }
        | Outcome::NestDeep { .. }
        | Outcome::GlyphTooBig { .. }
        | Outcome::BadSize { .. } => Group::OfFont,
        _ => Group::OfOther,
    }
}

/// Appends what is said of an outcome: its name, and each of its fields behind a space.
fn words(line: &mut Line, outcome: &Outcome)
    requires { length line.old ≤ 80 }
    ensures { IfSome (outcome_text outcome.now) (λ text. line.new ≡ line.old ++ text) }
{
    match names(outcome) {
        Group::OfFile => file_words(line, outcome),
        Group::OfPlace => place_words(line, outcome),
        Group::OfFont => font_words(line, outcome),
        Group::OfOther => other_words(line, outcome),
    }
}

/// The line that is said of an outcome, if one is.
fn message(outcome: &Outcome) -> Option<Line>
    ensures { result ≡ message_of outcome.now }
{
    if let Outcome::Done = outcome {
        return None;
    }
    let mut line = Line::new();
    line.text(b"texdvi: ");
    words(&mut line, outcome);
    Some(line)
}

impl Outcome {
    /// Says the line of this outcome, if it has one.
    pub fn say<T: Tray>(&self, tray: &mut T)
        ensures { SaysLine (message_of self.now) (T.seen tray.old) (T.seen tray.new) }
    {
        if let Some(line) = message(self) {
            tray.say(line.as_slice());
        }
    }
}
