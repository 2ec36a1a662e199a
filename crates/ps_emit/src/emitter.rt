//! The writer of a text.
ghost use Rattle.std.specs.Prelude.{◌≡◌, ◌<◌, ◌≤◌, ◌+◌, ◌^◌, ◌++◌, ◌∷◌, [], None, Some, MatchOption, OnErr, OnOk, codes, if◌then◌else◌, length, map};
ghost use Rattle.font_set.specs.Views.{bitmap_of};
ghost use Rattle.sections.specs.Used.{is_used, uses_font};
ghost use Rattle.ps_subset.specs.Blocks.{block_lines, headers_lines};
ghost use Rattle.ps_subset.specs.FontText.{font_lines, fonts_lines, hex_text, letter_lines};
ghost use Rattle.ps_subset.specs.Items.{Block};
ghost use Rattle.ps_subset.specs.Prolog.{line};
ghost use Rattle.ps_emit.specs.Bounds.{IsNearPixel};
ghost use Rattle.ps_emit.specs.Letters.{font_of, fonts_used, letters_of, some_fonts, used_codes};
ghost use Rattle.ps_emit.specs.LetterLines.{drawn_line, row_text};
ghost use Rattle.ps_emit.specs.Pages.{page_begin};
ghost use Rattle.ps_emit.specs.Sheet.{closed_sheet, first_sheet, item_sheet, item_written, page_end};
ghost use Rattle.ps_emit.specs.Shapes.{passed_on};
ghost use Rattle.ps_emit.specs.Written.{Cut, Writes};

use crate::setup::Setup;
use crate::sheet::Sheet;
use crate::{head, items, letters};
use dv_base::{FontId, Line, Put, Tray, WriteFault};
use font_set::Fonts;
use pk_raster::Glyph;
use positions::{Canvas, GlyphMark, RuleMark, SpecialMark};
use ps_subset::PROLOG;
use sections::Usage;
use specials::{Special, read_special};

/// How many bytes of rows stand on one line.
const BYTES_A_LINE: usize = 32;

/// How many bytes a line holds.
const ROOM: usize = 1_024;

/// Writes bytes, by as many calls of the tray as it takes, and counts those that it took.
fn write<T: Tray>(tray: &mut T, count: &mut u64, text: &[u8]) -> Result<(), WriteFault>
    requires begun { 0 < (T.seen tray.old).begun }
    requires fits { count.old < 2 ^ 64 }
    ensures { Writes text.now (record { seen = T.seen tray.old; count = count.old }) (record { seen = T.seen tray.new; count = count.new }) result }
{
    let mut at = 0;
    while at < text.len() {
        match tray.write(&text[at..]) {
            Put::Took(n) => {
                at += n;
                *count = count.saturating_add(n as u64);
            }
            Put::Failed => return Err(WriteFault),
        }
    }
    Ok(())
}

/// What is passed on of a special: the text of a literal one, where literal ones are passed on.
fn passed_on(pass: bool, bytes: &[u8]) -> Option<&[u8]>
    ensures { MatchOption result (passed_on pass bytes.now ≡ None) (λ text. passed_on pass bytes.now ≡ Some text.now) }
{
    if !pass {
        return None;
    }
    match read_special(bytes) {
        Special::Literal(text) => Some(text),
        Special::Paper(_, _) => None,
        Special::BadPaper => None,
        Special::Header(_) => None,
        Special::Unknown => None,
    }
}

/// Writes the text of a job to a tray, line after line.
///
/// The calls are made in the order of the text: the prologue, then for each section its beginning, its fonts, its pages and its end, then
/// the trailer; for each page its beginning, its marks and its end. Each needs that the tray has begun an output. After a
/// [`WriteFault`] a front of the text went out. No call takes memory.
#[derive(Drop)]
pub struct Emitter<'a, T: Tray> {
    tray: &'a mut T,
    fonts: &'a Fonts,
    comments: bool,
    pass_ps: bool,
    bytes: u64,
    sheet: Sheet,
    line: Line,
    ghost fits: { bytes < 2 ^ 64 },
}

impl<'a, T: Tray> Emitter<'a, T> {
    ghost use Rattle.ps_emit.specs.Shown.{Holds, comments_of, fonts_of, loan_of, out_of, pass_of, sheet_of, tray_of};
    ghost use Rattle.ps_emit.specs.Pending.{Ahead};
    ghost use Rattle.ps_emit.specs.Setup.{prologue_of, trailer_of};

    /// A writer to this tray, of a text with these fonts. Without `comments` it leaves the structured comments out; with `pass_ps` it passes
    /// literal specials on.
    pub fn new(tray: &'a mut T, fonts: &'a Fonts, comments: bool, pass_ps: bool) -> Emitter<'a, T>
        ensures tray { tray_of result ≡ tray.old }
        ensures loan { loan_of result ≡ tray.entry.ghost_name }
        ensures fonts { fonts_of result ≡ fonts.now }
        ensures comments { comments_of result ≡ comments }
        ensures pass { pass_of result ≡ pass_ps }
        ensures out { out_of result ≡ record { seen = T.seen tray.old; count = 0 } }
        ensures sheet { sheet_of result ≡ first_sheet }
    {
        Emitter {
            tray,
            fonts,
            comments,
            pass_ps,
            bytes: 0,
            sheet: Sheet::first(),
            line: Line::new(),
        }
    }

    /// How many bytes the tray has taken from this emitter; the greatest `u64` stays.
    pub fn bytes(&self) -> u64
        ensures { result ≡ (out_of self.now).count }
    {
        self.bytes
    }

    /// Writes bytes as they are.
    fn put(&mut self, text: &[u8]) -> Result<(), WriteFault>
        requires { 0 < (out_of self.old).seen.begun }
        ensures writes { Writes text.now (out_of self.old) (out_of self.new) result }
        ensures holds { Holds self.old self.new }
        ensures sheet { sheet_of self.new ≡ sheet_of self.old }
    {
        write(self.tray, &mut self.bytes, text)
    }

    /// Writes the line that was put together.
    fn put_line(&mut self) -> Result<(), WriteFault>
        requires { 0 < (out_of self.old).seen.begun }
        ensures writes { Writes self.old.line (out_of self.old) (out_of self.new) result }
        ensures holds { Holds self.old self.new }
        ensures sheet { sheet_of self.new ≡ sheet_of self.old }
    {
        write(self.tray, &mut self.bytes, self.line.as_slice())
    }

    /// Writes bytes that the machine passes over.
    fn block(&mut self, bytes: &[u8]) -> Result<(), WriteFault>
        requires { 0 < (out_of self.old).seen.begun }
        ensures writes { Writes (block_lines bytes.now) (out_of self.old) (out_of self.new) result }
        ensures holds { Holds self.old self.new }
        ensures sheet { sheet_of self.new ≡ sheet_of self.old }
    {
        self.line.clear();
        items::announced(&mut self.line, bytes.len());
        self.put_line()?;
        self.put(bytes)?;
        self.put(b"\n")
    }

    fn blocks(&mut self, headers: &[Vec<u8>]) -> Result<(), WriteFault>
        requires { 0 < (out_of self.old).seen.begun }
        ensures writes { Writes (headers_lines (map (λ h. h.items) headers.now)) (out_of self.old) (out_of self.new) result }
        ensures holds { Holds self.old self.new }
        ensures sheet { sheet_of self.new ≡ sheet_of self.old }
    {
        for header in headers {
            self.block(header.as_slice())?;
        }
        Ok(())
    }

    /// Writes all that stands before the first section: the comments at the head, the prolog, the headers and the setup.
    pub fn prologue(&mut self, setup: &Setup, headers: &[Vec<u8>]) -> Result<(), WriteFault>
        requires { 0 < (out_of self.old).seen.begun }
        ensures writes { Writes (prologue_of (comments_of self.old) setup.now (map (λ h. h.items) headers.now)) (out_of self.old) (out_of self.new) result }
        ensures holds { Holds self.old self.new }
        ensures sheet { sheet_of self.new ≡ sheet_of self.old }
    {
        let comments = self.comments;
        head::head(&mut self.line, comments, setup);
        self.put_line()?;
        self.put(PROLOG)?;
        self.blocks(headers)?;
        head::job(&mut self.line, comments, setup);
        self.put_line()
    }

    /// Begins a section.
    pub fn begin_section(&mut self) -> Result<(), WriteFault>
        requires { 0 < (out_of self.old).seen.begun }
        ensures writes { Writes (line (codes "bos")) (out_of self.old) (out_of self.new) result }
        ensures holds { Holds self.old self.new }
        ensures sheet { sheet_of self.new ≡ sheet_of self.old }
    {
        self.put(b"bos\n")
    }

    /// Ends a section.
    pub fn end_section(&mut self) -> Result<(), WriteFault>
        requires { 0 < (out_of self.old).seen.begun }
        ensures writes { Writes (line (codes "eos")) (out_of self.old) (out_of self.new) result }
        ensures holds { Holds self.old self.new }
        ensures sheet { sheet_of self.new ≡ sheet_of self.old }
    {
        self.put(b"eos\n")
    }

    /// Makes room for so many bytes more: what the line holds goes out where it has to.
    fn make_room(&mut self, room: usize) -> Result<(), WriteFault>
        requires begun { 0 < (out_of self.old).seen.begun }
        requires few { room ≤ 1024 }
        ensures ahead { OnOk result (Ahead self.old.line self.old self.new) }
        ensures room { OnOk result (length self.new.line + room ≤ 1024) }
        ensures cut { OnErr result (Cut self.old.line (out_of self.old) (out_of self.new)) }
        ensures holds { Holds self.old self.new }
        ensures sheet { sheet_of self.new ≡ sheet_of self.old }
    {
        if self.line.as_slice().len() + room > ROOM {
            self.put_line()?;
            self.line.clear();
        }
        Ok(())
    }

    /// Puts the next bytes of a glyph's rows on the line, at most 32, behind a line end where others stand before them.
    fn row(&mut self, bytes: &[u8], follows: bool) -> Result<(), WriteFault>
        requires begun { 0 < (out_of self.old).seen.begun }
        requires few { length bytes.now ≤ 32 }
        ensures ahead { OnOk result (Ahead (self.old.line ++ row_text follows bytes.now) self.old self.new) }
        ensures cut { OnErr result (Cut self.old.line (out_of self.old) (out_of self.new)) }
        ensures holds { Holds self.old self.new }
        ensures sheet { sheet_of self.new ≡ sheet_of self.old }
    {
        self.make_room(BYTES_A_LINE * 2 + 1)?;
        if follows {
            self.line.text(b"\n");
        }
        letters::digits(&mut self.line, bytes);
        Ok(())
    }

    /// Puts the bytes of a glyph's rows on the line.
    fn rows(&mut self, bytes: &[u8]) -> Result<(), WriteFault>
        requires { 0 < (out_of self.old).seen.begun }
        ensures ahead { OnOk result (Ahead (self.old.line ++ hex_text 32 bytes.now) self.old self.new) }
        ensures cut { OnErr result (Cut (self.old.line ++ hex_text 32 bytes.now) (out_of self.old) (out_of self.new)) }
        ensures holds { Holds self.old self.new }
        ensures sheet { sheet_of self.new ≡ sheet_of self.old }
    {
        let mut rest = bytes;
        let mut follows = false;
        while !rest.is_empty() {
            let (row, behind) = rest.split_at(rest.len().min(BYTES_A_LINE));
            self.row(row, follows)?;
            rest = behind;
            follows = true;
        }
        Ok(())
    }

    /// Writes the line of a glyph, which is printed as it is.
    fn drawn(&mut self, code: u8, glyph: &Glyph<'_>, pixels: i64) -> Result<(), WriteFault>
        requires { 0 < (out_of self.old).seen.begun }
        ensures writes { Writes (drawn_line code (bitmap_of glyph.now) pixels) (out_of self.old) (out_of self.new) result }
        ensures holds { Holds self.old self.new }
        ensures sheet { sheet_of self.new ≡ sheet_of self.old }
    {
        letters::head(&mut self.line, code, glyph);
        self.rows(glyph.rows)?;
        self.make_room(letters::TAIL)?;
        letters::tail(&mut self.line, glyph, pixels);
        self.put_line()
    }

    /// Writes the line of a character, where its font has it.
    fn letter(&mut self, id: FontId, code: u8) -> Result<(), WriteFault>
        requires begun { 0 < (out_of self.old).seen.begun }
        requires given { id < length (fonts_of self.old).fonts }
        ensures writes { Writes (letter_lines (letters_of (fonts_of self.old) id (code ∷ []))) (out_of self.old) (out_of self.new) result }
        ensures holds { Holds self.old self.new }
        ensures sheet { sheet_of self.new ≡ sheet_of self.old }
    {
        let fonts = self.fonts;
        match fonts.glyph(id, code) {
            None => Ok(()),
            Some(glyph) => match fonts.pixels(id, code) {
                None => Ok(()),
                Some(pixels) => {
                    let glyph = letters::printed(&glyph);
                    self.drawn(code, &glyph, pixels)
                }
            },
        }
    }

    /// Writes the line of the character of that code, where it is used.
    fn used_letter(&mut self, id: FontId, number: u32, usage: &Usage) -> Result<(), WriteFault>
        requires begun { 0 < (out_of self.old).seen.begun }
        requires given { id < length (fonts_of self.old).fonts }
        requires same { usage.now.fonts ≡ length (fonts_of self.old).fonts }
        requires code { number < 256 }
        ensures writes { Writes (letter_lines (letters_of (fonts_of self.old) id (if is_used usage.now id number then (number ∷ []) else []))) (out_of self.old) (out_of self.new) result }
        ensures holds { Holds self.old self.new }
        ensures sheet { sheet_of self.new ≡ sheet_of self.old }
    {
        let code = number as u8;
        let used = usage.has(id, code);
        if used { self.letter(id, code) } else { Ok(()) }
    }

    /// Writes the lines of those characters of a font that are used, from the least code up.
    fn letters(&mut self, id: FontId, usage: &Usage) -> Result<(), WriteFault>
        requires begun { 0 < (out_of self.old).seen.begun }
        requires given { id < length (fonts_of self.old).fonts }
        requires same { usage.now.fonts ≡ length (fonts_of self.old).fonts }
        ensures writes { Writes (letter_lines (letters_of (fonts_of self.old) id (used_codes (is_used usage.now id)))) (out_of self.old) (out_of self.new) result }
        ensures holds { Holds self.old self.new }
        ensures sheet { sheet_of self.new ≡ sheet_of self.old }
    {
        for number in 0..256u32 {
            self.used_letter(id, number, usage)?;
        }
        Ok(())
    }

    /// Writes a font with those of its characters that are used. `usage` is over the fonts that the emitter was made with.
    pub fn font(&mut self, id: FontId, usage: &Usage) -> Result<(), WriteFault>
        requires begun { 0 < (out_of self.old).seen.begun }
        requires given { id < length (fonts_of self.old).fonts }
        requires same { usage.now.fonts ≡ length (fonts_of self.old).fonts }
        ensures writes { Writes (font_lines (font_of (fonts_of self.old) (is_used usage.now) id)) (out_of self.old) (out_of self.new) result }
        ensures holds { Holds self.old self.new }
        ensures sheet { sheet_of self.new ≡ sheet_of self.old }
    {
        self.line.clear();
        self.line.text(b"/F");
        self.line.number(id.number());
        self.line.text(b" FB\n");
        self.put_line()?;
        self.letters(id, usage)?;
        self.put(b"E\n")
    }

    /// Writes the font of that number, where a character of it is used.
    fn used_font(&mut self, number: u32, usage: &Usage) -> Result<(), WriteFault>
        requires begun { 0 < (out_of self.old).seen.begun }
        requires few { number < 1000 }
        requires given { number < length (fonts_of self.old).fonts }
        requires same { usage.now.fonts ≡ length (fonts_of self.old).fonts }
        ensures writes { Writes (fonts_lines (some_fonts (fonts_of self.old) (is_used usage.now) (if uses_font usage.now number then (number ∷ []) else []))) (out_of self.old) (out_of self.new) result }
        ensures holds { Holds self.old self.new }
        ensures sheet { sheet_of self.new ≡ sheet_of self.old }
    {
        let Some(id) = FontId::new(number) else {
            unreachable!()
        };
        let used = usage.uses(id);
        if used { self.font(id, usage) } else { Ok(()) }
    }

    /// Writes those fonts of which a character is used, by their numbers. `usage` is over the fonts that the emitter was made with.
    pub fn fonts(&mut self, usage: &Usage) -> Result<(), WriteFault>
        requires begun { 0 < (out_of self.old).seen.begun }
        requires same { usage.now.fonts ≡ length (fonts_of self.old).fonts }
        ensures writes { Writes (fonts_lines (fonts_used (fonts_of self.old) (is_used usage.now))) (out_of self.old) (out_of self.new) result }
        ensures holds { Holds self.old self.new }
        ensures sheet { sheet_of self.new ≡ sheet_of self.old }
    {
        let count = self.fonts.count();
        for number in 0..count {
            self.used_font(number, usage)?;
        }
        Ok(())
    }

    /// Begins the page with this count 0, which is the page of that number in the text; the machine's place is then at the origin.
    pub fn begin_page(&mut self, label: i32, number: u32) -> Result<(), WriteFault>
        requires { 0 < (out_of self.old).seen.begun }
        ensures writes { Writes (page_begin (comments_of self.old) label number) (out_of self.old) (out_of self.new) result }
        ensures holds { Holds self.old self.new }
        ensures sheet { sheet_of self.new ≡ first_sheet }
    {
        self.sheet = Sheet::first();
        items::page(&mut self.line, self.comments, label, number);
        self.put_line()
    }

    /// Ends a page: the stretch that is still open is written first.
    pub fn end_page(&mut self) -> Result<(), WriteFault>
        requires { 0 < (out_of self.old).seen.begun }
        ensures writes { Writes (page_end (sheet_of self.old)) (out_of self.old) (out_of self.new) result }
        ensures holds { Holds self.old self.new }
        ensures sheet { sheet_of self.new ≡ closed_sheet (sheet_of self.old) None }
    {
        self.sheet.end(&mut self.line);
        self.put_line()
    }

    /// Writes a block of these bytes, which stands at a pixel of the page.
    fn pass(&mut self, bytes: &[u8], at: (i64, i64)) -> Result<(), WriteFault>
        requires begun { 0 < (out_of self.old).seen.begun }
        requires at { IsNearPixel at }
        ensures writes { Writes (item_written (sheet_of self.old) (Block bytes.now at.0 at.1)) (out_of self.old) (out_of self.new) result }
        ensures holds { Holds self.old self.new }
        ensures sheet { sheet_of self.new ≡ item_sheet (sheet_of self.old) (Block bytes.now at.0 at.1) }
    {
        self.sheet.block(&mut self.line, bytes, at);
        self.put_line()?;
        self.put(bytes)?;
        self.put(b"\n")
    }

    /// Writes what stands behind the last section.
    pub fn trailer(&mut self) -> Result<(), WriteFault>
        requires { 0 < (out_of self.old).seen.begun }
        ensures writes { Writes (trailer_of (comments_of self.old)) (out_of self.old) (out_of self.new) result }
        ensures holds { Holds self.old self.new }
        ensures sheet { sheet_of self.new ≡ sheet_of self.old }
    {
        head::trailer(&mut self.line, self.comments);
        self.put_line()
    }
}

/// An emitter takes the marks of a page between its beginning and its end. What it has taken is written, but for the stretch that is
/// still open.
impl<'a, T: Tray> Canvas for Emitter<'a, T> {
    ghost use Rattle.ps_emit.specs.Taken.{CanTake, Took, Refused};
    ghost use Rattle.ps_emit.specs.TakenLaws.{took_nothing, took_more, refused_after};

    type Fault = WriteFault;

    ghost can = { λ emitter mark. CanTake emitter mark };

    ghost takes = { λ old new marks. Took old new marks };

    ghost refuses = { λ old new marks mark fault. Refused old new marks mark };

    /// Lets the glyph go on the open stretch, or writes that and opens one.
    fn glyph(&mut self, mark: &GlyphMark) -> Result<(), WriteFault> {
        self.sheet.glyph(&mut self.line, mark);
        self.put_line()
    }

    /// Writes the rule, and the way to it.
    fn rule(&mut self, mark: &RuleMark) -> Result<(), WriteFault> {
        self.sheet.rule(&mut self.line, mark);
        self.put_line()
    }

    /// Passes a literal special on, where that is asked for. Any other special is no ink.
    fn special(&mut self, mark: &SpecialMark<'_>) -> Result<(), WriteFault> {
        match passed_on(self.pass_ps, mark.bytes) {
            Some(text) => self.pass(text, (mark.x, mark.y)),
            None => Ok(()),
        }
    }

    ghost starts = { λ emitter. took_nothing emitter };

    ghost chains = { λ a b c xs ys. took_more a b c xs ys };

    ghost refused_later = { λ a b c xs ys mark fault. refused_after a b c xs ys mark };
}
