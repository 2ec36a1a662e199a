//! What pages say besides their marks on the paper: the paper itself, header files, and specials that mean nothing.
ghost use Rattle.std.specs.Prelude.{◌≡◌, ◌≤◌, ◌<◌, ℕ, ℤ, List, [], ◌∷◌, ◌++◌, length, map, take, OnOk, IfOk, IfSome, Some};
ghost use Rattle.dv_base.specs.FileName.{text_of};
ghost use Rattle.positions.specs.Mark.{Mark};
ghost use Rattle.positions.specs.MarkOf.{special_of as mark_of};
ghost use Rattle.specials.specs.FileNames.{is_file_name};
ghost use Rattle.specials.specs.View.{special_view};
ghost use Rattle.sections.specs.Cost.{IsPriced};
ghost use Rattle.sections.specs.Used as used;
ghost use Rattle.sections.specs.Used.{SameFonts, HasTaken};
ghost use Rattle.dv_words.specs.JobView.{print_view};
ghost use Rattle.dv_words.specs.Jobs.{PrintJob as TheJob};
ghost use Rattle.dv_top.specs.Headers.{IsShortName, header_names, is_among, name_in};
ghost use Rattle.dv_top.specs.Noted.{HasNoted, PagesGoOn, Takes, name_noted, names_noted, paper_noted};
ghost use Rattle.dv_top.specs.NotedLaws.{noted_more, noted_none};
ghost use Rattle.dv_top.specs.Papers.{IsSmallPaper, paper_by, paper_of};
ghost use Rattle.dv_top.specs.Spoken.{SaysAll};
ghost use Rattle.dv_top.specs.Warnings.{head_of, is_idle, warnings_of};

use crate::heads::Heads;
use crate::warnings::say_checksums;
use dv_base::{FileName, Tray};
use dv_words::PrintJob;
use font_set::Fonts;
use positions::{Canvas, GlyphMark, RuleMark, SpecialMark};
use sections::Usage;
use specials::{Special, read_special};
use std::alloc::{AllocError, Global};
use std::marker::Model;

/// The width and height of letter paper, 8.5 by 11 inches, in scaled points.
const LETTER: (i64, i64) = (40_258_437, 52_099_153);

/// How many names of headers are kept: one more than a job may have.
const MOST_KEPT: usize = 65;

/// How many bytes of a special a warning shows.
const MOST_SHOWN: usize = 60;

/// Takes the marks of pages, and notes what the page that was begun last uses, and what the specials of all pages say.
///
/// It takes memory for names of headers, of which it keeps at most 65, and for the first 60 bytes of each special that is warned of; a
/// quiet one keeps none of these.
#[derive(Drop)]
pub struct Notes {
    usage: Usage,
    words: Option<(i64, i64)>,
    quiet: bool,
    pass: bool,
    /// Whether a page was begun, and whether one more was.
    begun: bool,
    later: bool,
    paper: Option<(i64, i64)>,
    headers: Vec<FileName>,
    heads: Heads,
}

impl Model for Notes {
    ghost use Rattle.dv_top.specs.Noted.{Noted};

    ghost Value = { Noted };

    ghost use Rattle.std.specs.Prelude.{map};
    ghost use Rattle.dv_base.specs.FileName.{text_of};

    ghost view = { λ n. record { words = n.words; quiet = n.quiet; pass = n.pass; begun = n.begun; later = n.later; used = n.usage; paper = n.paper; headers = map text_of n.headers.items; heads = n.heads } };
}

/// Marks that are taken go on the last page.
pub fn pages_go_on()
    ensures { PagesGoOn }
{}

/// The paper behind a special.
fn paper_by(paper: Option<(i64, i64)>, special: &Special<'_>) -> Option<(i64, i64)>
    ensures { result ≡ paper_by paper (special_view special.now) }
{
    match special {
        Special::Paper(width, height) => Some((*width, *height)),
        Special::BadPaper | Special::Header(_) | Special::Literal(_) | Special::Unknown => paper,
    }
}

/// Whether nothing is done for a special.
fn is_idle(pass: bool, special: &Special<'_>) -> bool
    ensures { result ≡ is_idle pass (special_view special.now) }
{
    match special {
        Special::Paper(_, _) | Special::Header(_) => false,
        Special::Literal(_) => !pass,
        Special::BadPaper | Special::Unknown => true,
    }
}

/// Whether the name is among these.
fn is_among(names: &[FileName], name: &str) -> bool
    ensures { result ≡ is_among (map text_of names.now) name.now }
{
    names.iter().any(|n| n.as_str() == name)
}

/// Keeps a name, unless it is there already or too many are.
fn note_name(names: &mut Vec<FileName>, name: FileName) -> Result<(), AllocError>
    ensures { OnOk result (map text_of names.new.items ≡ name_noted (map text_of names.old.items) (text_of name)) }
{
    if names.len() < MOST_KEPT && !is_among(names, name.as_str()) {
        names.push(name)?;
    }
    Ok(())
}

/// Keeps names, each at its first place.
fn note_names(names: &mut Vec<FileName>, more: &[FileName]) -> Result<(), AllocError>
    ensures { OnOk result (map text_of names.new.items ≡ names_noted (map text_of names.old.items) (map text_of more.now)) }
{
    for name in more {
        note_name(names, *name)?;
    }
    Ok(())
}

/// Keeps the name of a header special.
fn note_header(names: &mut Vec<FileName>, special: &Special<'_>) -> Result<(), AllocError>
    requires { IsShortName (special_view special.now) }
    ensures { OnOk result (map text_of names.new.items ≡ names_noted (map text_of names.old.items) (name_in (special_view special.now))) }
{
    let Special::Header(name) = special else {
        return Ok(());
    };
    match FileName::new(name) {
        Some(name) => note_name(names, name),
        None => unreachable!(),
    }
}

/// The bytes of a special that a warning shows.
fn head_of(special: &[u8]) -> &[u8]
    ensures head { result.now ≡ head_of special.now }
    ensures short { length result.now ≤ 60 }
{
    &special[..special.len().min(MOST_SHOWN)]
}

impl Notes {
    /// Nothing is noted yet, for a job with these fonts.
    pub fn new(alloc: Global, fonts: &Fonts, job: &PrintJob) -> Result<Notes, AllocError>
        ensures none { IfOk result (λ notes. HasNoted (print_view job.now) notes []) }
        ensures priced { IfOk result (λ notes. IsPriced fonts.now notes.used) }
    {
        let usage = Usage::new(alloc, fonts)?;
        let mut headers = Vec::new(alloc);
        note_names(&mut headers, job.headers.as_slice())?;
        Ok(Notes {
            usage,
            words: job.paper,
            quiet: job.quiet,
            pass: job.pass_ps,
            begun: false,
            later: false,
            paper: None,
            headers,
            heads: Heads::new(alloc),
        })
    }

    /// The next page begins: nothing of it is used yet.
    pub fn begin_page(&mut self)
        ensures pages { (job : TheJob) (pages : List (List Mark)) → HasNoted job self.old pages → HasNoted job self.new (pages ++ [] ∷ []) }
        ensures none { HasTaken self.new.used [] }
        ensures same { SameFonts self.old.used self.new.used }
    {
        self.usage.clear();
        self.later = self.begun;
        self.begun = true;
    }

    /// What the page that was begun last uses.
    pub fn usage(&self) -> &Usage
        ensures { result.now ≡ self.now.used }
    {
        &self.usage
    }

    /// The memory for what pages use, which nothing needs any more beside it.
    pub fn into_usage(self) -> Usage
        ensures { result ≡ self.used }
    {
        self.usage
    }

    /// The paper of the pages.
    pub fn paper(&self) -> (i64, i64)
        ensures small { (job : TheJob) (pages : List (List Mark)) → HasNoted job self.now pages → IfSome job.paper IsSmallPaper → IsSmallPaper result }
        ensures value { (job : TheJob) (pages : List (List Mark)) → HasNoted job self.now pages → result ≡ paper_of job.paper pages }
    {
        self.words.or(self.paper).unwrap_or(LETTER)
    }

    /// The names of headers, or the first 65 of them where there are more.
    pub fn headers(&self) -> &[FileName]
        ensures { (job : TheJob) (pages : List (List Mark)) → HasNoted job self.now pages → map text_of result.now ≡ take 65 (header_names job.headers pages) }
    {
        &self.headers
    }

    /// Says what is to be warned of.
    pub fn warn<T: Tray>(&self, fonts: &Fonts, tray: &mut T)
        ensures { (job : TheJob) (pages : List (List Mark)) → HasNoted job self.now pages → SaysAll (warnings_of job.quiet job.pass_ps fonts.now pages) (T.seen tray.old) (T.seen tray.new) }
    {
        if self.quiet {
            return;
        }
        say_checksums(fonts, tray);
        self.heads.say(tray);
    }
}

impl Canvas for Notes {
    type Fault = AllocError;

    ghost can = { λ notes mark. used.CanTake notes.used mark };

    ghost takes = { λ old new marks. Takes old new marks };

    ghost refuses = { λ old new marks mark fault. Unit {0} };

    fn glyph(&mut self, mark: &GlyphMark) -> Result<(), AllocError> {
        match self.usage.glyph(mark) {
            Ok(()) => Ok(()),
            Err(fault) => match fault {},
        }
    }

    fn rule(&mut self, mark: &RuleMark) -> Result<(), AllocError> {
        match self.usage.rule(mark) {
            Ok(()) => Ok(()),
            Err(fault) => match fault {},
        }
    }

    fn special(&mut self, mark: &SpecialMark<'_>) -> Result<(), AllocError> {
        let special = read_special(mark.bytes);
        if !self.later {
            self.paper = paper_by(self.paper, &special);
        }
        note_header(&mut self.headers, &special)?;
        if !self.quiet && is_idle(self.pass, &special) {
            self.heads.push(head_of(mark.bytes))?;
        }
        Ok(())
    }

    ghost starts = { λ notes. noted_none notes };

    ghost chains = { λ a b c xs ys. noted_more a b c xs ys };

    ghost refused_later = { λ a b c xs ys mark fault taken refused. refused };
}
