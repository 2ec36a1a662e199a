//! What has been read so far.
ghost use Rattle.std.specs.Prelude.{◌≡◌, IfOk, true, false};
ghost use Rattle.std.specs.Option.{is_some};
ghost use Rattle.dv_words.specs.declared.setting.Setting.TheVariants as setting;
ghost use Rattle.dv_words.specs.Settings.{bound_of, grows, if_above_zero, is_flag, pair_of, paper_of, reads, stands};
ghost use Rattle.dv_words.specs.Views.{draft_view, Sets};
ghost use Rattle.dv_words.specs.Draft.{no_draft};

use crate::number::{number_from, page_number};
use crate::pages::{Parity, Window};
use crate::ranges::read_windows;
use crate::setting::Setting;
use crate::word::file_name;
use dv_base::FileName;
use specials::{dimension, split_at_comma};
use std::alloc::{AllocError, Global};

/// A number of a page, by count 0 or, where it is physical, counted from 1.
#[derive(Clone, Copy, Debug, PartialEq, Eq)]
pub struct Bound {
    pub physical: bool,
    pub number: i64,
}

/// What the words so far ask for. Its fields are those of the jobs, as far as they were set; `across` and `down` are the two
/// resolutions.
#[derive(Drop)]
pub struct Draft {
    pub input: Option<FileName>,
    pub output: Option<FileName>,
    pub first: Option<Bound>,
    pub last: Option<Bound>,
    pub ranges: Vec<Window>,
    pub limit: Option<u32>,
    pub reverse: bool,
    pub parity: Parity,
    pub copies: u32,
    pub collated: u32,
    pub magnification: Option<u32>,
    pub across: Option<u32>,
    pub down: Option<u32>,
    pub per_section: Option<u32>,
    pub headers: Vec<FileName>,
    pub quiet: bool,
    pub comments: bool,
    pub paper: Option<(i64, i64)>,
    pub offset: (i64, i64),
    pub drift: u32,
    pub memory: u32,
    pub pass_ps: bool,
    pub detail: u8,
}

/// A page's number, with `=` before it where it counts from 1.
fn read_bound(text: &[u8]) -> Option<Bound>
    ensures { result ≡ bound_of text.now }
{
    match text {
        [b'=', number @ ..] => Some(Bound {
            physical: true,
            number: page_number(number)?,
        }),
        _ => Some(Bound {
            physical: false,
            number: page_number(text)?,
        }),
    }
}

/// A paper's width and height in scaled points.
fn paper(name: &str) -> Option<(i64, i64)>
    ensures { result ≡ paper_of name.now }
{
    match name {
        "letter" => Some((40_258_437, 52_099_153)),
        "legal" => Some((40_258_437, 66_308_014)),
        "tabloid" => Some((52_099_153, 80_516_874)),
        "ledger" => Some((80_516_874, 52_099_153)),
        "a3" => Some((55_380_990, 78_316_552)),
        "a4" => Some((39_158_276, 55_380_990)),
        "a5" => Some((27_597_261, 39_158_276)),
        _ => None,
    }
}

/// Two dimensions with a comma between.
fn pair(text: &[u8]) -> Option<(i64, i64)>
    ensures { result ≡ pair_of text.now }
{
    let (first, second) = split_at_comma(text);
    dimension(first).zip(dimension(second))
}

/// Two dimensions above 0 with a comma between.
fn size(text: &[u8]) -> Option<(i64, i64)>
    ensures { result ≡ if_above_zero (pair_of text.now) }
{
    match pair(text) {
        Some(size) if size.0 > 0 && size.1 > 0 => Some(size),
        _ => None,
    }
}

impl Draft {
    /// Nothing has been read.
    pub fn new(alloc: Global) -> Draft
        ensures { draft_view result ≡ no_draft }
    {
        Draft {
            input: None,
            output: None,
            first: None,
            last: None,
            ranges: Vec::new(alloc),
            limit: None,
            reverse: false,
            parity: Parity::All,
            copies: 1,
            collated: 1,
            magnification: None,
            across: None,
            down: None,
            per_section: None,
            headers: Vec::new(alloc),
            quiet: false,
            comments: true,
            paper: None,
            offset: (0, 0),
            drift: 2,
            memory: 16_000_000,
            pass_ps: false,
            detail: 1,
        }
    }

    /// The option may stand after what has been read.
    pub fn stands(&self, option: Setting) -> bool
        ensures { result ≡ stands option (draft_view self.now) }
    {
        match option {
            Setting::First | Setting::Last => self.ranges.is_empty(),
            Setting::Ranges => self.first.is_none() && self.last.is_none(),
            Setting::Odd => self.parity != Parity::Even,
            Setting::Even => self.parity != Parity::Odd,
            Setting::Header => self.headers.len() < 64,
            _ => true,
        }
    }

    /// Sets what the option sets, and answers whether the parameter is one of it.
    pub fn set(&mut self, option: Setting, parameter: &str) -> Result<bool, AllocError>
        ensures { IfOk result (λ done. Sets (reads option parameter.now) (draft_view self.old) done (draft_view self.new)) }
    {
        match option {
            Setting::Ranges => read_windows(&mut self.ranges, parameter.as_bytes()),
            Setting::Header => match file_name(parameter) {
                Some(name) => {
                    self.headers.push(name)?;
                    Ok(true)
                }
                None => Ok(false),
            },
            _ => Ok(self.set_field(option, parameter).is_some()),
        }
    }

    /// Sets a field anew; `None` where the parameter is none of the option.
    fn set_field(&mut self, option: Setting, parameter: &str) -> Option<()>
        requires { grows option ≡ false }
        ensures { Sets (reads option parameter.now) (draft_view self.old) (is_some result) (draft_view self.new) }
    {
        let text = parameter.as_bytes();
        match option {
            Setting::First => self.first = Some(read_bound(text)?),
            Setting::Last => self.last = Some(read_bound(text)?),
            Setting::Start => self.first = Some(Bound {
                physical: false,
                number: page_number(text)?,
            }),
            Setting::Limit => self.limit = Some(number_from(text, 1, 1_000_000)?),
            Setting::Copies => self.copies = number_from(text, 1, 999)?,
            Setting::Collated => self.collated = number_from(text, 1, 999)?,
            Setting::Magnification => self.magnification = Some(number_from(text, 10, 100_000)?),
            Setting::Resolution => {
                self.across = Some(number_from(text, 10, 10_000)?);
                self.down = self.across;
            }
            Setting::Across => self.across = Some(number_from(text, 10, 10_000)?),
            Setting::Down => self.down = Some(number_from(text, 10, 10_000)?),
            Setting::PerSection => self.per_section = Some(number_from(text, 1, 1_000_000)?),
            Setting::Output => self.output = Some(file_name(parameter)?),
            Setting::Paper => self.paper = Some(paper(parameter)?),
            Setting::PaperSize => self.paper = Some(size(text)?),
            Setting::Offset => self.offset = pair(text)?,
            Setting::Drift => self.drift = number_from(text, 0, 1_000)?,
            Setting::Memory => self.memory = number_from(text, 1, 2_147_483_647)?,
            Setting::Detail => self.detail = number_from(text, 0, 1)? as u8,
            _ => return self.set_flag(option, parameter),
        }
        Some(())
    }

    /// Sets a flag; `None` where the parameter isn't that of the flag.
    fn set_flag(&mut self, option: Setting, parameter: &str) -> Option<()>
        requires { is_flag option ≡ true }
        ensures { Sets (reads option parameter.now) (draft_view self.old) (is_some result) (draft_view self.new) }
    {
        match option {
            Setting::PassPs if parameter == "ps" => self.pass_ps = true,
            Setting::PassPs => return None,
            _ if !parameter.is_empty() => return None,
            Setting::Reverse => self.reverse = true,
            Setting::Odd => self.parity = Parity::Odd,
            Setting::Even => self.parity = Parity::Even,
            Setting::Quiet => self.quiet = true,
            Setting::Bare => self.comments = false,
            _ => unreachable!(),
        }
        Some(())
    }
}
