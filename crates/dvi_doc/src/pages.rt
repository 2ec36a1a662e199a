//! The pages of a document, up to its postamble.
ghost use Rattle.std.specs.Prelude.{◌≡◌, ◌≤◌, ◌<◌, ◌^◌, length, negsuc, IfOk, IfErr, OnOk};
ghost use Rattle.dvi_doc.specs.Order.{Reaches, reading};
ghost use Rattle.dvi_doc.specs.Order.Part.{Between};
ghost use Rattle.dvi_doc.specs.Faults.{FaultIn};
ghost use Rattle.dvi_doc.specs.PartFaults.{BackFault};
ghost use Rattle.dvi_doc.specs.Steps.{EndsAt, FoundBody, last_of};

use crate::fault::DocFault;
use crate::font_def::FontDef;
use crate::page::{Page, read_page};
use crate::step::read_command;
use dvi_ops::{Cmd, Tail};
use std::alloc::Global;

/// What stands between the preamble and the postamble's definitions.
#[derive(Drop)]
pub struct Body {
    /// The pages, in file order.
    pub pages: Vec<Page>,
    /// The font definitions between and inside them.
    pub earlier: Vec<FontDef>,
    /// The place of `post`.
    pub post: usize,
    /// What `post` says.
    pub tail: Tail,
    /// The place behind `post`.
    pub next: usize,
}

/// That the back pointer of the bop or post at a place leads to the last bop, or is -1 where there is none.
fn check_back(at: usize, back: i32, last: Option<usize>) -> Result<(), DocFault>
    requires { at < 2 ^ 32 }
    ensures last { OnOk result (back ≡ last_of last) }
    ensures fault { IfErr result (BackFault at back (last_of last)) }
{
    let is_last = match last {
        None => back == -1,
        Some(place) => back >= 0 && back as usize == place,
    };
    if is_last {
        Ok(())
    } else {
        Err(DocFault::BadBackPointer { at: at as u32 })
    }
}

/// The pages from `start` on, and the postamble's first command behind them.
pub fn read_pages(alloc: Global, bytes: &[u8], start: usize, ends: usize) -> Result<Body, DocFault>
    requires small { length bytes.now ≤ 2 ^ 26 }
    requires trailer { EndsAt bytes.now ends }
    requires inside { start ≤ ends }
    requires reached { Reaches bytes.now start (reading Between (negsuc 0) 0) }
    ensures found { IfOk result (FoundBody bytes.now start ends) }
    ensures fault { IfErr result (FaultIn bytes.now) }
{
    let mut pages = Vec::new(alloc);
    let mut earlier = Vec::new(alloc);
    let mut last = None;
    let mut at = start;
    while at < ends {
        let (cmd, end) = read_command(bytes, at, ends)?;
        match cmd {
            Cmd::Nop => at = end,
            Cmd::FntDef(_) => {
                earlier.push(FontDef { at: at as u32 })?;
                at = end;
            }
            Cmd::Bop { counts, back } => {
                check_back(at, back, last)?;
                let (eop, next) = read_page(bytes, end, ends, &mut earlier)?;
                pages.push(Page {
                    at: at as u32,
                    first: end as u32,
                    eop: eop as u32,
                    counts,
                })?;
                last = Some(at);
                at = next;
            }
            Cmd::Post(tail) => {
                check_back(at, tail.back, last)?;
                return Ok(Body {
                    pages,
                    earlier,
                    post: at,
                    tail,
                    next: end,
                });
            }
            _ => return Err(DocFault::BadOrder { at: at as u32 }),
        }
    }
    Err(DocFault::BadOrder { at: ends as u32 })
}
