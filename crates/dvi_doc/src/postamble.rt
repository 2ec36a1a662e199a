//! The font definitions behind `post`.
ghost use Rattle.std.specs.Prelude.{◌≡◌, ◌≤◌, ◌^◌, ◌++◌, ◌∷◌, [], ℕ, ℤ, List, length, IfOk, IfErr};
ghost use Rattle.dvi_ops.specs.Command.{Definition};
ghost use Rattle.dvi_ops.specs.View.{def_view};
ghost use Rattle.dvi_doc.specs.PartFaults.{AreJudged};
ghost use Rattle.dvi_doc.specs.Order.{Reaches, reading};
ghost use Rattle.dvi_doc.specs.Order.Part.{Behind};
ghost use Rattle.dvi_doc.specs.Faults.{FaultIn};
ghost use Rattle.dvi_doc.specs.Standing.{fonts_in};
ghost use Rattle.dvi_doc.specs.Steps.{EndsAt, FoundEnding};

use crate::fault::DocFault;
use crate::font::check_font;
use crate::font_def::FontDef;
use crate::found::Found;
use crate::step::{pass_definition, read_command};
use dvi_ops::{Cmd, Def, Numbers};
use std::alloc::Global;

/// How many bytes a definition has that has no name: none is shorter.
const SHORTEST: usize = 16;

/// What is wrong with the first of some definitions that isn't as it should be, where this one comes behind them.
#[inline(always)]
fn first_fault(before: Option<DocFault>, def: &Def<'_>) -> Option<DocFault>
    ensures { (ds : List Definition) → AreJudged ds before → AreJudged (ds ++ def_view def.now ∷ []) result }
{
    if before.is_some() {
        return before;
    }
    match check_font(def) {
        Ok(()) => None,
        Err(fault) => Some(fault),
    }
}

/// The definitions from `start`, the place behind `post`, up to the trailer's `post_post` at `ends`.
pub fn read_postamble<'a>(
    alloc: Global,
    bytes: &'a [u8],
    start: usize,
    ends: usize,
) -> Result<Found<'a>, DocFault>
    requires small { length bytes.now ≤ 2 ^ 26 }
    requires trailer { EndsAt bytes.now ends }
    requires inside { start ≤ ends }
    requires reached { (last : ℤ) × (post : ℕ) × Reaches bytes.now start (reading Behind last post) }
    ensures found { IfOk result (λ found. (found.bytes ≡ bytes.now) × FoundEnding bytes.now start ends (fonts_in found)) }
    ensures fault { IfErr result (FaultIn bytes.now) }
{
    let room = (ends - start) / SHORTEST;
    let mut fonts = Vec::with_capacity(alloc, room)?;
    let mut numbers = Numbers::with_room(alloc, room)?;
    let mut fault = None;
    let mut at = start;
    while at < ends {
        if let Some((def, end)) = pass_definition(bytes, at, ends) {
            numbers.push(def.k, fonts.len() as u32)?;
            fonts.push(FontDef { at: at as u32 })?;
            fault = first_fault(fault, &def);
            at = end;
            continue;
        }
        let (cmd, end) = read_command(bytes, at, ends)?;
        match cmd {
            Cmd::Nop => at = end,
            _ => return Err(DocFault::BadOrder { at: at as u32 }),
        }
    }
    Ok(Found {
        bytes,
        fonts,
        numbers,
        fault,
    })
}
