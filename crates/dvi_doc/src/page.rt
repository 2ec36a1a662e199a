//! The commands of one page, up to its eop.
ghost use Rattle.std.specs.Prelude.{◌≡◌, ◌≤◌, ◌<◌, ◌+◌, ◌^◌, ℤ, length, IfOk, IfErr, OnOk, MatchBool};
ghost use Rattle.std.specs.List.{All};
ghost use Rattle.dvi_ops.specs.View.{view};
ghost use Rattle.dvi_doc.specs.Grammar.{IsInner};
ghost use Rattle.dvi_doc.specs.Order.{Reaches, reading};
ghost use Rattle.dvi_doc.specs.Order.Part.{Inside};
ghost use Rattle.dvi_doc.specs.Faults.{FaultIn};
ghost use Rattle.dvi_doc.specs.Standing.{Stands, definitions_at};
ghost use Rattle.dvi_doc.specs.Steps.{EndsAt, FoundPage};

use crate::fault::DocFault;
use crate::font_def::FontDef;
use crate::step::{pass_commands, read_command};
use dvi_ops::Cmd;

/// A page by its places: of its bop, of the first command behind that and of its eop. `counts` are the ten counts of its bop.
#[derive(Clone, Copy, Debug, PartialEq, Eq)]
pub struct Page {
    pub at: u32,
    pub first: u32,
    pub eop: u32,
    pub counts: [i32; 10],
}

/// Whether a command may stand inside a page.
fn is_inner(cmd: &Cmd<'_>) -> bool
    ensures { MatchBool result (IsInner (view cmd.now)) (IsInner (view cmd.now) → ⊥) }
{
    match cmd {
        Cmd::Bop { .. } => false,
        Cmd::Eop => false,
        Cmd::Pre(_) => false,
        Cmd::Post(_) => false,
        Cmd::PostPost { .. } => false,
        _ => true,
    }
}

/// The places of the eop and behind it of the page whose first command is at `start`. Its definitions go behind `earlier`.
pub fn read_page(
    bytes: &[u8],
    start: usize,
    ends: usize,
    earlier: &mut Vec<FontDef>,
) -> Result<(usize, usize), DocFault>
    requires small { length bytes.now ≤ 2 ^ 26 }
    requires trailer { EndsAt bytes.now ends }
    requires inside { start ≤ ends }
    requires reached { (last : ℤ) × Reaches bytes.now start (reading Inside last 0) }
    ensures found { IfOk result (λ r. FoundPage bytes.now start r.0 r.1 ends (definitions_at bytes.now earlier.old.items) (definitions_at bytes.now earlier.new.items)) }
    ensures stands { OnOk result (All (Stands bytes.now) earlier.old.items → All (Stands bytes.now) earlier.new.items) }
    ensures fault { IfErr result (FaultIn bytes.now) }
{
    let mut at = pass_commands(bytes, start, ends);
    while at < ends {
        let (cmd, end) = read_command(bytes, at, ends)?;
        match cmd {
            Cmd::Eop => return Ok((at, end)),
            Cmd::FntDef(_) => {
                earlier.push(FontDef { at: at as u32 })?;
                at = pass_commands(bytes, end, ends);
            }
            other => {
                if !is_inner(&other) {
                    return Err(DocFault::BadOrder { at: at as u32 });
                }
                at = pass_commands(bytes, end, ends);
            }
        }
    }
    Err(DocFault::BadOrder { at: ends as u32 })
}
