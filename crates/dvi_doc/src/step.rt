//! One command further in a file whose end is known.
ghost use Rattle.std.specs.Prelude.{◌≡◌, ◌≤◌, ◌<◌, ◌^◌, ℕ, [], length, IfOk, IfErr, IfSome, MatchOption};
ghost use Rattle.dvi_ops.specs.Command.{Command, Definition};
ghost use Rattle.dvi_ops.specs.Command.Command.{FntDef};
ghost use Rattle.dvi_doc.specs.Document.{put_definition};
ghost use Rattle.dvi_doc.specs.Grammar.{IsInner};
ghost use Rattle.dvi_ops.specs.View.{def_view, view};
ghost use Rattle.dvi_doc.specs.Order.{Reading, Reaches, SpelledTo};
ghost use Rattle.dvi_doc.specs.Faults.{FaultIn};
ghost use Rattle.dvi_doc.specs.Steps.{EndsAt, PassedTo};

use crate::fault::DocFault;
use dvi_ops::{Cmd, Def, OpFault, definition_end, definition_of, next_cmd, one_spelling, pass};

/// The command at a place that reading came to, and the place behind it, which isn't past the trailer's `post_post`.
pub fn read_command(bytes: &[u8], at: usize, ends: usize) -> Result<(Cmd<'_>, usize), DocFault>
    requires small { length bytes.now ≤ 2 ^ 26 }
    requires trailer { EndsAt bytes.now ends }
    requires before { at < ends }
    requires reached { (r : Reading) × Reaches bytes.now at r }
    ensures found { IfOk result (λ r. SpelledTo bytes.now at r.1 (view r.0) × (r.1 ≤ ends)) }
    ensures fault { IfErr result (FaultIn bytes.now) }
{
    match next_cmd(bytes, at) {
        Ok((cmd, end)) => {
            if end > ends {
                return Err(DocFault::BadOrder { at: ends as u32 });
            }
            Ok((cmd, end))
        }
        Err(OpFault::Undefined(place)) => Err(DocFault::Undefined { at: place as u32 }),
        Err(OpFault::Short(place)) => Err(DocFault::Short { at: place as u32 }),
    }
}

/// The place behind the command at a place, where it is one that a page may hold, without a text; `None` where it isn't, or isn't
/// whole before the trailer's `post_post`.
#[inline(always)]
fn pass_command(bytes: &[u8], at: usize, ends: usize) -> Option<usize>
    requires before { at < ends }
    requires inside { ends ≤ length bytes.now }
    ensures { IfSome result (λ end. (end ≤ ends) × (c : Command) × SpelledTo bytes.now at end c × IsInner c × (put_definition c [] ≡ [])) }
{
    let end = pass(bytes, at)?;
    if end <= ends { Some(end) } else { None }
}

/// The place behind the commands from a place on that a page may hold, each without a text and whole before the trailer's `post_post`.
// A loop of its own, so that its state stays in registers.
#[inline(never)]
pub fn pass_commands(bytes: &[u8], start: usize, ends: usize) -> usize
    requires before { start ≤ ends }
    requires inside { ends ≤ length bytes.now }
    ensures passed { (n : ℕ) × PassedTo n bytes.now start result }
    ensures further { start ≤ result }
    ensures within { result ≤ ends }
{
    let mut at = start;
    while at < ends {
        match pass_command(bytes, at, ends) {
            Some(end) => at = end,
            None => return at,
        }
    }
    at
}

/// The font definition at a place, and the place behind it; `None` exactly where none stands there that ends before the trailer's
/// `post_post`. [`read_command`] tells what else stands there.
#[inline(always)]
pub fn pass_definition(bytes: &[u8], at: usize, ends: usize) -> Option<(Def<'_>, usize)>
    requires before { at < ends }
    requires inside { ends ≤ length bytes.now }
    ensures { MatchOption result ((d : Definition) (end : ℕ) → SpelledTo bytes.now at end (FntDef d) → end ≤ ends → ⊥) (λ r. SpelledTo bytes.now at r.1 (FntDef (def_view r.0)) × (r.1 ≤ ends)) }
{
    one_spelling();
    let end = definition_end(bytes, at)?;
    if end <= ends {
        Some((definition_of(&bytes[at..end]), end))
    } else {
        None
    }
}
