//! Font definitions in their bytes.
ghost use Rattle.std.specs.Prelude.{◌≡◌, ◌≤◌, ◌<◌, ℕ, length, slice_range, MatchOption};
ghost use Rattle.dvi_ops.specs.Command.{Definition};
ghost use Rattle.dvi_ops.specs.Command.Command.{FntDef};
ghost use Rattle.dvi_ops.specs.Defined.{defined, IsDefinition};
ghost use Rattle.dvi_ops.specs.Spelling.{Spell};
ghost use Rattle.dvi_ops.specs.View.{def_view};

use crate::cmd::Def;
use crate::length::{fixed_len, text_len};
use crate::read::read_def;

/// The place behind the font definition at a place; `None` exactly where none stands there that is whole.
/// [`next_cmd`](crate::next_cmd) tells what else stands there.
// Of use where many definitions follow one another: no value of the largest command's size is made for each.
#[inline(always)]
#[tactic(auto, unfolding(crate::specs::Spelling::fixed_len))]
pub fn definition_end(bytes: &[u8], at: usize) -> Option<usize>
    requires { at < length bytes.now }
    ensures { MatchOption result
        ((d : Definition) → (end : ℕ) → at < end → end ≤ length bytes.now → Spell (FntDef d) (slice_range bytes.now at end) → ⊥)
        (λ end. (at < end) × (end ≤ length bytes.now) × IsDefinition (slice_range bytes.now at end)) }
{
    let op = bytes[at];
    if op < 243 || 246 < op {
        return None;
    }
    let rest = &bytes[at + 1..];
    let fixed = fixed_len(op);
    if rest.len() < fixed {
        return None;
    }
    let len = fixed + text_len(op, rest);
    if rest.len() < len {
        return None;
    }
    Some(at + 1 + len)
}

/// The definition that bytes spell.
pub fn definition_of(bytes: &[u8]) -> Def<'_>
    requires { IsDefinition bytes.now }
    ensures { def_view result ≡ defined bytes.now }
{
    read_def(bytes[0] as usize - 242, &bytes[1..])
}
