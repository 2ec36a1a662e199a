//! Commands that follow one another.
ghost use Rattle.std.specs.Prelude.{◌≤◌, ◌<◌, ◌+◌, ◌-◌, ℕ, List, length, drop, slice_range};
ghost use Rattle.dvi_ops.specs.Following.{IsFirst};
ghost use Rattle.dvi_ops.specs.Placed.{Placed, Lexes};
ghost use Rattle.dvi_ops.specs.Spelling.{Spell};
ghost use Rattle.dvi_ops.specs.View.{view};

use crate::cmd::Cmd;
use crate::read::next_cmd;

/// The command at a place, and the place behind it, where from that place on the bytes are whole commands. So a loop over them goes
/// from each place to the next until the bytes end, and meets no fault.
#[inline(always)]
pub fn command_at(bytes: &[u8], at: usize) -> (Cmd<'_>, usize)
    requires inside { at < length bytes.now }
    requires whole { (from : ℕ) × (commands : List Placed) × Lexes from (drop at bytes.now) commands }
    ensures further { at < result.1 }
    ensures within { result.1 ≤ length bytes.now }
    ensures spelled { Spell (view result.0) (slice_range bytes.now at result.1) }
    ensures first { (from : ℕ) (commands : List Placed) → Lexes from (drop at bytes.now) commands → IsFirst from (view result.0) (from + (result.1 - at)) (drop result.1 bytes.now) commands }
{
    match next_cmd(bytes, at) {
        Ok(found) => found,
        Err(_) => unreachable!(),
    }
}
