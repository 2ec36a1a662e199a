//! Passes over commands whose values aren't asked for.
ghost use Rattle.std.specs.Prelude.{◌≡◌, ◌≤◌, ◌<◌, ◌+◌, ◌⊎◌, length, slice_range, IfSome, IsTrue};
ghost use Rattle.dvi_ops.specs.Command.{Command};
ghost use Rattle.dvi_ops.specs.Command.Command.{Nop};
ghost use Rattle.dvi_ops.specs.Spelling.{Spell};
ghost use Rattle.dvi_ops.specs.Plain.{IsPlain};

use crate::length::{fixed_len, is_single};

/// The operation byte of nop.
const NOP: u8 = 138;

/// Whether the byte begins a command that stands inside pages and has no text.
#[inline(always)]
fn is_plain(op: u8) -> bool
    ensures { IsTrue result → (op < 139) ⊎ ((140 < op) × (op < 239)) }
{
    op < 139 || (140 < op && op < 239)
}

/// The place behind the command at a place, where it is one that stands inside pages and has no text; else `None`, as also where
/// the bytes end before it does. [`next_cmd`](crate::next_cmd) then tells what stands there.
#[inline(always)]
pub fn pass(bytes: &[u8], at: usize) -> Option<usize>
    requires { at < length bytes.now }
    ensures { IfSome result (λ next. (at < next) × (next ≤ length bytes.now) × (cmd : Command) × IsPlain cmd × Spell cmd (slice_range bytes.now at next)) }
{
    let op = bytes[at];
    if is_single(op) {
        return Some(at + 1);
    }
    if !is_plain(op) {
        return None;
    }
    let rest = &bytes[at + 1..];
    let fixed = fixed_len(op);
    if rest.len() < fixed {
        return None;
    }
    Some(at + 1 + fixed)
}

/// Whether nop stands at a place.
#[inline(always)]
pub fn is_nop(bytes: &[u8], at: usize) -> bool
    requires { at < length bytes.now }
    ensures { IsTrue result → Spell Nop (slice_range bytes.now at (at + 1)) }
{
    bytes[at] == NOP
}
