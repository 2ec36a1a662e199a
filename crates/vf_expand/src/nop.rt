//! Nops.
ghost use Rattle.std.specs.Prelude.{◌≤◌, ◌+◌, length};
ghost use Rattle.vf_expand.specs.Nops.{AreNops};

use dvi_ops::is_nop;

/// The place behind the nops that stand one behind another from a place on, `most` of them at most.
// A loop of its own: its state is a place, and stays in registers.
#[inline(never)]
pub fn behind_nops(bytes: &[u8], start: usize, most: usize) -> usize
    requires inside { start + most ≤ length bytes.now }
    ensures further { start ≤ result }
    ensures most { result ≤ start + most }
    ensures nops { AreNops bytes.now start result }
{
    let end = start + most;
    let mut at = start;
    while at < end && is_nop(bytes, at) {
        at += 1;
    }
    at
}
