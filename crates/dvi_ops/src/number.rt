//! Codes and font numbers.
ghost use Rattle.std.specs.Prelude.{◌≡◌, ◌≤◌, length};
ghost use Rattle.dvi_ops.specs.Spelling.{code};

use dv_base::{signed, unsigned};

/// A code or font number of `n` bytes: unsigned up to three, signed with four.
#[tactic(auto, unfolding(crate::specs::Spelling::code))]
pub fn code(args: &[u8], n: usize) -> i32
    requires low { 1 ≤ n }
    requires high { n ≤ 4 }
    requires room { n ≤ length args.now }
    ensures { result ≡ code n args.now }
{
    if n < 4 {
        unsigned(args, 0, n) as i32
    } else {
        signed(args, 0, 4)
    }
}
