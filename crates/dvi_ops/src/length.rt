//! How many bytes a command has behind its operation byte.
ghost use Rattle.std.specs.Prelude.{◌≡◌, ◌≤◌, ◌<◌, ◌⊎◌, ◌^◌, MatchBool, length};
ghost use Rattle.dvi_ops.specs.Spelling.{fixed_len, text_len};

use dv_base::unsigned;

/// Whether the operation is one of a page's commands that have no operands, eop apart.
#[inline(always)]
#[tactic(auto, unfolding(crate::specs::Spelling::fixed_len))]
pub fn is_single(op: u8) -> bool
    ensures { MatchBool result ((fixed_len op ≡ 0) × ((op < 139) ⊎ ((140 < op) × (op < 235)))) ((op ≡ 140) ⊎ ((0 < fixed_len op) ⊎ (250 ≤ op))) }
{
    matches!(op, 0..=127 | 138 | 141 | 142 | 147 | 152 | 161 | 166 | 171..=234)
}

/// How many bytes of operands stand behind `op`, without a text at their end.
#[tactic(auto, unfolding(crate::specs::Spelling::fixed_len))]
pub fn fixed_len(op: u8) -> usize
    ensures value { result ≡ fixed_len op }
    ensures few { result ≤ 44 }
{
    let op = op as usize;
    match op {
        128..=131 => op - 127,
        132 | 137 => 8,
        133..=136 => op - 132,
        139 => 44,
        143..=146 => op - 142,
        147..=151 => op - 147,
        152..=156 => op - 152,
        157..=160 => op - 156,
        161..=165 => op - 161,
        166..=170 => op - 166,
        235..=238 => op - 234,
        239..=242 => op - 238,
        243..=246 => op - 228,
        247 => 14,
        248 => 28,
        249..=255 => 5,
        _ => 0,
    }
}

/// The length of the text at the end of a special, a definition or `pre`, which the operands before it tell; else 0.
#[tactic(auto, unfolding(crate::specs::Spelling::text_len, crate::specs::Spelling::fixed_len))]
pub fn text_len(op: u8, args: &[u8]) -> usize
    requires { fixed_len op ≤ length args.now }
    ensures value { result ≡ text_len op args.now }
    ensures small { result < 2 ^ 32 }
{
    let n = op as usize;
    match n {
        239..=242 => unsigned(args, 0, n - 238) as usize,
        243..=246 => args[n - 242 + 12] as usize + args[n - 242 + 13] as usize,
        247 => args[13] as usize,
        _ => 0,
    }
}
