//! Reads one command: its length from the operation byte and the operands that count a text, then its operands.
ghost use Rattle.std.specs.Prelude.{◌≡◌, ◌≤◌, ◌<◌, ◌+◌, ◌⊎◌, length, slice_range, IfOk, IfErr, OnErr};
ghost use Rattle.dvi_ops.specs.Spelling.{byte_at, fixed_len, low, motion, high, definition, counts, meaning, Spell, preamble, postamble};
ghost use Rattle.dvi_ops.specs.View.{view, def_view, head_view, tail_view, FaultAt, NoSpelling};

use crate::cmd::{Cmd, Def, Head, OpFault, Tail};
use crate::length::{fixed_len, text_len};
use crate::number::code;
use dv_base::{signed, unsigned};

/// Reads the command at a place, and answers it with the place after it (DVI format, the table of commands).
///
/// Texts are lent from `bytes`. Where it answers a fault, no spelling of a command begins at the place: `Undefined` where the byte
/// there is 250 or more, `Short` where the bytes end before the command does. The place in a fault is `at`.
// Most commands of a page are one byte: these are answered where the caller stands, each by a return of its own, so that nothing
// but a small value is written.
#[inline(always)]
#[tactic(auto, unfolding(crate::specs::Spelling::fixed_len))]
pub fn next_cmd(bytes: &[u8], at: usize) -> Result<(Cmd<'_>, usize), OpFault>
    requires { at < length bytes.now }
    ensures found { IfOk result (λ r. (at < r.1) × (r.1 ≤ length bytes.now) × Spell (view r.0) (slice_range bytes.now at r.1)) }
    ensures fault { IfErr result (λ e. FaultAt bytes.now at e) }
    ensures none { OnErr result (NoSpelling bytes.now at) }
{
    let op = bytes[at];
    match op {
        0..=127 => Ok((Cmd::Set(op as i64), at + 1)),
        138 => Ok((Cmd::Nop, at + 1)),
        141 => Ok((Cmd::Push, at + 1)),
        142 => Ok((Cmd::Pop, at + 1)),
        147 => Ok((Cmd::W0, at + 1)),
        152 => Ok((Cmd::X0, at + 1)),
        161 => Ok((Cmd::Y0, at + 1)),
        166 => Ok((Cmd::Z0, at + 1)),
        171..=234 => Ok((Cmd::Fnt((op - 171) as i64), at + 1)),
        _ => next_long(bytes, at),
    }
}

/// Reads the command at a place where none without operands stands, but for eop.
// Kept out of its callers, and each kind with a return of its own: so no caller's loop moves a value of the largest command's size.
#[inline(never)]
fn next_long(bytes: &[u8], at: usize) -> Result<(Cmd<'_>, usize), OpFault>
    requires inside { at < length bytes.now }
    requires long { (byte_at bytes.now at ≡ 140) ⊎ ((0 < fixed_len (byte_at bytes.now at)) ⊎ (250 ≤ byte_at bytes.now at)) }
    ensures found { IfOk result (λ r. (at < r.1) × (r.1 ≤ length bytes.now) × Spell (view r.0) (slice_range bytes.now at r.1)) }
    ensures fault { IfErr result (λ e. FaultAt bytes.now at e) }
    ensures none { OnErr result (NoSpelling bytes.now at) }
{
    let op = bytes[at];
    if op >= 250 {
        return Err(OpFault::Undefined(at));
    }
    let rest = &bytes[at + 1..];
    let fixed = fixed_len(op);
    if rest.len() < fixed {
        return Err(OpFault::Short(at));
    }
    if op < 143 {
        return Ok((read_low(op, &rest[..fixed]), at + 1 + fixed));
    }
    if op < 171 {
        return Ok((read_motion(op, &rest[..fixed]), at + 1 + fixed));
    }
    let len = fixed + text_len(op, rest);
    if rest.len() < len {
        return Err(OpFault::Short(at));
    }
    Ok((read_high(op, &rest[..len]), at + 1 + len))
}

/// One of the moves with a distance, 143 to 170.
#[tactic(auto, unfolding(crate::specs::Spelling::motion, crate::specs::Spelling::fixed_len))]
fn read_motion<'a>(op: u8, args: &'a [u8]) -> Cmd<'a>
    requires low { 143 ≤ op }
    requires high { op < 171 }
    requires long { 0 < fixed_len op }
    requires room { fixed_len op ≤ length args.now }
    ensures { view result ≡ motion op args.now }
{
    let n = op as usize;
    match n {
        143..=146 => Cmd::Right(signed(args, 0, n - 142)),
        148..=151 => Cmd::W(signed(args, 0, n - 147)),
        153..=156 => Cmd::X(signed(args, 0, n - 152)),
        157..=160 => Cmd::Down(signed(args, 0, n - 156)),
        162..=165 => Cmd::Y(signed(args, 0, n - 161)),
        _ => Cmd::Z(signed(args, 0, n - 166)),
    }
}

/// The ten counts of a page.
#[tactic(auto, unfolding(crate::specs::Spelling::counts))]
fn read_counts(args: &[u8]) -> [i32; 10]
    requires { 44 ≤ length args.now }
    ensures { result ≡ counts args.now }
{
    [
        signed(args, 0, 4),
        signed(args, 4, 4),
        signed(args, 8, 4),
        signed(args, 12, 4),
        signed(args, 16, 4),
        signed(args, 20, 4),
        signed(args, 24, 4),
        signed(args, 28, 4),
        signed(args, 32, 4),
        signed(args, 36, 4),
    ]
}

/// A character with its code behind it, a rule, bop or eop, 128 to 140.
#[tactic(auto, unfolding(crate::specs::Spelling::low, crate::specs::Spelling::fixed_len))]
fn read_low<'a>(op: u8, args: &'a [u8]) -> Cmd<'a>
    requires high { op < 143 }
    requires long { (op ≡ 140) ⊎ (0 < fixed_len op) }
    requires room { fixed_len op ≤ length args.now }
    ensures { view result ≡ low op args.now }
{
    let n = op as usize;
    match n {
        128..=131 => Cmd::Set(i64::from(code(args, n - 127))),
        132 => Cmd::SetRule {
            a: signed(args, 0, 4),
            b: signed(args, 4, 4),
        },
        133..=136 => Cmd::Put(i64::from(code(args, n - 132))),
        137 => Cmd::PutRule {
            a: signed(args, 0, 4),
            b: signed(args, 4, 4),
        },
        139 => Cmd::Bop {
            counts: read_counts(args),
            back: signed(args, 40, 4),
        },
        _ => Cmd::Eop,
    }
}

/// A font definition whose number has `n` bytes.
#[tactic(auto, unfolding(crate::specs::Spelling::definition))]
pub fn read_def<'a>(n: usize, args: &'a [u8]) -> Def<'a>
    requires low { 1 ≤ n }
    requires high { n ≤ 4 }
    requires room { n + 14 ≤ length args.now }
    ensures { def_view result ≡ definition n args.now }
{
    Def {
        k: code(args, n),
        checksum: unsigned(args, n, 4),
        size: signed(args, n + 4, 4),
        design: signed(args, n + 8, 4),
        area: args[n + 12],
        name: &args[n + 14..],
    }
}

/// The operands of `pre`.
#[tactic(auto, unfolding(crate::specs::Spelling::preamble))]
fn read_pre<'a>(args: &'a [u8]) -> Head<'a>
    requires { 14 ≤ length args.now }
    ensures { head_view result ≡ preamble args.now }
{
    Head {
        id: args[0],
        num: signed(args, 1, 4),
        den: signed(args, 5, 4),
        mag: signed(args, 9, 4),
        comment: &args[14..],
    }
}

/// The operands of `post`.
#[tactic(auto, unfolding(crate::specs::Spelling::postamble))]
fn read_post(args: &[u8]) -> Tail
    requires { 28 ≤ length args.now }
    ensures { tail_view result ≡ postamble args.now }
{
    Tail {
        back: signed(args, 0, 4),
        num: signed(args, 4, 4),
        den: signed(args, 8, 4),
        mag: signed(args, 12, 4),
        tall: signed(args, 16, 4),
        wide: signed(args, 20, 4),
        depth: unsigned(args, 24, 2) as u16,
        pages: unsigned(args, 26, 2) as u16,
    }
}

/// A font with its number behind it, a special, a definition or what stands round the pages, 235 to 249.
#[tactic(auto, unfolding(crate::specs::Spelling::high, crate::specs::Spelling::fixed_len))]
fn read_high<'a>(op: u8, args: &'a [u8]) -> Cmd<'a>
    requires low { 171 ≤ op }
    requires high { op < 250 }
    requires long { 0 < fixed_len op }
    requires room { fixed_len op ≤ length args.now }
    ensures { view result ≡ high op args.now }
{
    let n = op as usize;
    match n {
        235..=238 => Cmd::Fnt(i64::from(code(args, n - 234))),
        239..=242 => Cmd::Xxx(&args[n - 238..]),
        243..=246 => Cmd::FntDef(read_def(n - 242, args)),
        247 => Cmd::Pre(read_pre(args)),
        248 => Cmd::Post(read_post(args)),
        _ => Cmd::PostPost {
            back: unsigned(args, 0, 4),
            id: args[4],
        },
    }
}
