//! The parts of a file's body.
ghost use Rattle.std.specs.Prelude.{◌≡◌, ◌≢◌, ◌≤◌, ◌<◌, ◌+◌, ◌^◌, length, drop, take, slice_index, IfOk, IfErr};
ghost use Rattle.pk_raster.specs.Parts.{by_form, head_len, content_len, code_in, extent, part_of};
ghost use Rattle.pk_raster.specs.PartFaults.{IsPartAt, NoPartAt, part_view, FitsIn};

use crate::fault::PkFault;
use dv_base::unsigned;

/// A character: its flag byte, its code, and the bytes of its sizes and raster.
#[derive(Clone, Copy)]
pub struct CharacterPacket<'a> {
    pub flag: u8,
    pub code: u32,
    pub content: &'a [u8],
}

#[derive(Clone, Copy)]
pub enum BodyPart<'a> {
    Character(CharacterPacket<'a>),

    /// A special, a special number or a nop.
    Other,
}

/// The number that belongs to the form of a character's flag byte.
pub fn by_form(flag: u8, short: usize, extended: usize, long: usize) -> usize
    ensures { result ≡ by_form flag short extended long }
{
    match flag % 8 {
        0..=3 => short,
        4..=6 => extended,
        _ => long,
    }
}

/// How many bytes stand between a flag byte and those that a length counts.
#[tactic(auto, unfolding(crate::specs::Parts::head_len))]
fn head_len(flag: u8) -> usize
    requires { flag ≤ 246 }
    ensures value { result ≡ head_len flag }
    ensures few { result ≤ 8 }
{
    match flag {
        0..=239 => by_form(flag, 2, 3, 8),
        240..=243 => (flag - 239) as usize,
        244 => 4,
        _ => 0,
    }
}

/// How many bytes a length counts, where `args` stand behind the flag byte.
#[tactic(auto, unfolding(crate::specs::Parts::content_len, crate::specs::Parts::head_len))]
fn content_len(flag: u8, args: &[u8]) -> usize
    requires room { head_len flag ≤ length args.now }
    requires flag { flag ≤ 246 }
    ensures value { result ≡ content_len flag args.now }
    ensures small { result < 2 ^ 32 }
{
    match flag {
        0..=239 => match flag % 8 {
            0..=3 => unsigned(args, 0, 1) as usize + 256 * (flag % 4) as usize,
            4..=6 => unsigned(args, 0, 2) as usize + 65_536 * (flag % 4) as usize,
            _ => unsigned(args, 0, 4) as usize,
        },
        240..=243 => unsigned(args, 0, (flag - 239) as usize) as usize,
        _ => 0,
    }
}

/// The code of a character.
#[tactic(auto, unfolding(crate::specs::Parts::code_in, crate::specs::Parts::head_len))]
fn code_in(flag: u8, args: &[u8]) -> u32
    requires flag { flag < 240 }
    requires room { head_len flag ≤ length args.now }
    ensures { result ≡ code_in flag args.now }
{
    match flag % 8 {
        0..=3 => unsigned(args, 1, 1),
        4..=6 => unsigned(args, 2, 1),
        _ => unsigned(args, 4, 4),
    }
}

/// The part of a flag byte and all bytes behind it.
#[tactic(auto, unfolding(crate::specs::Parts::part_of, crate::specs::Parts::head_len))]
fn part_of<'a>(flag: u8, args: &'a [u8]) -> BodyPart<'a>
    requires flag { flag ≤ 246 }
    requires room { head_len flag ≤ length args.now }
    ensures value { part_view result ≡ part_of flag args.now }
    ensures fits { FitsIn (length args.now) result }
{
    if flag >= 240 {
        return BodyPart::Other;
    }
    BodyPart::Character(CharacterPacket {
        flag,
        code: code_in(flag, args),
        content: &args[head_len(flag)..],
    })
}

/// Reads the part at a place, and answers it with the place behind it.
pub fn next_part(bytes: &[u8], at: usize) -> Result<(BodyPart<'_>, usize), PkFault>
    requires inside { at < length bytes.now }
    requires body { slice_index bytes.now at ≢ 245 }
    ensures found { IfOk result (λ r. IsPartAt bytes.now at r.0 r.1) }
    ensures fits { IfOk result (λ r. FitsIn (2 ^ 40) r.0) }
    ensures fault { IfErr result (NoPartAt bytes.now at) }
{
    let flag = bytes[at];
    if flag > 246 {
        return Err(PkFault::Undefined(at));
    }
    let args = &bytes[at + 1..];
    let head = head_len(flag);
    if args.len() < head {
        return Err(PkFault::Short(at));
    }
    let len = head + content_len(flag, args);
    if args.len() < len {
        return Err(PkFault::Short(at));
    }
    Ok((part_of(flag, &args[..len]), at + 1 + len))
}
