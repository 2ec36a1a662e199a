//! Reads a VF file.
ghost use Rattle.std.specs.Prelude.{◌≡◌, ◌≢◌, ◌≤◌, ◌<◌, ◌+◌, ℕ, List, length, slice_index, slice_range, map, IfOk, IfErr, OnOk, OnErr, MatchOption, MatchBool};
ghost use Rattle.dvi_ops.specs.Command.{Definition};
ghost use Rattle.dvi_ops.specs.Command.Command.{FntDef};
ghost use Rattle.dvi_ops.specs.Spelling.{Spell, RunsPast};
ghost use Rattle.dvi_ops.specs.View.{def_view, NoSpelling};
ghost use Rattle.vf_packets.specs.Font.{VirtualFont, Apart};
ghost use Rattle.vf_packets.specs.LocalViews.{local_view};
ghost use Rattle.vf_packets.specs.File.{IsVf, HasPreamble, body_at, checksum_of, IsDefinitionByte};
ghost use Rattle.vf_packets.specs.Faults.{VfFaultIs, NoFont, RefusesFile, DefinedTo, LocalsTo, NoDefinitionAt, PacketsTo, EndsAt, OnlyFill};
ghost use Rattle.vf_packets.specs.Slots.{packet_in, font_in, AreSlots, IsTaken};
ghost use Rattle.vf_packets.specs.declared.fault.VfFault.TheVariants.{OutOfMemory, Short};

use crate::fault::VfFault;
use crate::local::{Local, Locals, local_font};
use crate::packet::{LONG, next_packet};
use crate::program::is_program;
use crate::vf::{Slot, Span, Vf};
use dv_base::Cursor;
use dvi_ops::{Cmd, Def, next_cmd, one_spelling};
use std::alloc::Global;

/// The byte that begins the preamble.
const PRE: u8 = 247;

/// The version of the format.
const ID: u8 = 202;

/// The byte that ends the packets and fills the file up.
const POST: u8 = 248;

/// The checksum in the preamble, and the place behind it.
fn read_preamble(bytes: &[u8]) -> Option<(u32, usize)>
    ensures { MatchOption result (HasPreamble bytes.now → ⊥) (λ r. HasPreamble bytes.now × (r.0 ≡ checksum_of bytes.now) × (r.1 ≡ body_at bytes.now)) }
{
    let mut cursor = Cursor::new(bytes);
    let first = cursor.u8()?;
    let id = cursor.u8()?;
    let comment = cursor.u8()?;
    if first != PRE || id != ID {
        return None;
    }
    cursor.take(comment as usize)?;
    let checksum = cursor.u32()?;
    let _design = cursor.u32()?;
    Some((checksum, cursor.place()))
}

/// Whether a definition begins with the byte.
fn is_definition(byte: u8) -> bool
    ensures { MatchBool result (IsDefinitionByte byte) (IsDefinitionByte byte → ⊥) }
{
    243 <= byte && byte <= 246
}

/// The definition at a place, and the place behind it; `None` where it runs past the end.
fn next_definition(bytes: &[u8], at: usize) -> Option<(Def<'_>, usize)>
    requires inside { at < length bytes.now }
    requires byte { IsDefinitionByte (slice_index bytes.now at) }
    ensures { MatchOption result (RunsPast bytes.now at × NoSpelling bytes.now at) (λ r. (at < r.1) × (r.1 ≤ length bytes.now) × Spell (FntDef (def_view r.0)) (slice_range bytes.now at r.1)) }
{
    match next_cmd(bytes, at) {
        Ok((cmd, next)) => match cmd {
            Cmd::FntDef(def) => Some((def, next)),
            _ => unreachable!(),
        },
        Err(_) => None,
    }
}

/// Takes the definition at a place, and answers the place behind it.
fn take_definition(fonts: &mut Vec<Local>, bytes: &[u8], at: usize) -> Result<usize, VfFault>
    requires inside { at < length bytes.now }
    requires byte { IsDefinitionByte (slice_index bytes.now at) }
    requires reached { LocalsTo bytes.now (map local_view fonts.old.items) at }
    ensures further { IfOk result (λ next. at < next) }
    ensures ok { IfOk result (λ next. LocalsTo bytes.now (map local_view fonts.new.items) next) }
    ensures err { IfErr result (RefusesFile bytes.now) }
{
    one_spelling();
    let Some((def, next)) = next_definition(bytes, at) else {
        return Err(VfFault::Short(at));
    };
    let Some(font) = local_font(&def) else {
        return Err(VfFault::BadName(i64::from(def.k)));
    };
    fonts.reserve(1)?;
    fonts.push_reserved(font);
    Ok(next)
}

/// The local fonts, and the place behind their definitions.
fn read_locals(alloc: Global, bytes: &[u8], start: usize) -> Result<(Locals, usize), VfFault>
    requires preamble { HasPreamble bytes.now }
    requires start { start ≡ body_at bytes.now }
    ensures found { IfOk result (λ r. LocalsTo bytes.now r.0 r.1 × Apart r.0) }
    ensures stops { IfOk result (λ r. NoDefinitionAt bytes.now r.1) }
    ensures err { IfErr result (RefusesFile bytes.now) }
{
    one_spelling();
    let mut fonts = Vec::new(alloc);
    let mut at = start;
    'definitions: while at < bytes.len() && is_definition(bytes[at]) {
        at = take_definition(&mut fonts, bytes, at)?;
    }
    Ok((Locals::new(alloc, fonts)?, at))
}

/// Whether a code has a packet.
fn is_taken(slot: Slot) -> bool
    ensures { MatchBool result (IsTaken slot) (IsTaken slot → ⊥) }
{
    match slot {
        Slot::Empty => false,
        Slot::Packet(_) => true,
    }
}

/// Takes the packet at a place into the table of codes, and answers the place behind it.
fn take_packet(
    slots: &mut Vec<Slot>,
    bytes: &[u8],
    middle: usize,
    at: usize,
) -> Result<usize, VfFault>
    requires inside { at < length bytes.now }
    requires byte { slice_index bytes.now at ≢ 248 }
    requires slots { AreSlots bytes.now slots.old.items }
    requires reached { PacketsTo bytes.now middle (map (packet_in bytes.now) slots.old.items) at }
    ensures further { IfOk result (λ next. at < next) }
    ensures slots { OnOk result (AreSlots bytes.now slots.new.items) }
    ensures ok { IfOk result (λ next. PacketsTo bytes.now middle (map (packet_in bytes.now) slots.new.items) next) }
    ensures err { IfErr result (RefusesFile bytes.now) }
{
    one_spelling();
    if bytes[at] > LONG {
        return Err(VfFault::BadOrder(at));
    }
    let Some(packet) = next_packet(bytes, at) else {
        return Err(VfFault::Short(at));
    };
    if packet.code <= 255 {
        let code = packet.code as u8;
        if !is_program(&bytes[packet.start..packet.end]) {
            return Err(VfFault::BadOp(code));
        }
        if is_taken(slots[code as usize]) {
            return Err(VfFault::Twice(code));
        }
        slots[code as usize] = Slot::Packet(Span {
            start: packet.start,
            end: packet.end,
        });
    }
    Ok(packet.end)
}

/// Where the packets of the codes stand, and the place behind the last packet.
fn read_packets(alloc: Global, bytes: &[u8], middle: usize) -> Result<(Vec<Slot>, usize), VfFault>
    requires defined { (ds : List Definition) × DefinedTo bytes.now ds middle }
    requires stops { NoDefinitionAt bytes.now middle }
    ensures slots { IfOk result (λ r. AreSlots bytes.now r.0.items) }
    ensures found { IfOk result (λ r. PacketsTo bytes.now middle (map (packet_in bytes.now) r.0.items) r.1) }
    ensures ends { IfOk result (λ r. EndsAt bytes.now r.1) }
    ensures err { IfErr result (RefusesFile bytes.now) }
{
    let mut slots = vec![in alloc; Slot::Empty; 256]?;
    let mut at = middle;
    'packets: while at < bytes.len() && bytes[at] != POST {
        at = take_packet(&mut slots, bytes, middle, at)?;
    }
    Ok((slots, at))
}

/// Whether one or more bytes 248 stand from a place on, and nothing else.
fn is_tail(bytes: &[u8], at: usize) -> bool
    ensures { MatchBool result (OnlyFill bytes.now at) (OnlyFill bytes.now at → ⊥) }
{
    if bytes.len() <= at {
        return false;
    }
    for place in at..bytes.len() {
        if bytes[place] != POST {
            return false;
        }
    }
    true
}

/// The parts of a file: its checksum, its local fonts, and where the packets of the codes stand.
fn read_parts(alloc: Global, bytes: &[u8]) -> Result<(u32, Locals, Vec<Slot>), VfFault>
    ensures slots { IfOk result (λ r. AreSlots bytes.now r.2.items) }
    ensures found { IfOk result (λ r. IsVf bytes.now (font_in r.0 r.1 bytes.now r.2.items)) }
    ensures none { IfErr result (λ e. e ≢ OutOfMemory → NoFont bytes.now) }
    ensures fault { IfErr result (VfFaultIs bytes.now) }
{
    one_spelling();
    let (checksum, start) = match read_preamble(bytes) {
        Some(preamble) => preamble,
        None => return Err(VfFault::BadPreamble),
    };
    let (locals, middle) = read_locals(alloc, bytes, start)?;
    let (slots, end) = read_packets(alloc, bytes, middle)?;
    if !is_tail(bytes, end) {
        return Err(VfFault::NoPost);
    }
    Ok((checksum, locals, slots))
}

impl Vf {
    /// Reads a VF file, and keeps its bytes. A packet with a code above 255 is passed over unread.
    pub fn read(alloc: Global, bytes: Vec<u8>) -> Result<Vf, VfFault>
        ensures found { IfOk result (λ vf. IsVf bytes.items vf) }
        ensures none { IfErr result (λ e. e ≢ OutOfMemory → NoFont bytes.items) }
        ensures fault { IfErr result (VfFaultIs bytes.items) }
    {
        let (checksum, locals, slots) = read_parts(alloc, &bytes)?;
        Ok(Vf {
            checksum,
            bytes,
            locals,
            slots,
        })
    }
}
