//! The packets of a VF file.
ghost use Rattle.std.specs.Prelude.{◌≡◌, ◌≤◌, ◌<◌, ◌+◌, ◌^◌, length, slice_index, MatchOption};
ghost use Rattle.vf_packets.specs.Packets.{head_len, content_len, code_in};
ghost use Rattle.vf_packets.specs.PacketFaults.{IsPacketAt, IsShortPacket};

use dv_base::unsigned;

/// The first byte of a long packet; less in a short one is its length.
pub const LONG: u8 = 242;

/// A packet: its code, and where its commands begin and end.
#[derive(Clone, Copy)]
pub struct Packet {
    pub code: u32,
    pub start: usize,
    pub end: usize,
}

/// How many bytes stand between the first byte of a packet and its commands: length, code and width.
#[tactic(auto, unfolding(crate::specs::Packets::head_len))]
fn head_len(first: u8) -> usize
    ensures value { result ≡ head_len first }
    ensures few { result ≤ 12 }
{
    if first < LONG { 4 } else { 12 }
}

/// How many bytes of commands a packet has.
#[tactic(auto, unfolding(crate::specs::Packets::content_len, crate::specs::Packets::head_len))]
fn content_len(first: u8, args: &[u8]) -> usize
    requires { head_len first ≤ length args.now }
    ensures value { result ≡ content_len first args.now }
    ensures few { result < 2 ^ 32 }
{
    if first < LONG {
        first as usize
    } else {
        unsigned(args, 0, 4) as usize
    }
}

/// The code of a packet.
#[tactic(auto, unfolding(crate::specs::Packets::code_in, crate::specs::Packets::head_len))]
fn code_in(first: u8, args: &[u8]) -> u32
    requires { head_len first ≤ length args.now }
    ensures { result ≡ code_in first args.now }
{
    if first < LONG {
        args[0] as u32
    } else {
        unsigned(args, 4, 4)
    }
}

/// Reads the packet at a place; `None` where it runs past the end.
pub fn next_packet(bytes: &[u8], at: usize) -> Option<Packet>
    requires inside { at < length bytes.now }
    requires first { slice_index bytes.now at ≤ 242 }
    ensures { MatchOption result (IsShortPacket bytes.now at) (IsPacketAt bytes.now at) }
{
    let first = bytes[at];
    let args = &bytes[at + 1..];
    let head = head_len(first);
    if args.len() < head {
        return None;
    }
    let len = content_len(first, args);
    if args.len() - head < len {
        return None;
    }
    let start = at + 1 + head;
    Some(Packet {
        code: code_in(first, args),
        start,
        end: start + len,
    })
}
