//! Big-endian numbers at a place among bytes.
ghost use Rattle.std.specs.Prelude.{◌≡◌, ◌≤◌, ◌<◌, ◌+◌, ◌^◌, length};
ghost use Rattle.dv_base.specs.Numbers.{unsigned, signed};

use byteorder::{BigEndian, ByteOrder};

/// The unsigned number in the `n` bytes from `at` on, the most significant byte first.
#[tactic(auto, unfolding(crate::specs::Numbers::unsigned))]
pub fn unsigned(bytes: &[u8], at: usize, n: usize) -> u32
    requires low { 1 ≤ n }
    requires high { n ≤ 4 }
    requires room { at + n ≤ length bytes.now }
    ensures value { result ≡ unsigned at n bytes.now }
    ensures small { result < 256 ^ n }
{
    let bytes = &bytes[at..];
    match n {
        1 => u32::from(bytes[0]),
        2 => u32::from(BigEndian::read_u16(bytes)),
        3 => BigEndian::read_u24(bytes),
        4 => BigEndian::read_u32(bytes),
        _ => unreachable!(),
    }
}

/// The signed number in the `n` bytes from `at` on, in two's complement.
#[tactic(auto, unfolding(crate::specs::Numbers::signed))]
pub fn signed(bytes: &[u8], at: usize, n: usize) -> i32
    requires low { 1 ≤ n }
    requires high { n ≤ 4 }
    requires room { at + n ≤ length bytes.now }
    ensures { result ≡ signed at n bytes.now }
{
    let bytes = &bytes[at..];
    match n {
        1 => i32::from(bytes[0].cast_signed()),
        2 => i32::from(BigEndian::read_i16(bytes)),
        3 => BigEndian::read_i24(bytes),
        4 => BigEndian::read_i32(bytes),
        _ => unreachable!(),
    }
}
