//! Whether bytes are blank.
ghost use Rattle.std.specs.Prelude.{◌≡◌, ◌+◌, ◌≤◌, length};
ghost use Rattle.std.specs.List.{slice_range};
ghost use Rattle.bit_lanes.specs.Bits.{bits, all_zero};

use std::simd::prelude::*;

/// Whether sixteen bytes are 0, from the byte `at` on.
fn are_blank_lanes(bytes: &[u8], at: usize) -> bool
    requires { at + 16 ≤ length bytes.now }
    ensures { result ≡ all_zero (slice_range bytes.now at (at + 16)) }
{
    u8x16::from_slice(&bytes[at..])
        .simd_ne(u8x16::splat(0))
        .to_bitmask()
        == 0
}

/// Whether bytes are 0, one at a time.
fn are_blank_bytes(bytes: &[u8]) -> bool
    ensures { result ≡ all_zero bytes.now }
{
    bytes.iter().all(|byte| *byte == 0)
}

/// Whether every bit is 0.
pub fn is_blank(bytes: &[u8]) -> bool
    ensures of_bits { result ≡ all_zero (bits bytes.now) }
    ensures of_bytes { result ≡ all_zero bytes.now }
{
    let mut at = 0;
    while bytes.len() - at >= 16 {
        if !are_blank_lanes(bytes, at) {
            return false;
        }
        at += 16;
    }
    are_blank_bytes(&bytes[at..])
}
