//! Rows of bits, copied to the front of bytes.
ghost use Rattle.std.specs.Prelude.{◌≡◌, ◌+◌, ◌*◌, ◌<◌, ◌≤◌, length};
ghost use Rattle.bit_lanes.specs.Bits.{bits};
ghost use Rattle.bit_lanes.specs.Rows.{row_of, Shows};

use crate::behind::clear_behind;
use crate::window::window_at;
use std::simd::prelude::*;

/// Sixteen bytes of a row, from the byte `at` on.
fn lay_lanes(from: &[u8], shift: u8, at: usize, to: &mut [u8])
    requires shift { shift < 8 }
    requires held { at + 17 ≤ length from.now }
    requires room { at + 16 ≤ length to.old }
    requires shown { Shows from.now shift at to.old }
    ensures shown { Shows from.now shift (at + 16) to.new }
    ensures len { length to.new ≡ length to.old }
{
    let high = u8x16::from_slice(&from[at..]);
    let low = u8x16::from_slice(&from[at + 1..]);
    let lanes = (high << u8x16::splat(shift)) | (low >> u8x16::splat(1) >> u8x16::splat(7 - shift));
    lanes.copy_to_slice(&mut to[at..]);
}

/// The bytes of a row that are sixteen at a time, of `many` in all, and how many they are.
fn lay_all_lanes(from: &[u8], shift: u8, many: usize, to: &mut [u8]) -> usize
    requires shift { shift < 8 }
    requires held { many ≤ length from.now }
    requires room { many ≤ length to.old }
    ensures most { result ≤ many }
    ensures shown { Shows from.now shift result to.new }
    ensures len { length to.new ≡ length to.old }
{
    let mut at = 0;
    while from.len() - at > 16 && many - at >= 16 {
        lay_lanes(from, shift, at, to);
        at += 16;
    }
    at
}

/// The bytes of a row from the byte `done` on, of `many` in all, one at a time.
fn lay_rest(from: &[u8], shift: u8, done: usize, many: usize, to: &mut [u8])
    requires shift { shift < 8 }
    requires order { done ≤ many }
    requires held { many ≤ length from.now }
    requires room { many ≤ length to.old }
    requires shown { Shows from.now shift done to.old }
    ensures shown { Shows from.now shift many to.new }
    ensures len { length to.new ≡ length to.old }
{
    for at in done..many {
        to[at] = window_at(from, at, shift);
    }
}

/// Copies `width` bits from the bit `start` on to the front of `to`, and clears the rest of `to`. Both have to hold them.
pub fn align_row(from: &[u8], start: usize, width: usize, to: &mut [u8])
    requires held { start + width ≤ 8 * length from.now }
    requires room { width ≤ 8 * length to.old }
    ensures { bits to.new ≡ row_of start width (8 * length to.old) (bits from.now) }
{
    let from = &from[start / 8..];
    let shift = (start % 8) as u8;
    let many = width.div_ceil(8);
    let done = lay_all_lanes(from, shift, many, to);
    lay_rest(from, shift, done, many, to);
    clear_behind(to, width);
}
