//! Where the tables of a TFM file stand.
ghost use Rattle.std.specs.Prelude.{◌≡◌, ℕ, ◌+◌, ◌*◌, ◌^◌, ◌<◌, ◌≤◌, OnOk, ◌↔◌, IsTrue, length, drop, slice_index, IfOk, IfErr};
ghost use Rattle.tfm_widths.specs.Lengths.{half, further, AreLengths, lf, bc, ec, nw};
ghost use Rattle.tfm_widths.specs.Widths.{index_of, width_byte, width_of, fix_word, IsWhole, AreIndexed, AreWidths};
ghost use Rattle.tfm_widths.specs.Layout.{IsLayout};
ghost use Rattle.tfm_widths.specs.Faults.{FaultIn};

use crate::fault::TfmFault;
use dv_base::{signed, unsigned};

/// The places and sizes of the tables that are read.
#[derive(Clone, Copy, Drop)]
pub struct Layout {
    /// The least code of a character.
    first: usize,
    /// One more than the greatest.
    past: usize,
    /// Where the char_info words begin.
    infos: usize,
    /// Where the widths begin.
    widths: usize,
    /// How many widths there are.
    count: usize,
}

/// The `i`-th halfword of the file.
#[tactic(auto, unfolding(crate::specs::Lengths::half))]
fn half(bytes: &[u8], i: usize) -> usize
    requires { 2 * i + 2 ≤ length bytes.now }
    ensures value { result ≡ half bytes.now i }
    ensures bound { result < 2 ^ 16 }
{
    unsigned(bytes, 2 * i, 2) as usize
}

/// The number of words behind the widths.
#[tactic(auto, unfolding(crate::specs::Lengths::further))]
fn further(bytes: &[u8]) -> usize
    requires { 24 ≤ length bytes.now }
    ensures value { result ≡ further bytes.now }
    ensures bound { result < 2 ^ 20 }
{
    half(bytes, 5)
        + half(bytes, 6)
        + half(bytes, 7)
        + half(bytes, 8)
        + half(bytes, 9)
        + half(bytes, 10)
        + half(bytes, 11)
}

/// Whether each of the twelve halfwords is below 2^15.
fn are_small(bytes: &[u8]) -> bool
    requires { 24 ≤ length bytes.now }
    ensures { IsTrue result ↔ ((i : ℕ) → i < 12 → half bytes.now i < 2 ^ 15) }
{
    for i in 0..12 {
        if half(bytes, i) >= 0x8000 {
            return false;
        }
    }
    true
}

/// Whether the twelve lengths are those of one file.
fn are_lengths(bytes: &[u8]) -> bool
    requires { 24 ≤ length bytes.now }
    ensures { IsTrue result ↔ AreLengths bytes.now }
{
    let header = half(bytes, 1);
    let first = half(bytes, 2);
    let past = half(bytes, 3) + 1;
    let widths = half(bytes, 4);
    are_small(bytes)
        && header >= 2
        && widths >= 1
        && first <= past
        && past <= 256
        && half(bytes, 0) == 6 + header + (past - first) + widths + further(bytes)
}

impl Layout {
    /// Reads the lengths, and sees that the bytes hold what these say.
    #[tactic(auto, unfolding(crate::specs::Widths::infos_at, crate::specs::Widths::widths_at))]
    pub fn read(bytes: &[u8]) -> Result<Layout, TfmFault>
        ensures ok { IfOk result (λ layout. IsLayout bytes.now layout × IsWhole bytes.now) }
        ensures fault { IfErr result (FaultIn bytes.now) }
    {
        if bytes.len() < 24 {
            return Err(TfmFault::Short);
        }
        if !are_lengths(bytes) {
            return Err(TfmFault::BadLengths);
        }
        if bytes.len() < 4 * half(bytes, 0) {
            return Err(TfmFault::Short);
        }
        let first = half(bytes, 2);
        let past = half(bytes, 3) + 1;
        let infos = 24 + 4 * half(bytes, 1);
        let widths = infos + 4 * (past - first);
        Ok(Layout {
            first,
            past,
            infos,
            widths,
            count: half(bytes, 4),
        })
    }

    /// The width index of a code that the file has.
    fn index(&self, bytes: &[u8], code: usize) -> usize
        requires layout { IsLayout bytes.now self.now }
        requires first { self.now.first ≤ code }
        requires past { code < self.now.past }
        ensures { result ≡ index_of bytes.now code }
    {
        usize::from(bytes[self.infos + 4 * (code - self.first)])
    }

    /// Sees that each width index is a place in the table of widths.
    pub fn check_indices(&self, bytes: &[u8]) -> Result<(), TfmFault>
        requires layout { IsLayout bytes.now self.now }
        requires whole { IsWhole bytes.now }
        ensures ok { OnOk result (AreIndexed bytes.now (ec bytes.now + 1)) }
        ensures fault { IfErr result (FaultIn bytes.now) }
    {
        for code in self.first..self.past {
            if self.index(bytes, code) >= self.count {
                return Err(TfmFault::BadIndex(code as u8));
            }
        }
        Ok(())
    }

    /// Sees that each width is less than 16 times the size.
    pub fn check_widths(&self, bytes: &[u8]) -> Result<(), TfmFault>
        requires layout { IsLayout bytes.now self.now }
        requires whole { IsWhole bytes.now }
        requires indexed { AreIndexed bytes.now (ec bytes.now + 1) }
        ensures ok { OnOk result (AreWidths bytes.now (nw bytes.now)) }
        ensures fault { IfErr result (FaultIn bytes.now) }
    {
        for i in 0..self.count {
            let byte = bytes[self.widths + 4 * i];
            if byte != 0 && byte != 255 {
                return Err(TfmFault::BadWidth(i as u32));
            }
        }
        Ok(())
    }

    /// The width of a code as a fix_word, where the file has that character.
    #[tactic(auto, unfolding(crate::specs::Widths::width_of))]
    pub fn width(&self, bytes: &[u8], code: usize) -> Option<i32>
        requires layout { IsLayout bytes.now self.now }
        requires indexed { AreIndexed bytes.now (ec bytes.now + 1) }
        ensures { result ≡ width_of bytes.now code }
    {
        if code < self.first || code >= self.past {
            return None;
        }
        match self.index(bytes, code) {
            0 => None,
            index => Some(signed(bytes, self.widths + 4 * index, 4)),
        }
    }
}
