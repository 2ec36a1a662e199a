//! The widths that a TFM file tells.
ghost use Rattle.std.specs.Prelude.{◌≡◌, ◌+◌, ◌<◌, ◌≤◌, length, IfOk, IfErr};
ghost use Rattle.tfm_widths.specs.Widths.{Table, IsTfm, AreIndexed, width_in, widths_below};
ghost use Rattle.tfm_widths.specs.Lengths.{ec};
ghost use Rattle.tfm_widths.specs.Layout.{IsLayout};
ghost use Rattle.tfm_widths.specs.Faults.{FaultIn, IsOfBytes};

use crate::fault::TfmFault;
use crate::layout::Layout;
use dv_base::unsigned;
use std::alloc::{AllocError, Global};
use std::marker::Model;

/// The checksum of a TFM file, and for each code from 0 to 255 the width of its character, where it has one.
#[derive(Drop)]
pub struct Tfm {
    checksum: u32,
    widths: Vec<Option<i32>>,
}

impl Model for Tfm {
    ghost use Rattle.std.specs.Prelude.{◌≡◌, length};
    ghost use Rattle.tfm_widths.specs.Widths.{Table};

    ghost Value = { Table };

    ghost view = { λ tfm. record { checksum = tfm.checksum; widths = tfm.widths.items } };

    ghost invariant = { λ tfm. length tfm.widths.items ≡ 256 };
}

/// The widths of the codes from 0 to 255.
fn widths_of(alloc: Global, bytes: &[u8], layout: &Layout) -> Result<Vec<Option<i32>>, AllocError>
    requires layout { IsLayout bytes.now layout.now }
    requires indexed { AreIndexed bytes.now (ec bytes.now + 1) }
    ensures widths { IfOk result (λ widths. widths.items ≡ widths_below bytes.now 256) }
    ensures count { IfOk result (λ widths. length widths.items ≡ 256) }
{
    let mut widths = Vec::with_capacity(alloc, 256)?;
    for code in 0..256 {
        widths.push(layout.width(bytes, code))?;
    }
    Ok(widths)
}

impl Tfm {
    /// Reads the bytes of a TFM file; what follows the first 4 · lf of them is ignored.
    ///
    /// Of several faults it names the one that stands first in the file: too few bytes for the lengths, the lengths, too few
    /// bytes for what they say, the first wrong width index, the first wrong width.
    pub fn read(alloc: Global, bytes: &[u8]) -> Result<Tfm, TfmFault>
        ensures ok { IfOk result (IsTfm bytes.now) }
        ensures fault { IfErr result (FaultIn bytes.now) }

        // Both sides: where a fault of the bytes is named, they are no TFM file.
        ensures none { IfErr result
            (λ fault. IsOfBytes fault → (table : Table) → IsTfm bytes.now table → ⊥) }
    {
        let layout = Layout::read(bytes)?;
        layout.check_indices(bytes)?;
        layout.check_widths(bytes)?;
        let widths = widths_of(alloc, bytes, &layout).map_err(|_| TfmFault::OutOfMemory)?;
        let checksum = unsigned(bytes, 24, 4);
        Ok(Tfm { checksum, widths })
    }

    /// The width of a character as a fix_word (TFM format: a signed number in units of 2^-20 of the size); `None` exactly where
    /// the font has no such character.
    pub fn width(&self, code: u8) -> Option<i32>
        ensures { result ≡ width_in self.now code }
    {
        self.widths[usize::from(code)]
    }

    /// The checksum, which agrees with the one of a document's font definition where both stand for one font.
    pub fn checksum(&self) -> u32
        ensures { result ≡ self.now.checksum }
    {
        self.checksum
    }
}
