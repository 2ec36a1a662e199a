//! Numbers, one after another, from borrowed bytes.
ghost use Rattle.std.specs.Prelude.{◌≡◌, ◌≤◌, length};
ghost use Rattle.dv_base.specs.Cursor.{Takes};
ghost use Rattle.dv_base.specs.Numbers.{unsigned, signed};

use byteorder::{BigEndian, ByteOrder};
use std::marker::Model;

/// Reads big-endian numbers from the front of borrowed bytes to their end.
///
/// Every call that takes bytes answers `None` exactly where fewer remain than it takes, and then the cursor stays where it was.
#[derive(Drop)]
pub struct Cursor<'a> {
    bytes: &'a [u8],
    taken: usize,
}

impl<'a> Model for Cursor<'a> {
    ghost use Rattle.std.specs.Prelude.{◌≤◌, length};
    ghost use Rattle.dv_base.specs.Cursor.{Reading};

    ghost Value = { Reading };

    ghost view = { λ c. record { bytes = c.bytes.now; place = c.taken } };

    ghost invariant = { λ c. c.taken ≤ length c.bytes.now };
}

#[tactic(auto, unfolding(crate::specs::Numbers::unsigned, crate::specs::Numbers::signed))]
impl<'a> Cursor<'a> {
    /// A cursor before the first of these bytes.
    pub fn new(bytes: &'a [u8]) -> Cursor<'a>
        ensures { result ≡ record { bytes = bytes.now; place = 0 } }
    {
        Cursor { bytes, taken: 0 }
    }

    /// The number of bytes taken so far.
    pub fn place(&self) -> usize
        ensures value { result ≡ self.now.place }
        ensures inside { result ≤ length self.now.bytes }
    {
        self.taken
    }

    /// Takes the next `n` bytes as they are.
    pub fn take(&mut self, n: usize) -> Option<&'a [u8]>
        ensures { Takes (λ bytes piece. piece.now ≡ bytes) n self.old self.new result }
    {
        let bytes = self.bytes;
        if bytes.len() - self.taken < n {
            return None;
        }
        let piece = &bytes[self.taken..self.taken + n];
        self.taken += n;
        Some(piece)
    }

    /// Takes an unsigned number of one byte.
    pub fn u8(&mut self) -> Option<u8>
        ensures { Takes (λ bytes x. x ≡ unsigned 0 1 bytes) 1 self.old self.new result }
    {
        let piece = self.take(1)?;
        Some(piece[0])
    }

    /// Takes an unsigned number of two bytes.
    pub fn u16(&mut self) -> Option<u16>
        ensures { Takes (λ bytes x. x ≡ unsigned 0 2 bytes) 2 self.old self.new result }
    {
        let piece = self.take(2)?;
        Some(BigEndian::read_u16(piece))
    }

    /// Takes an unsigned number of three bytes.
    pub fn u24(&mut self) -> Option<u32>
        ensures { Takes (λ bytes x. x ≡ unsigned 0 3 bytes) 3 self.old self.new result }
    {
        let piece = self.take(3)?;
        Some(BigEndian::read_u24(piece))
    }

    /// Takes an unsigned number of four bytes.
    pub fn u32(&mut self) -> Option<u32>
        ensures { Takes (λ bytes x. x ≡ unsigned 0 4 bytes) 4 self.old self.new result }
    {
        let piece = self.take(4)?;
        Some(BigEndian::read_u32(piece))
    }

    /// Takes a signed number of one byte.
    pub fn i8(&mut self) -> Option<i8>
        ensures { Takes (λ bytes x. x ≡ signed 0 1 bytes) 1 self.old self.new result }
    {
        let number = self.u8()?;
        Some(number.cast_signed())
    }

    /// Takes a signed number of two bytes.
    pub fn i16(&mut self) -> Option<i16>
        ensures { Takes (λ bytes x. x ≡ signed 0 2 bytes) 2 self.old self.new result }
    {
        let number = self.u16()?;
        Some(number.cast_signed())
    }

    /// Takes a signed number of three bytes.
    pub fn i24(&mut self) -> Option<i32>
        ensures { Takes (λ bytes x. x ≡ signed 0 3 bytes) 3 self.old self.new result }
    {
        let piece = self.take(3)?;
        Some(BigEndian::read_i24(piece))
    }

    /// Takes a signed number of four bytes.
    pub fn i32(&mut self) -> Option<i32>
        ensures { Takes (λ bytes x. x ≡ signed 0 4 bytes) 4 self.old self.new result }
    {
        let number = self.u32()?;
        Some(number.cast_signed())
    }
}
