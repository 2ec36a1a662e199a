//! What a VF file tells.
ghost use Rattle.std.specs.Prelude.{◌≡◌, MatchOption, None, Some};
ghost use Rattle.std.specs.List.{Contains};
ghost use Rattle.vf_packets.specs.Font.{VirtualFont, Has, first_number, packet_of};
ghost use Rattle.vf_packets.specs.LocalViews.{local_view};
ghost use Rattle.vf_packets.specs.Programs.{IsProgram};

use crate::local::{Local, Locals};
use std::marker::Model;

/// Where the commands of a packet stand in the file.
#[derive(Clone, Copy)]
pub struct Span {
    pub start: usize,
    pub end: usize,
}

/// What a file has for a code.
#[derive(Clone, Copy)]
pub enum Slot {
    Empty,
    Packet(Span),
}

/// A VF file that was read: its bytes, and where its packets stand in them.
#[derive(Drop)]
pub struct Vf {
    pub(crate) checksum: u32,
    pub(crate) bytes: Vec<u8>,
    pub(crate) locals: Locals,
    pub(crate) slots: Vec<Slot>,
}

impl Model for Vf {
    ghost use Rattle.vf_packets.specs.Font.{VirtualFont};

    ghost Value = { VirtualFont };

    ghost use Rattle.vf_packets.specs.Slots.{font_in, AreSlots};
    ghost use Rattle.vf_packets.specs.File.{HoldsPrograms};

    ghost view = { λ v. font_in v.checksum v.locals v.bytes.items v.slots.items };

    ghost invariant = { λ v. AreSlots v.bytes.items v.slots.items × HoldsPrograms (font_in v.checksum v.locals v.bytes.items v.slots.items) };
}

impl Vf {
    /// The checksum of the font.
    pub fn checksum(&self) -> u32
        ensures { result ≡ self.now.checksum }
    {
        self.checksum
    }

    /// The commands of a code: spellings of whole commands that a packet may hold, one after another; `None` exactly where the
    /// file has no packet for it.
    pub fn packet(&self, code: u8) -> Option<&[u8]>
        ensures { MatchOption result (packet_of self.now code ≡ None) (λ bytes. (packet_of self.now code ≡ Some bytes.now) × IsProgram bytes.now) }
    {
        match self.slots[code as usize] {
            Slot::Empty => None,
            Slot::Packet(span) => Some(&self.bytes[span.start..span.end]),
        }
    }

    /// The local font of a number; `None` exactly where there is none.
    pub fn local(&self, k: i64) -> Option<&Local>
        ensures { MatchOption result (Has self.now.locals k → ⊥) (λ font. Contains self.now.locals (local_view font.now) × (font.now.k ≡ k)) }
    {
        self.locals.get(k)
    }

    /// The number of the local font that is defined first, in which each packet begins; `None` exactly where there is none.
    pub fn first_local(&self) -> Option<i64>
        ensures { result ≡ first_number self.now.locals }
    {
        self.locals.first()
    }
}
