//! Numbers of fonts, and places in what they and the document hold.
ghost use Rattle.std.specs.Prelude.{◌≡◌, ◌<◌, ◌≤◌, MatchOption};

use std::marker::Model;

/// The number of a font that a run knows, below 1,000: fonts are numbered from 0 in the order in which they become known.
#[derive(Clone, Copy, Debug, PartialEq, Eq, PartialOrd, Ord, Hash, Drop)]
pub struct FontId(u32);

impl Model for FontId {
    ghost use Rattle.std.specs.Prelude.{ℕ, ◌<◌};

    ghost Value = { ℕ };

    ghost view = { λ id. id.0 };

    ghost invariant = { λ id. id.0 < 1000 };

    ghost inverse = { λ number. record { 0 = number } };
}

impl FontId {
    /// How many fonts a run can know.
    pub const MOST: u32 = 1_000;

    /// The id with this number; `None` exactly where it is 1,000 or more.
    pub fn new(number: u32) -> Option<FontId>
        ensures { MatchOption result (1000 ≤ number) (λ id. (id ≡ number) × (number < 1000)) }
    {
        if number < FontId::MOST {
            Some(FontId(number))
        } else {
            None
        }
    }

    /// The number.
    pub fn number(&self) -> u32
        ensures value { result ≡ self.now }
        ensures bound { result < 1000 }
    {
        self.0
    }
}

/// A place at which a command stands: in the DVI file, or in a packet of a virtual font.
#[derive(Clone, Copy, Debug, PartialEq, Eq, Drop)]
pub enum Spot {
    /// A place in the DVI file, counted in bytes from its start.
    Page { at: u32 },
    /// A place in the packet of a character, counted in bytes from the packet's first command.
    Packet { font: FontId, code: u8, at: u32 },
}
