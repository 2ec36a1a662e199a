//! The numbers of the fonts of a copy.
ghost use Rattle.std.specs.Prelude.{◌≡◌, ◌<◌, ◌≤◌, ◌+◌, ℕ, length, slice_index};
ghost use Rattle.font_set.specs.Fonts.{state_at};
ghost use Rattle.dvicopy_out.specs.Numbered as numbered;
ghost use Rattle.dvicopy_out.specs.Tables.{IsTable};

use dv_base::FontId;
use font_set::{Fonts, Kind};
use std::marker::Model;

/// For each font of a set how many real ones that are loaded have a smaller id: so these are numbered from 0, without gaps.
#[derive(Drop)]
pub struct Numbers {
    table: [u16; 1_000],
}

impl Model for Numbers {
    ghost use Rattle.std.specs.Prelude.{ℕ, List};

    ghost Value = { List ℕ };

    ghost view = { λ n. n.table };
}

/// The font with this number.
pub fn id_at(place: u32) -> FontId
    requires { place < 1000 }
    ensures { result ≡ place }
{
    match FontId::new(place) {
        Some(id) => id,
        None => unreachable!(),
    }
}

/// Whether a font is real and loaded.
pub fn is_real(fonts: &Fonts, id: FontId) -> bool
    requires given { id < length fonts.now.fonts }
    ensures { result ≡ numbered.is_real (state_at fonts.now id) }
{
    match fonts.kind(id) {
        Kind::Real => true,
        Kind::Known | Kind::Virtual => false,
    }
}

/// 1 where it is so.
fn one_where(real: bool) -> u16
    ensures value { result ≡ numbered.one_where real }
    ensures most { result ≤ 1 }
{
    if real { 1 } else { 0 }
}

impl Numbers {
    /// The numbers of the fonts of a set.
    pub fn new(fonts: &Fonts) -> Numbers
        ensures { IsTable fonts.now result }
    {
        let mut table = [0; 1_000];
        let mut next = 0u16;
        for place in 0..fonts.count() {
            table[place as usize] = next;
            next += one_where(is_real(fonts, id_at(place)));
        }
        Numbers { table }
    }

    /// The number of a font.
    pub fn of(&self, id: FontId) -> u32
        ensures value { result ≡ slice_index self.now id }
        ensures small { result < 65536 }
    {
        u32::from(self.table[id.number() as usize])
    }
}
