//! Short texts, kept one behind the other.
ghost use Rattle.std.specs.Prelude.{◌≡◌, ◌≤◌, [], ◌∷◌, ◌++◌, length, map, OnOk};
ghost use Rattle.dv_top.specs.Spoken.{SaysAll};
ghost use Rattle.dv_top.specs.Texts.{texts_in, total};
ghost use Rattle.dv_top.specs.Warnings.{special_line};

use crate::warnings::say_special;
use dv_base::Tray;
use std::alloc::{AllocError, Global};
use std::marker::Model;

/// The first bytes of specials, kept one behind the other. A text takes its bytes and one more.
#[derive(Drop)]
pub struct Heads {
    bytes: Vec<u8>,
    lengths: Vec<u8>,
}

impl Model for Heads {
    ghost use Rattle.std.specs.Prelude.{◌≡◌, ℕ, List, length};

    ghost Value = { List (List ℕ) };

    ghost use Rattle.dv_top.specs.Texts.{texts_in, total};

    ghost view = { λ h. texts_in h.lengths.items h.bytes.items };

    ghost invariant = { λ h. total h.lengths.items ≡ length h.bytes.items };
}

/// Says a line for each of the texts that stand one behind the other in the bytes.
fn say_each<T: Tray>(lengths: &[u8], bytes: &[u8], tray: &mut T)
    requires { total lengths.now ≡ length bytes.now }
    ensures { SaysAll (map special_line (texts_in lengths.now bytes.now)) (T.seen tray.old) (T.seen tray.new) }
{
    let mut rest = bytes;
    for length in lengths {
        let (head, behind) = rest.split_at(*length as usize);
        say_special(head, tray);
        rest = behind;
    }
}

impl Heads {
    /// No texts.
    pub fn new(alloc: Global) -> Heads
        ensures { result ≡ [] }
    {
        Heads {
            bytes: Vec::new(alloc),
            lengths: Vec::new(alloc),
        }
    }

    /// Keeps one text more.
    pub fn push(&mut self, text: &[u8]) -> Result<(), AllocError>
        requires { length text.now ≤ 255 }
        ensures { OnOk result (self.new ≡ self.old ++ text.now ∷ []) }
    {
        self.lengths.reserve(1)?;
        self.bytes.extend_from_slice(text)?;
        self.lengths.push_reserved(text.len() as u8);
        Ok(())
    }

    /// Says for each text that nothing is done for the special that begins with it.
    pub fn say<T: Tray>(&self, tray: &mut T)
        ensures { SaysAll (map special_line self.now) (T.seen tray.old) (T.seen tray.new) }
    {
        say_each(&self.lengths, &self.bytes, tray);
    }
}
