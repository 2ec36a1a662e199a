//! Passes over commands that ask nothing of fonts.
ghost use Rattle.std.specs.Prelude.{◌≡◌, ◌<◌, ◌≤◌, ◌⊎◌, ℕ, pos, length, IfSome, IsTrue};
ghost use Rattle.font_set.specs.Search.{bytes_of};
ghost use Rattle.font_set.specs.Found.{IsPlaced};
ghost use Rattle.font_set.specs.Skim.{IsMet, PassesOne, Passes};

use crate::agenda::{Agenda, Home, Place};
use crate::fonts::Fonts;
use crate::turn::Sheet;
use dv_base::FontId;
use dvi_ops::{is_nop, pass};

/// Whether a font is selected and its character of this code was met.
#[inline(always)]
fn is_met(agenda: &Agenda, font: Option<u32>, code: u8) -> bool
    ensures { IsTrue result → IsMet agenda.now.met font (pos code) }
{
    match font {
        Some(number) => match FontId::new(number) {
            Some(id) => agenda.has_met(id, code),
            None => false,
        },
        None => false,
    }
}

/// Whether the byte begins a rule, a move, a push, a pop, a nop, or what stands round a page.
#[inline(always)]
fn is_apart(op: u8) -> bool
    ensures { IsTrue result → (op ≡ 132) ⊎ ((137 ≤ op) × (op < 171)) }
{
    op == 132 || (137 <= op && op < 171)
}

/// The place behind the command at a place, where it is a plain one that selects no font and sets no character but one that was met;
/// `None` elsewhere.
// A character in one byte is told by that byte and its mark alone.
#[inline(always)]
fn pass_quiet(agenda: &Agenda, font: Option<u32>, bytes: &[u8], at: usize) -> Option<usize>
    requires { at < length bytes.now }
    ensures { IfSome result (PassesOne agenda.now.met font bytes.now at) }
{
    let op = bytes[at];
    if op < 128 {
        return if is_met(agenda, font, op) {
            Some(at + 1)
        } else {
            None
        };
    }
    if is_nop(bytes, at) {
        return Some(at + 1);
    }
    if !is_apart(op) {
        return None;
    }
    pass(bytes, at)
}

/// Passes over the commands from a place on that ask nothing of fonts, and answers the place of the first that has to be looked at, or the
/// end of the bytes.
pub fn skim(agenda: &Agenda, font: Option<u32>, bytes: &[u8], at: usize) -> usize
    requires { at ≤ length bytes.now }
    ensures passed { (n : ℕ) × Passes agenda.now.met font n bytes.now at result }
    ensures further { at ≤ result }
    ensures within { result ≤ length bytes.now }
{
    let mut next = at;
    while next < bytes.len() {
        match pass_quiet(agenda, font, bytes, next) {
            Some(end) => next = end,
            None => return next,
        }
    }
    next
}

impl Fonts {
    /// The place in a frame behind the commands from this place on that ask nothing of fonts.
    pub(crate) fn skimmed(&self, sheet: &Sheet<'_>, place: &Place, agenda: &Agenda) -> usize
        requires inside { place.now.at < place.now.end }
        requires placed { IsPlaced sheet.now self.now place.now }
        ensures passed { (n : ℕ) × Passes agenda.now.met place.now.font n (bytes_of self.now sheet.now.bytes place.now.home) place.now.at result }
        ensures further { place.now.at ≤ result }
    {
        match place.home {
            Home::Page => skim(agenda, place.font, sheet.bytes, place.at),
            Home::Packet { font, code } => match self.packet(self.numbered(font), code) {
                Some(bytes) => skim(agenda, place.font, bytes, place.at),
                None => unreachable!(),
            },
        }
    }
}
