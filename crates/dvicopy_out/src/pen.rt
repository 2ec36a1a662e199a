//! Where a page of a copy stands, and the commands that lead to its marks.
ghost use Rattle.std.specs.Prelude.{◌≡◌, ◌≤◌, ◌<◌, ◌^◌, ◌+◌, ◌-◌, ◌++◌, ◌∷◌, [], ◌+ℤ◌, ◌-ℤ◌, Some, if◌then◌else◌, length, unsigned_abs};
ghost use Rattle.positions.specs.Mark.{Small, Moderate};
ghost use Rattle.dvi_ops.specs.Command.Command.{Right, Down, PutRule, Xxx};
ghost use Rattle.dvicopy_out.specs.Spelled.{spelled};
ghost use Rattle.dvi_ops.specs.Shortest.{shortest};
ghost use Rattle.dvicopy_out.specs.Moves.{moves, part, first_part};
ghost use Rattle.dvicopy_out.specs.Marked.{way, selecting, fits, glyph_commands, glyph_pen, page_pen, char_command};

use crate::script::Script;
use dvi_ops::Cmd;
use positions::{GlyphMark, RuleMark, SpecialMark};
use std::marker::Model;

/// The furthest that one command moves, in units.
const FURTHEST: i64 = 2_147_483_647;

/// Where a page stands, and the number of the font that is selected.
#[derive(Drop)]
pub struct Pen {
    h: i64,
    v: i64,
    font: Option<u32>,
}

impl Model for Pen {
    ghost use Rattle.std.specs.Prelude.{◌^◌, ◌<◌, unsigned_abs};
    ghost use Rattle.dvicopy_out.specs.Marked.{Pen};

    ghost Value = { Pen };

    ghost view = { λ p. record { h = p.h; v = p.v; font = p.font } };

    ghost invariant = { λ p. (unsigned_abs p.h < 2 ^ 31) × (unsigned_abs p.v < 2 ^ 31) };
}

/// As much of a move as one command can do.
fn first_part(q: i64) -> i64
    ensures value { result ≡ first_part q }
    ensures small { unsigned_abs result < 2 ^ 31 }
    ensures rest { unsigned_abs q < 2 ^ 32 - 1 → unsigned_abs (q -ℤ result) < 2 ^ 31 }
{
    q.min(FURTHEST).max(-FURTHEST)
}

/// A move right of what one command can do; none for 0.
fn part_right(script: &mut Script, q: i64)
    requires small { unsigned_abs q < 2 ^ 31 }
    requires room { length script.old + 540 ≤ 4096 }
    ensures value { script.new ≡ script.old ++ spelled (part Right q) }
    ensures len { length script.new ≤ length script.old + 540 }
{
    if q != 0 {
        script.command(&Cmd::Right(q as i32));
    }
}

/// A move down of what one command can do; none for 0.
fn part_down(script: &mut Script, q: i64)
    requires small { unsigned_abs q < 2 ^ 31 }
    requires room { length script.old + 540 ≤ 4096 }
    ensures value { script.new ≡ script.old ++ spelled (part Down q) }
    ensures len { length script.new ≤ length script.old + 540 }
{
    if q != 0 {
        script.command(&Cmd::Down(q as i32));
    }
}

#[inline(always)]
fn right(script: &mut Script, q: i64)
    requires moderate { unsigned_abs q < 2 ^ 32 - 1 }
    requires room { length script.old + 1080 ≤ 4096 }
    ensures value { script.new ≡ script.old ++ spelled (moves Right q) }
    ensures len { length script.new ≤ length script.old + 1080 }
{
    let first = first_part(q);
    part_right(script, first);
    part_right(script, q - first);
}

#[inline(always)]
fn down(script: &mut Script, q: i64)
    requires moderate { unsigned_abs q < 2 ^ 32 - 1 }
    requires room { length script.old + 1080 ≤ 4096 }
    ensures value { script.new ≡ script.old ++ spelled (moves Down q) }
    ensures len { length script.new ≤ length script.old + 1080 }
{
    let first = first_part(q);
    part_down(script, first);
    part_down(script, q - first);
}

impl Pen {
    /// At the start of a page.
    pub fn new() -> Pen
        ensures { result ≡ page_pen }
    {
        Pen {
            h: 0,
            v: 0,
            font: None,
        }
    }

    /// To a place: right, and then down.
    #[inline(always)]
    fn go(&mut self, script: &mut Script, h: i64, v: i64)
        requires h { unsigned_abs h < 2 ^ 31 }
        requires v { unsigned_abs v < 2 ^ 31 }
        ensures value { script.new ≡ spelled (way self.old h v) }
        ensures len { length script.new ≤ 2160 }
        ensures pen { self.new ≡ record { h = h; v = v; font = self.old.font } }
    {
        script.clear();
        right(script, h - self.h);
        down(script, v - self.v);
        self.h = h;
        self.v = v;
    }

    /// Selects a font where another one is selected, or none.
    #[inline(always)]
    fn select(&mut self, script: &mut Script, number: u32)
        requires small { number < 65536 }
        requires room { length script.old ≤ 2160 }
        ensures value { script.new ≡ script.old ++ spelled (selecting self.old.font number) }
        ensures len { length script.new ≤ 2700 }
        ensures pen { self.new ≡ record self.old { font = Some number } }
    {
        if self.font != Some(number) {
            script.command(&Cmd::Fnt(i64::from(number)));
            self.font = Some(number);
        }
    }

    /// The character, which moves by its width where the place behind it fits.
    #[inline(always)]
    fn show(&mut self, script: &mut Script, code: u8, width: i64)
        requires moderate { unsigned_abs width < 2 ^ 32 }
        requires room { length script.old ≤ 2700 }
        ensures value { script.new ≡ script.old ++ spelled (char_command (fits (self.old.h +ℤ width)) code ∷ []) }
        ensures pen { self.new ≡ record self.old { h = (if fits (self.old.h +ℤ width) then self.old.h +ℤ width else self.old.h) } }
    {
        let behind = self.h + width;
        if -FURTHEST <= behind && behind <= FURTHEST {
            script.set(code);
            self.h = behind;
        } else {
            script.command(&Cmd::Put(i64::from(code)));
        }
    }

    /// The commands of a character whose font has this number.
    pub fn glyph(&mut self, script: &mut Script, mark: &GlyphMark, number: u32)
        requires h { unsigned_abs mark.now.h < 2 ^ 31 }
        requires v { unsigned_abs mark.now.v < 2 ^ 31 }
        requires width { unsigned_abs mark.now.width < 2 ^ 32 }
        requires number { number < 65536 }
        ensures value { script.new ≡ spelled (glyph_commands self.old number mark.now.code mark.now.h mark.now.v mark.now.width) }
        ensures pen { self.new ≡ glyph_pen number mark.now.h mark.now.v mark.now.width }
    {
        self.go(script, mark.h, mark.v);
        self.select(script, number);
        self.show(script, mark.code, mark.width);
    }

    /// The commands of a rule.
    pub fn rule(&mut self, script: &mut Script, mark: &RuleMark)
        requires h { unsigned_abs mark.now.h < 2 ^ 31 }
        requires v { unsigned_abs mark.now.v < 2 ^ 31 }
        requires a { unsigned_abs mark.now.a < 2 ^ 31 }
        requires b { unsigned_abs mark.now.b < 2 ^ 31 }
        ensures value { script.new ≡ spelled (way self.old mark.now.h mark.now.v ++ PutRule mark.now.a mark.now.b ∷ []) }
        ensures pen { self.new ≡ record { h = mark.now.h; v = mark.now.v; font = self.old.font } }
    {
        self.go(script, mark.h, mark.v);
        script.command(&Cmd::PutRule {
            a: mark.a as i32,
            b: mark.b as i32,
        });
    }

    /// The commands of a special, without its bytes.
    pub fn special(&mut self, script: &mut Script, mark: &SpecialMark<'_>)
        requires h { unsigned_abs mark.now.h < 2 ^ 31 }
        requires v { unsigned_abs mark.now.v < 2 ^ 31 }
        requires short { length mark.now.bytes.now < 2 ^ 31 }
        ensures value { script.new ≡ spelled (way self.old mark.now.h mark.now.v) ++ shortest (Xxx mark.now.bytes.now) }
        ensures pen { self.new ≡ record { h = mark.now.h; v = mark.now.v; font = self.old.font } }
    {
        self.go(script, mark.h, mark.v);
        script.command(&Cmd::Xxx(mark.bytes));
    }
}
