//! What turns units into pixels.
ghost use Rattle.std.specs.Prelude.{◌≡◌, ◌<◌, ◌^◌, ◌+ℤ◌, pos, ◌<ℤ◌, OnOk, OnErr, IsTrue, Some, None, unsigned_abs};
ghost use Rattle.positions.specs.Drift.{IsDrift, IsSpace};
ghost use Rattle.positions.specs.MarkOf.{rule_of, glyph_of};
ghost use Rattle.vf_expand.specs.Marks.{right_by, down_by, past_rule, past_char, rule_at};
ghost use Rattle.positions.specs.Mark.{IsModerate};
ghost use Rattle.vf_expand.specs.Pages.{glyph_at};
ghost use Rattle.vf_expand.specs.Takes.{MayCome, Nothing};
ghost use Rattle.vf_expand.specs.Causes.{IsLarge};
ghost use Rattle.vf_expand.specs.Wide.{IsWide};
ghost use Rattle.dv_base.specs.Excess.{IsReach, Tells, excess};

use dv_base::{Conv, FontId};
use positions::{GlyphMark, Passed, Pos, RuleMark};
use std::marker::Model;

/// Conversions to pixels across and down, and how many pixels a place may drift from the exact one.
#[derive(Clone, Copy, Debug, PartialEq, Eq, Drop)]
pub struct Grid {
    across: Conv,
    down: Conv,
    drift: i64,
}

impl Model for Grid {
    ghost use Rattle.positions.specs.Drift.{IsDrift};
    ghost use Rattle.vf_expand.specs.Grid.{Grid};

    ghost Value = { Grid };

    ghost view = { λ g. record { across = g.across; down = g.down; drift = g.drift } };

    ghost invariant = { λ g. IsDrift g.drift };

    ghost inverse = { λ g. record { across = g.across; down = g.down; drift = g.drift } };
}

/// How wide a character is, in units and in pixels, and what is told of the excess of these pixels (dv_base: [`Conv::excess`]).
#[derive(Clone, Copy)]
pub struct Wide {
    pub width: i64,
    pub pixels: i64,
    pub excess: i64,
}

impl Wide {
    /// Whether the place behind a character is within the limit.
    #[inline(always)]
    pub fn fits(&self, here: &Pos) -> bool
        requires { unsigned_abs self.now.width < 2 ^ 32 }
        ensures { IsTrue result → IsLarge (here.now.h +ℤ self.now.width) → ⊥ }
    {
        let behind = here.h + self.width;
        -(1 << 31) < behind && behind < 1 << 31
    }
}

impl Grid {
    pub fn new(across: Conv, down: Conv, drift: i64) -> Grid
        requires { IsDrift drift }
        ensures { result ≡ record { across = across; down = down; drift = drift } }
    {
        Grid {
            across,
            down,
            drift,
        }
    }

    /// Moves right by `q`, where the selected font has this space.
    pub fn right(&self, space: i64, pos: &mut Pos, q: i64) -> Result<(), Passed>
        requires space { IsSpace space }
        requires amount { unsigned_abs q < 2 ^ 39 }
        ensures ok { OnOk result (right_by self.now space q pos.old ≡ Some pos.new) }
        ensures none { OnErr result (right_by self.now space q pos.old ≡ None) }
        ensures large { OnErr result (IsLarge (pos.old.h +ℤ q)) }
    {
        pos.right(&self.across, self.drift, space, q)
    }

    /// Moves down by `q`, where the selected font has this space.
    pub fn down(&self, space: i64, pos: &mut Pos, q: i64) -> Result<(), Passed>
        requires space { IsSpace space }
        requires amount { unsigned_abs q < 2 ^ 39 }
        ensures ok { OnOk result (down_by self.now space q pos.old ≡ Some pos.new) }
        ensures none { OnErr result (down_by self.now space q pos.old ≡ None) }
        ensures large { OnErr result (IsLarge (pos.old.v +ℤ q)) }
    {
        pos.down(&self.down, self.drift, space, q)
    }

    /// Moves right past a rule of width `b`.
    pub fn past_rule(&self, pos: &mut Pos, b: i64) -> Result<(), Passed>
        requires { unsigned_abs b < 2 ^ 31 }
        ensures ok { OnOk result (past_rule self.now b pos.old ≡ Some pos.new) }
        ensures none { OnErr result (past_rule self.now b pos.old ≡ None) }
        ensures large { OnErr result (IsLarge (pos.old.h +ℤ b)) }
    {
        let pixels = self.across.ceil(b);
        pos.advance(&self.across, self.drift, b, pixels)
    }

    /// How wide a character of this width is.
    pub fn wide(&self, width: i64) -> Wide
        requires { unsigned_abs width < 2 ^ 32 }
        ensures wide { IsWide self.now result }
        ensures same { result.width ≡ width }
    {
        let pixels = self.across.round(width);
        let excess = self.across.excess(width, pixels);
        Wide {
            width,
            pixels,
            excess,
        }
    }

    /// Moves right past a character.
    #[inline(always)]
    pub fn past_char(&self, pos: &mut Pos, wide: &Wide) -> Result<(), Passed>
        requires { IsWide self.now wide.now }
        ensures ok { OnOk result (past_char self.now wide.now.width pos.old ≡ Some pos.new) }
        ensures none { OnErr result (past_char self.now wide.now.width pos.old ≡ None) }
        ensures large { OnErr result (IsLarge (pos.old.h +ℤ wide.now.width)) }
    {
        pos.advance(&self.across, self.drift, wide.width, wide.pixels)
    }

    /// What is told of the excess of a place's pixels across.
    #[inline(always)]
    pub fn excess(&self, here: &Pos) -> i64
        ensures { Tells result (excess self.now.across here.now.h here.now.hh) }
    {
        self.across.excess(here.h, here.hh)
    }

    /// An excess across with which a place has not drifted too far.
    pub fn reach(&self) -> i64
        ensures { IsReach self.now.across self.now.drift result }
    {
        self.across.reach(self.drift)
    }

    /// Moves right past a character behind which the place is within the limit; of the excess there, `told` is told before and the
    /// answer behind.
    // Most characters leave the place within reach: one sum tells it.
    #[inline(always)]
    pub fn past_told(&self, reach: i64, told: i64, here: &mut Pos, wide: &Wide) -> i64
        requires reach { IsReach self.now.across self.now.drift reach }
        requires told { Tells told (excess self.now.across here.old.h here.old.hh) }
        requires wide { IsWide self.now wide.now }
        requires fits { IsLarge (here.old.h +ℤ wide.now.width) → ⊥ }
        ensures past { past_char self.now wide.now.width here.old ≡ Some here.new }
        ensures told { Tells result (excess self.now.across here.new.h here.new.hh) }
    {
        let _ = &self.drift;
        let sum = told + wide.excess;
        if sum.unsigned_abs() <= reach.unsigned_abs() {
            *here = Pos {
                h: here.h + wide.width,
                hh: here.hh + wide.pixels,
                ..*here
            };
            return sum;
        }
        match self.past_char(here, wide) {
            Ok(()) => {}
            Err(Passed) => unreachable!(),
        }
        self.excess(here)
    }

    /// The glyph of a character at a place.
    #[inline(always)]
    pub fn glyph(&self, font: FontId, code: u8, here: &Pos, wide: &Wide) -> GlyphMark
        requires { IsWide self.now wide.now }
        ensures mark { glyph_of result ≡ glyph_at self.now font code here.now wide.now.width }
        ensures fit { IsModerate (glyph_of result) }
    {
        GlyphMark {
            font,
            code,
            x: here.hh,
            y: here.vv,
            h: here.h,
            v: here.v,
            width: wide.width,
            pixels: wide.pixels,
        }
    }

    /// The rule of height `a` and width `b` at a place, both above 0.
    pub fn rule(&self, here: &Pos, a: i64, b: i64) -> RuleMark
        requires tall { pos 0 <ℤ a }
        requires wide { pos 0 <ℤ b }
        requires a { unsigned_abs a < 2 ^ 31 }
        requires b { unsigned_abs b < 2 ^ 31 }
        ensures mark { rule_of result ≡ rule_at self.now here.now a b }
        ensures fit { MayCome Nothing (rule_of result) }
    {
        RuleMark {
            x: here.hh,
            y: here.vv,
            w: self.across.ceil(b),
            rows: self.down.ceil(a),
            h: here.h,
            v: here.v,
            a,
            b,
        }
    }
}
