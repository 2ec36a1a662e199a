//! Marks that are handed to a canvas.
ghost use Rattle.std.specs.Prelude.{◌≡◌, ◌<◌, ◌^◌, [], ◌∷◌, length, OnOk, OnErr, IfErr, Some, unsigned_abs};
ghost use Rattle.positions.specs.Conditions.{SameCondition};
ghost use Rattle.vf_expand.specs.Marks.{rule_marks, special_at};
ghost use Rattle.vf_expand.specs.Takes.{CanTake, Nothing, Took, Halts, TookChar, char_marks, RefusesNext};
ghost use Rattle.positions.specs.Mark.{IsModerate};
ghost use Rattle.vf_expand.specs.Pages.{glyph_at};
ghost use Rattle.vf_expand.specs.Causes.{IsRefusal};
ghost use Rattle.vf_expand.specs.Wide.{IsWide};

use crate::fault::Halt;
use crate::grid::{Grid, Wide};
use dv_base::FontId;
use positions::{Canvas, Pos, SpecialMark};

/// Paints a rule of height `a` and width `b`, where both are above 0.
pub fn put_rule<C: Canvas>(
    grid: &Grid,
    pos: &Pos,
    a: i64,
    b: i64,
    canvas: &mut C,
) -> Result<(), Halt<C::Fault>>
    requires a { unsigned_abs a < 2 ^ 31 }
    requires b { unsigned_abs b < 2 ^ 31 }
    requires can { CanTake C.can Nothing canvas.old (Some (rule_marks grid.now pos.now a b)) }
    ensures ok { OnOk result (Took Nothing C.takes canvas.old canvas.new (rule_marks grid.now pos.now a b)) }
    ensures same { OnOk result (SameCondition C.can canvas.old canvas.new) }
    ensures stops { IfErr result (Halts C.refuses canvas.old canvas.new (Some (rule_marks grid.now pos.now a b))) }
    ensures cause { IfErr result IsRefusal }
{
    if a > 0 && b > 0 {
        let mark = grid.rule(pos, a, b);
        canvas.rule(&mark).map_err(Halt::Canvas)
    } else {
        Ok(())
    }
}

/// Hands on a special at a place.
pub fn put_special<C: Canvas>(pos: &Pos, bytes: &[u8], canvas: &mut C) -> Result<(), Halt<C::Fault>>
    requires short { length bytes.now < 2 ^ 31 }
    requires can { CanTake C.can Nothing canvas.old (Some (special_at pos.now bytes.now ∷ [])) }
    ensures ok { OnOk result (Took Nothing C.takes canvas.old canvas.new (special_at pos.now bytes.now ∷ [])) }
    ensures same { OnOk result (SameCondition C.can canvas.old canvas.new) }
    ensures stops { IfErr result (Halts C.refuses canvas.old canvas.new (Some (special_at pos.now bytes.now ∷ []))) }
    ensures cause { IfErr result IsRefusal }
{
    let mark = SpecialMark {
        bytes,
        x: pos.hh,
        y: pos.vv,
        h: pos.h,
        v: pos.v,
    };
    canvas.special(&mark).map_err(Halt::Canvas)
}

/// Paints the glyph of a character at a place.
#[inline(always)]
pub fn put_glyph<C: Canvas>(
    grid: &Grid,
    font: FontId,
    code: u8,
    pos: &Pos,
    wide: &Wide,
    canvas: &mut C,
) -> Result<(), C::Fault>
    requires wide { IsWide grid.now wide.now }
    requires can { IsModerate (glyph_at grid.now font code pos.now wide.now.width) → C.can canvas.old (glyph_at grid.now font code pos.now wide.now.width) }
    ensures ok { OnOk result (C.takes canvas.old canvas.new (glyph_at grid.now font code pos.now wide.now.width ∷ [])) }
    ensures fit { IsModerate (glyph_at grid.now font code pos.now wide.now.width) }
    ensures same { OnOk result (SameCondition C.can canvas.old canvas.new) }
    ensures stops { IfErr result (λ f. C.refuses canvas.old canvas.new [] (glyph_at grid.now font code pos.now wide.now.width) f) }
{
    let mark = grid.glyph(font, code, pos, wide);
    canvas.glyph(&mark)
}
