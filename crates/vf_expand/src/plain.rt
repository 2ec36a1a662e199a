//! One command that is neither push nor pop, selects no font and sets no character.
ghost use Rattle.std.specs.Prelude.{◌≡◌, ◌<◌, ◌^◌, ◌⊎◌, [], ◌∷◌, OnOk, IfErr, IfOk, OnErr, Some, None, unsigned_abs};
ghost use Rattle.dvi_ops.specs.Command.Command.{SetRule, PutRule};
ghost use Rattle.dvi_ops.specs.View.{view};
ghost use Rattle.positions.specs.Conditions.{SameCondition};
ghost use Rattle.vf_expand.specs.Commands.{IsPlain, special_size};
ghost use Rattle.vf_expand.specs.Marks.{step, marks_alone};
ghost use Rattle.vf_expand.specs.Homes.{IsGiven, IsFont, bare_in};
ghost use Rattle.vf_expand.specs.Takes.{CanTake, Nothing, Took, Follows, Halts};
ghost use Rattle.vf_expand.specs.Causes.{IsLarge, IsHaltCause};

use crate::fault::Halt;
use crate::home::Frame;
use crate::paint::{put_rule, put_special};
use crate::shift::shift;
use dv_base::FontId;
use dvi_ops::Cmd;
use positions::{Canvas, Passed, Pos};

/// That the height and the width of a rule are not too large.
fn sized(a: i64, b: i64) -> Result<(), Passed>
    ensures ok { OnOk result ((unsigned_abs a < 2 ^ 31) × (unsigned_abs b < 2 ^ 31)) }
    ensures cause { OnErr result (IsLarge a ⊎ IsLarge b) }
{
    if a.unsigned_abs() < 1 << 31 && b.unsigned_abs() < 1 << 31 {
        Ok(())
    } else {
        Err(Passed)
    }
}

/// A rule, and a move past it.
#[tactic(auto, unfolding(crate::specs::Marks::step))]
fn set_rule<C: Canvas>(
    frame: &Frame<'_>,
    pos: &mut Pos,
    font: &Option<FontId>,
    a: i32,
    b: i32,
    canvas: &mut C,
) -> Result<(), Halt<C::Fault>>
    requires given { IsGiven frame.now.fonts.now frame.now.home }
    requires can { CanTake C.can Nothing canvas.old (marks_alone (step (bare_in frame.now) (SetRule a b) (record { place = pos.old; font = font.now }))) }
    ensures ok { OnOk result (Follows (Took Nothing C.takes) canvas.old canvas.new (record { place = pos.new; font = font.now }) (step (bare_in frame.now) (SetRule a b) (record { place = pos.old; font = font.now }))) }
    ensures same { OnOk result (SameCondition C.can canvas.old canvas.new) }
    ensures stops { IfErr result (Halts C.refuses canvas.old canvas.new (marks_alone (step (bare_in frame.now) (SetRule a b) (record { place = pos.old; font = font.now })))) }
    ensures cause { IfErr result (IsHaltCause (bare_in frame.now) (SetRule a b) (record { place = pos.old; font = font.now })) }
{
    let height = frame.amount(a);
    let width = frame.amount(b);
    sized(height, width)?;
    let here = *pos;
    // moved first: a rule whose move would pass the limit gives no mark
    frame.grid.past_rule(pos, width)?;
    put_rule(&frame.grid, &here, height, width, canvas)
}

/// Does such a command that may move or give a mark.
#[inline(never)]
#[tactic(auto, unfolding(crate::specs::Marks::step))]
fn moved_or_marked<C: Canvas>(
    frame: &Frame<'_>,
    cmd: &Cmd<'_>,
    pos: &mut Pos,
    font: &Option<FontId>,
    canvas: &mut C,
) -> Result<(), Halt<C::Fault>>
    requires given { IsGiven frame.now.fonts.now frame.now.home }
    requires font { IsFont frame.now.fonts.now font.now }
    requires plain { IsPlain (view cmd.now) }
    requires short { special_size (view cmd.now) < 2 ^ 31 }
    requires can { CanTake C.can Nothing canvas.old (marks_alone (step (bare_in frame.now) (view cmd.now) (record { place = pos.old; font = font.now }))) }
    ensures ok { OnOk result (Follows (Took Nothing C.takes) canvas.old canvas.new (record { place = pos.new; font = font.now }) (step (bare_in frame.now) (view cmd.now) (record { place = pos.old; font = font.now }))) }
    ensures same { OnOk result (SameCondition C.can canvas.old canvas.new) }
    ensures stops { IfErr result (Halts C.refuses canvas.old canvas.new (marks_alone (step (bare_in frame.now) (view cmd.now) (record { place = pos.old; font = font.now })))) }
    ensures cause { IfErr result (IsHaltCause (bare_in frame.now) (view cmd.now) (record { place = pos.old; font = font.now })) }
{
    match cmd {
        Cmd::SetRule { a, b } => set_rule(frame, pos, font, *a, *b, canvas),
        Cmd::PutRule { a, b } => {
            let height = frame.amount(*a);
            let width = frame.amount(*b);
            sized(height, width)?;
            put_rule(&frame.grid, pos, height, width, canvas)
        }
        Cmd::Xxx(bytes) => put_special(pos, bytes, canvas),
        Cmd::Nop | Cmd::FntDef(_) => Ok(()),
        other => Ok(shift(frame, other, pos, font)?),
    }
}

/// Does one command that is neither push nor pop, selects no font and sets no character.
// A nop is done where the caller stands.
#[inline(always)]
#[tactic(auto, unfolding(crate::specs::Marks::step))]
pub fn plain<C: Canvas>(
    frame: &Frame<'_>,
    cmd: &Cmd<'_>,
    pos: &mut Pos,
    font: &Option<FontId>,
    canvas: &mut C,
) -> Result<(), Halt<C::Fault>>
    requires given { IsGiven frame.now.fonts.now frame.now.home }
    requires font { IsFont frame.now.fonts.now font.now }
    requires plain { IsPlain (view cmd.now) }
    requires short { special_size (view cmd.now) < 2 ^ 31 }
    requires can { CanTake C.can Nothing canvas.old (marks_alone (step (bare_in frame.now) (view cmd.now) (record { place = pos.old; font = font.now }))) }
    ensures ok { OnOk result (Follows (Took Nothing C.takes) canvas.old canvas.new (record { place = pos.new; font = font.now }) (step (bare_in frame.now) (view cmd.now) (record { place = pos.old; font = font.now }))) }
    ensures same { OnOk result (SameCondition C.can canvas.old canvas.new) }
    ensures stops { IfErr result (Halts C.refuses canvas.old canvas.new (marks_alone (step (bare_in frame.now) (view cmd.now) (record { place = pos.old; font = font.now })))) }
    ensures cause { IfErr result (IsHaltCause (bare_in frame.now) (view cmd.now) (record { place = pos.old; font = font.now })) }
{
    match cmd {
        Cmd::Nop => Ok(()),
        other => moved_or_marked(frame, other, pos, font, canvas),
    }
}
