//! Commands that change the place alone, or nothing.
ghost use Rattle.std.specs.Prelude.{◌≡◌, ◌<◌, ◌^◌, ◌⊎◌, ◌+ℤ◌, OnOk, OnErr, Some, None, unsigned_abs};
ghost use Rattle.positions.specs.Drift.{IsSpace};
ghost use Rattle.dvi_ops.specs.View.{view};
ghost use Rattle.dvitype_list.specs.Causes.{IsLarge, Passes};
ghost use Rattle.dvitype_list.specs.Kept.{IsPlain};
ghost use Rattle.dvitype_list.specs.Turns.{down_by, moved, past_char, past_rule, right_by};

use dv_base::Conv;
use dvi_ops::Cmd;
use positions::{Passed, Pos};

/// How many pixels a place may drift from the exact one.
const DRIFT: i64 = 2;

/// Moves right by `q`, where the selected font has this space.
fn right(conv: &Conv, space: i64, pos: &mut Pos, q: i64) -> Result<(), Passed>
    requires space { IsSpace space }
    requires amount { unsigned_abs q < 2 ^ 39 }
    ensures ok { OnOk result (right_by conv.now space q pos.old ≡ Some pos.new) }
    ensures large { OnErr result (IsLarge (pos.old.h +ℤ q)) }
{
    pos.right(conv, DRIFT, space, q)
}

/// Moves down by `q`, where the selected font has this space.
fn down(conv: &Conv, space: i64, pos: &mut Pos, q: i64) -> Result<(), Passed>
    requires space { IsSpace space }
    requires amount { unsigned_abs q < 2 ^ 39 }
    ensures ok { OnOk result (down_by conv.now space q pos.old ≡ Some pos.new) }
    ensures large { OnErr result (IsLarge (pos.old.v +ℤ q)) }
{
    pos.down(conv, DRIFT, space, q)
}

/// Moves right past a character of this width.
pub fn past_char(conv: &Conv, pos: &mut Pos, width: i64) -> Result<(), Passed>
    requires { unsigned_abs width < 2 ^ 32 }
    ensures ok { OnOk result (past_char conv.now width pos.old ≡ Some pos.new) }
    ensures large { OnErr result (IsLarge (pos.old.h +ℤ width)) }
    ensures stays { OnErr result (pos.new ≡ pos.old) }
{
    let pixels = conv.round(width);
    pos.advance(conv, DRIFT, width, pixels)
}

/// Moves right past a rule of width `b`.
fn past_rule(conv: &Conv, pos: &mut Pos, b: i64) -> Result<(), Passed>
    requires { unsigned_abs b < 2 ^ 31 }
    ensures ok { OnOk result (past_rule conv.now b pos.old ≡ Some pos.new) }
    ensures large { OnErr result (IsLarge (pos.old.h +ℤ b)) }
{
    let pixels = conv.ceil(b);
    pos.advance(conv, DRIFT, b, pixels)
}

/// That the height and the width of a rule are not too large.
fn sized(a: i64, b: i64) -> Result<(), Passed>
    ensures ok { OnOk result ((unsigned_abs a < 2 ^ 31) × (unsigned_abs b < 2 ^ 31)) }
    ensures large { OnErr result (IsLarge a ⊎ IsLarge b) }
{
    if a.unsigned_abs() < 1 << 31 && b.unsigned_abs() < 1 << 31 {
        Ok(())
    } else {
        Err(Passed)
    }
}

/// Does a command that is a rule or a move, or that changes nothing. A move with an amount that is kept (w, x, y, z) keeps it first.
#[tactic(auto, unfolding(crate::specs::Turns::moved))]
pub fn plain(conv: &Conv, space: i64, cmd: &Cmd<'_>, pos: &mut Pos) -> Result<(), Passed>
    requires space { IsSpace space }
    requires plain { IsPlain (view cmd.now) }
    ensures ok { OnOk result (moved conv.now space (view cmd.now) pos.old ≡ Some pos.new) }
    ensures large { OnErr result (Passes (view cmd.now) pos.old) }
{
    match cmd {
        Cmd::SetRule { a, b } => {
            sized(i64::from(*a), i64::from(*b))?;
            past_rule(conv, pos, i64::from(*b))
        }
        Cmd::PutRule { a, b } => sized(i64::from(*a), i64::from(*b)),
        Cmd::Nop | Cmd::FntDef(_) | Cmd::Xxx(_) => Ok(()),
        Cmd::Right(q) => right(conv, space, pos, i64::from(*q)),
        Cmd::W0 => {
            let q = pos.w;
            right(conv, space, pos, q)
        }
        Cmd::W(q) => {
            pos.w = i64::from(*q);
            right(conv, space, pos, i64::from(*q))
        }
        Cmd::X0 => {
            let q = pos.x;
            right(conv, space, pos, q)
        }
        Cmd::X(q) => {
            pos.x = i64::from(*q);
            right(conv, space, pos, i64::from(*q))
        }
        Cmd::Down(q) => down(conv, space, pos, i64::from(*q)),
        Cmd::Y0 => {
            let q = pos.y;
            down(conv, space, pos, q)
        }
        Cmd::Y(q) => {
            pos.y = i64::from(*q);
            down(conv, space, pos, i64::from(*q))
        }
        Cmd::Z0 => {
            let q = pos.z;
            down(conv, space, pos, q)
        }
        Cmd::Z(q) => {
            pos.z = i64::from(*q);
            down(conv, space, pos, i64::from(*q))
        }
        _ => unreachable!(),
    }
}
