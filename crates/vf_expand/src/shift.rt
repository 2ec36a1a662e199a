//! Moves, right and down.
ghost use Rattle.std.specs.Prelude.{◌≡◌, [], OnOk, OnErr, Some, None};
ghost use Rattle.dvi_ops.specs.View.{view};
ghost use Rattle.vf_expand.specs.Causes.{Passes};
ghost use Rattle.vf_expand.specs.Commands.{IsMove};
ghost use Rattle.vf_expand.specs.Homes.{IsGiven, IsFont, bare_in};
ghost use Rattle.vf_expand.specs.Marks.{step};

use crate::home::Frame;
use dv_base::FontId;
use dvi_ops::Cmd;
use positions::{Passed, Pos};

/// Does a move. One with an amount that is kept (w, x, y, z) keeps it first.
#[tactic(auto, unfolding(crate::specs::Marks::step))]
pub fn shift(
    frame: &Frame<'_>,
    cmd: &Cmd<'_>,
    pos: &mut Pos,
    font: &Option<FontId>,
) -> Result<(), Passed>
    requires given { IsGiven frame.now.fonts.now frame.now.home }
    requires font { IsFont frame.now.fonts.now font.now }
    requires moves { IsMove (view cmd.now) }
    ensures ok { OnOk result (step (bare_in frame.now) (view cmd.now) (record { place = pos.old; font = font.now }) ≡ Some ([], record { place = pos.new; font = font.now })) }
    ensures none { OnErr result (step (bare_in frame.now) (view cmd.now) (record { place = pos.old; font = font.now }) ≡ None) }
    ensures cause { OnErr result (Passes (bare_in frame.now) (view cmd.now) (record { place = pos.old; font = font.now })) }
{
    let grid = &frame.grid;
    let space = frame.space(*font);
    match cmd {
        Cmd::Right(q) => grid.right(space, pos, frame.amount(*q)),
        Cmd::W0 => {
            let q = pos.w;
            grid.right(space, pos, q)
        }
        Cmd::W(q) => {
            let q = frame.amount(*q);
            pos.w = q;
            grid.right(space, pos, q)
        }
        Cmd::X0 => {
            let q = pos.x;
            grid.right(space, pos, q)
        }
        Cmd::X(q) => {
            let q = frame.amount(*q);
            pos.x = q;
            grid.right(space, pos, q)
        }
        Cmd::Down(q) => grid.down(space, pos, frame.amount(*q)),
        Cmd::Y0 => {
            let q = pos.y;
            grid.down(space, pos, q)
        }
        Cmd::Y(q) => {
            let q = frame.amount(*q);
            pos.y = q;
            grid.down(space, pos, q)
        }
        Cmd::Z0 => {
            let q = pos.z;
            grid.down(space, pos, q)
        }
        Cmd::Z(q) => {
            let q = frame.amount(*q);
            pos.z = q;
            grid.down(space, pos, q)
        }
        _ => unreachable!(),
    }
}
