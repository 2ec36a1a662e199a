//! The quick way of most commands of a page, with small answers.
//!
//! A [`ListFault`](crate::ListFault) carries a font's name in place: room for one is cleared and moved at each call that may answer one, and
//! for a command that moves by a few units that is most of the work. So a command is tried here first, where no fault is made, and
//! [`turn`](crate::turn::turn) runs those that are left: it selects fonts, reads their files, ends pages, and tells why a command can't be
//! run.
ghost use Rattle.std.specs.Prelude.{List, MatchBool};
ghost use Rattle.dv_base.specs.Rounding.{Fraction};
ghost use Rattle.dvi_ops.specs.Command.{Definition};
ghost use Rattle.dvi_ops.specs.Command.Command.{Pop, Push, Put, Set};
ghost use Rattle.dvi_ops.specs.View.{view};
ghost use Rattle.font_set.specs.Fonts.{FontSet};
ghost use Rattle.dvitype_list.specs.Kept.{IsInPage, IsPlain, Stands, Turned};
ghost use Rattle.dvitype_list.specs.Standing.{Setting, Standing};
ghost use Rattle.dvitype_list.specs.Widths.{setting};

use crate::fonts::known_width;
use crate::moves::{past_char, plain};
use crate::state::State;
use dv_base::Conv;
use dvi_ops::Cmd;
use font_set::Fonts;
use positions::Passed;

/// Moves past a character of a font that is loaded; false where it can't be, and then the same stands as before.
fn set(conv: &Conv, fonts: &Fonts, state: &mut State, z: i64) -> bool
    requires stands { (st : Standing) × Stands fonts.now state.old st }
    ensures { (ds : List Definition) (st : Standing) → Stands fonts.now state.old st → MatchBool result (Turned (setting conv.now ds fonts.now) (Set z) st fonts.now state.new) (Stands fonts.now state.new st) }
{
    let Some(width) = known_width(fonts, &state.font, z) else {
        return false;
    };
    match past_char(conv, &mut state.pos, width) {
        Ok(()) => true,
        Err(Passed) => false,
    }
}

/// Sets a character of a font that is loaded, and stays; false where it can't be.
fn put(fonts: &Fonts, state: &State, z: i64) -> bool
    requires stands { (st : Standing) × Stands fonts.now state.now st }
    ensures { (pixels : Fraction) (ds : List Definition) (st : Standing) → Stands fonts.now state.now st → MatchBool result (Turned (setting pixels ds fonts.now) (Put z) st fonts.now state.now) (Stands fonts.now state.now st) }
{
    match known_width(fonts, &state.font, z) {
        Some(_) => true,
        None => false,
    }
}

/// Keeps the place; false where as many pushes are open as may be, and then the same stands as before.
fn push(state: &mut State) -> bool
    ensures { (set : FontSet) (s : Setting) (st : Standing) → Stands set state.old st → MatchBool result (Turned s Push st set state.new) (Stands set state.new st) }
{
    state.push()
}

/// Gives back the place that was kept last; false where none is kept, and then the same stands as before.
fn pop(state: &mut State) -> bool
    ensures { (set : FontSet) (s : Setting) (st : Standing) → Stands set state.old st → MatchBool result (Turned s Pop st set state.new) (Stands set state.new st) }
{
    state.pop()
}

/// Does a command that changes the place alone, or nothing; false where a number would be too large, and then the same stands as before.
fn shift(conv: &Conv, cmd: &Cmd<'_>, state: &mut State) -> bool
    requires plain { IsPlain (view cmd.now) }
    ensures { (set : FontSet) (ds : List Definition) (st : Standing) → Stands set state.old st → MatchBool result (Turned (setting conv.now ds set) (view cmd.now) st set state.new) (Stands set state.new st) }
{
    // It is done to a copy, since a move that can't be done may have kept its amount before.
    let mut pos = state.pos;
    match plain(conv, state.space(), cmd, &mut pos) {
        Ok(()) => {
            state.pos = pos;
            true
        }
        Err(Passed) => false,
    }
}

/// Runs one command, where it has a quick way; false where it hasn't or can't be run, and then the same stands as before.
pub fn quick_turn(conv: &Conv, fonts: &Fonts, state: &mut State, cmd: &Cmd<'_>) -> bool
    requires listed { IsInPage (view cmd.now) }
    requires stands { (st : Standing) × Stands fonts.now state.old st }
    ensures { (ds : List Definition) (st : Standing) → Stands fonts.now state.old st → MatchBool result (Turned (setting conv.now ds fonts.now) (view cmd.now) st fonts.now state.new) (Stands fonts.now state.new st) }
{
    match cmd {
        Cmd::Set(z) => set(conv, fonts, state, *z),
        Cmd::Put(z) => put(fonts, state, *z),
        Cmd::Push => push(state),
        Cmd::Pop => pop(state),
        Cmd::Fnt(_) | Cmd::Eop => false,
        other => shift(conv, other, state),
    }
}
