//! One command of a page.
ghost use Rattle.std.specs.Prelude.{◌≡◌, ℤ, List, Option, OnOk, IfErr};
ghost use Rattle.dv_base.specs.Shelf.{Contents, Keeps, Told};
ghost use Rattle.dv_base.specs.Rounding.{Fraction};
ghost use Rattle.dvi_doc.specs.Grammar.{DefinesTwice};
ghost use Rattle.dvi_ops.specs.Command.{Definition};
ghost use Rattle.dvi_ops.specs.Command.Command.{Eop, Fnt, Pop, Push, Put, Set};
ghost use Rattle.dvi_ops.specs.View.{view};
ghost use Rattle.font_set.specs.Fonts.{FontSet};
ghost use Rattle.font_set.specs.Gains.{Gains};
ghost use Rattle.dvitype_list.specs.Kept.{Any, IsInPage, IsPlain, NotTurned, Stands, Turned};
ghost use Rattle.dvitype_list.specs.Standing.{Setting, Standing};
ghost use Rattle.dvitype_list.specs.Widths.{setting};

use crate::fault::ListFault;
use crate::fonts::{select, width};
use crate::moves::{past_char, plain};
use crate::state::State;
use dv_base::{Conv, Shelf, Spot};
use dvi_doc::Doc;
use dvi_ops::Cmd;
use font_set::Fonts;
use positions::Passed;

/// Moves past a character.
fn set<S: Shelf>(
    conv: &Conv,
    fonts: &mut Fonts,
    shelf: &mut S,
    state: &mut State,
    z: i64,
    at: u32,
) -> Result<(), ListFault>
    requires stands { (st : Standing) × Stands fonts.old state.old st }
    ensures ok { (ds : List Definition) (st : Standing) → Stands fonts.old state.old st → OnOk result (Turned (setting conv.now ds fonts.new) (Set z) st fonts.new state.new) }
    ensures fault { (ds : List Definition) (st : Standing) → Stands fonts.old state.old st → IfErr result (NotTurned (setting conv.now ds fonts.new) fonts.new (S.told shelf.old) (S.told shelf.new) (record { place = at; command = Set z }) st) }
    ensures gains { Gains (S.told shelf.old).held fonts.old fonts.new Any Any }
    ensures keeps { Keeps (S.told shelf.old) (S.told shelf.new) }
{
    match width(fonts, shelf, &state.font, z, at) {
        Ok(width) => match past_char(conv, &mut state.pos, width) {
            Ok(()) => Ok(()),
            Err(Passed) => Err(ListFault::Overflow(Spot::Page { at })),
        },
        Err(fault) => Err(fault),
    }
}

/// Sets a character and stays.
fn put<S: Shelf>(
    fonts: &mut Fonts,
    shelf: &mut S,
    state: &State,
    z: i64,
    at: u32,
) -> Result<(), ListFault>
    requires stands { (st : Standing) × Stands fonts.old state.now st }
    ensures ok { (pixels : Fraction) (ds : List Definition) (st : Standing) → Stands fonts.old state.now st → OnOk result (Turned (setting pixels ds fonts.new) (Put z) st fonts.new state.now) }
    ensures fault { (pixels : Fraction) (ds : List Definition) (st : Standing) → Stands fonts.old state.now st → IfErr result (NotTurned (setting pixels ds fonts.new) fonts.new (S.told shelf.old) (S.told shelf.new) (record { place = at; command = Put z }) st) }
    ensures gains { Gains (S.told shelf.old).held fonts.old fonts.new Any Any }
    ensures keeps { Keeps (S.told shelf.old) (S.told shelf.new) }
{
    match width(fonts, shelf, &state.font, z, at) {
        Ok(_) => Ok(()),
        Err(fault) => Err(fault),
    }
}

/// Selects the font of a number.
fn font(
    doc: &Doc<'_>,
    fonts: &mut Fonts,
    state: &mut State,
    k: i64,
    at: u32,
) -> Result<(), ListFault>
    requires given { (n : ℤ) → DefinesTwice doc.now.fonts n → ⊥ }
    ensures ok { (pixels : Fraction) (st : Standing) → Stands fonts.old state.old st → OnOk result (Turned (setting pixels doc.now.fonts fonts.new) (Fnt k) st fonts.new state.new) }
    ensures fault { (pixels : Fraction) (old new : Told) (st : Standing) → Stands fonts.old state.old st → IfErr result (NotTurned (setting pixels doc.now.fonts fonts.new) fonts.new old new (record { place = at; command = Fnt k }) st) }
    ensures gains { (held : Option Contents) → Gains held fonts.old fonts.new Any Any }
{
    match select(doc, fonts, k, at) {
        Ok(selected) => {
            state.font = Some(selected);
            Ok(())
        }
        Err(fault) => Err(fault),
    }
}

/// Keeps the place.
fn push(state: &mut State, at: u32) -> Result<(), ListFault>
    ensures ok { (set : FontSet) (s : Setting) (st : Standing) → Stands set state.old st → OnOk result (Turned s Push st set state.new) }
    ensures fault { (set : FontSet) (s : Setting) (old new : Told) (st : Standing) → Stands set state.old st → IfErr result (NotTurned s set old new (record { place = at; command = Push }) st) }
{
    if state.push() {
        Ok(())
    } else {
        Err(ListFault::StackDeep(Spot::Page { at }))
    }
}

/// Gives back the place that was kept last.
fn pop(state: &mut State, at: u32) -> Result<(), ListFault>
    ensures ok { (set : FontSet) (s : Setting) (st : Standing) → Stands set state.old st → OnOk result (Turned s Pop st set state.new) }
    ensures fault { (set : FontSet) (s : Setting) (old new : Told) (st : Standing) → Stands set state.old st → IfErr result (NotTurned s set old new (record { place = at; command = Pop }) st) }
{
    if state.pop() {
        Ok(())
    } else {
        Err(ListFault::StackUnder(Spot::Page { at }))
    }
}

/// Ends a page, where no push is open.
fn end(state: &State, at: u32) -> Result<(), ListFault>
    ensures ok { (set : FontSet) (s : Setting) (st : Standing) → Stands set state.now st → OnOk result (Turned s Eop st set state.now) }
    ensures fault { (set : FontSet) (s : Setting) (old new : Told) (st : Standing) → Stands set state.now st → IfErr result (NotTurned s set old new (record { place = at; command = Eop }) st) }
{
    if state.saved.is_empty() {
        Ok(())
    } else {
        Err(ListFault::StackLeft(Spot::Page { at }))
    }
}

/// Does a command that changes the place alone, or nothing.
fn shift(conv: &Conv, cmd: &Cmd<'_>, state: &mut State, at: u32) -> Result<(), ListFault>
    requires plain { IsPlain (view cmd.now) }
    ensures ok { (set : FontSet) (ds : List Definition) (st : Standing) → Stands set state.old st → OnOk result (Turned (setting conv.now ds set) (view cmd.now) st set state.new) }
    ensures fault { (set : FontSet) (ds : List Definition) (old new : Told) (st : Standing) → Stands set state.old st → IfErr result (NotTurned (setting conv.now ds set) set old new (record { place = at; command = view cmd.now }) st) }
{
    match plain(conv, state.space(), cmd, &mut state.pos) {
        Ok(()) => Ok(()),
        Err(Passed) => Err(ListFault::Overflow(Spot::Page { at })),
    }
}

/// Runs one command, which stands at this place.
pub fn turn<S: Shelf>(
    doc: &Doc<'_>,
    conv: &Conv,
    fonts: &mut Fonts,
    shelf: &mut S,
    state: &mut State,
    cmd: &Cmd<'_>,
    at: u32,
) -> Result<(), ListFault>
    requires given { (n : ℤ) → DefinesTwice doc.now.fonts n → ⊥ }
    requires listed { IsInPage (view cmd.now) }
    requires stands { (st : Standing) × Stands fonts.old state.old st }
    ensures ok { (st : Standing) → Stands fonts.old state.old st → OnOk result (Turned (setting conv.now doc.now.fonts fonts.new) (view cmd.now) st fonts.new state.new) }
    ensures fault { (st : Standing) → Stands fonts.old state.old st → IfErr result (NotTurned (setting conv.now doc.now.fonts fonts.new) fonts.new (S.told shelf.old) (S.told shelf.new) (record { place = at; command = view cmd.now }) st) }
    ensures gains { Gains (S.told shelf.old).held fonts.old fonts.new Any Any }
    ensures keeps { Keeps (S.told shelf.old) (S.told shelf.new) }
{
    match cmd {
        Cmd::Set(z) => set(conv, fonts, shelf, state, *z, at),
        Cmd::Put(z) => put(fonts, shelf, state, *z, at),
        Cmd::Fnt(k) => font(doc, fonts, state, *k, at),
        Cmd::Push => push(state, at),
        Cmd::Pop => pop(state, at),
        Cmd::Eop => end(state, at),
        other => shift(conv, other, state, at),
    }
}
