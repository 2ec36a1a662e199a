//! Fonts as a page comes to them.
ghost use Rattle.std.specs.Prelude.{◌≡◌, ◌<◌, ◌^◌, ℕ, ℤ, Some, None, Option, IfOk, IfErr, IfSome, OnOk, length, unsigned_abs};
ghost use Rattle.dv_base.specs.Shelf.{Contents, Keeps};
ghost use Rattle.dv_base.specs.declared.font_id.Spot.TheVariants as spot;
ghost use Rattle.dvi_doc.specs.Grammar.{DefinesTwice, IsNamed, IsSized};
ghost use Rattle.dvi_ops.specs.View.{def_view};
ghost use Rattle.font_set.specs.Fonts.{IsLoaded, state_at};
ghost use Rattle.font_set.specs.Gains.{Gains};
ghost use Rattle.font_set.specs.Growth.{keys_now};
ghost use Rattle.font_set.specs.Key.{Key};
ghost use Rattle.font_set.specs.Programs.{page_fonts};
ghost use Rattle.dvitype_list.specs.Kept.{Any, IsNoChar, IsSelected, Knew, Learned, NoWidth, NoWidthAt, NotKnew, NotLearned, StaysUnread, defined_key};
ghost use Rattle.dvitype_list.specs.Widths.{width_by, width_told};

use crate::fault::ListFault;
use crate::state::Selected;
use dv_base::{FontId, Shelf, Spot};
use dvi_doc::{Doc, FontKey};
use dvi_ops::Def;
use font_set::{FontFault, Fonts, Kind, LoadFault};

/// Makes the font of a definition known, as the selected one.
fn learn(fonts: &mut Fonts, font: &Def<'_>) -> Result<Selected, ListFault>
    requires named { IsNamed (def_view font.now) }
    requires sized { IsSized (def_view font.now) }
    ensures ok { IfOk result (Learned fonts.old fonts.new (defined_key (def_view font.now))) }
    ensures fault { IfErr result (NotLearned fonts.old (defined_key (def_view font.now))) }
    ensures gains { (held : Option Contents) → Gains held fonts.old fonts.new Any Any }
{
    let key = FontKey::of(font);
    let id = fonts.know(&key)?;
    let _few = fonts.count();
    Ok(Selected {
        id,
        space: i64::from(key.size / 6),
    })
}

/// Selects the font that a number names; it becomes known.
pub fn select(doc: &Doc<'_>, fonts: &mut Fonts, k: i64, at: u32) -> Result<Selected, ListFault>
    requires given { (n : ℤ) → DefinesTwice doc.now.fonts n → ⊥ }
    ensures ok { IfOk result (Knew fonts.old fonts.new (page_fonts doc.now.fonts) k) }
    ensures fault { IfErr result (NotKnew fonts.old (page_fonts doc.now.fonts) k (spot.Page at)) }
    ensures gains { (held : Option Contents) → Gains held fonts.old fonts.new Any Any }
{
    match doc.font(k) {
        Some(font) => learn(fonts, &doc.definition(font)),
        None => Err(ListFault::Load(LoadFault::UndefinedFont(Spot::Page { at }))),
    }
}

/// Reads the TFM file of a font, where it wasn't read before.
fn load<S: Shelf>(fonts: &mut Fonts, shelf: &mut S, id: FontId) -> Result<(), FontFault>
    requires given { id < length fonts.old.fonts }
    ensures loaded { OnOk result (IsLoaded (state_at fonts.new id)) }
    ensures given { id < length fonts.new.fonts }
    ensures fault { IfErr result (StaysUnread fonts.new (S.told shelf.old) (S.told shelf.new) id) }
    ensures gains { Gains (S.told shelf.old).held fonts.old fonts.new Any Any }
    ensures keys { keys_now fonts.new ≡ keys_now fonts.old }
    ensures keeps { Keeps (S.told shelf.old) (S.told shelf.new) }
{
    match fonts.kind(id) {
        Kind::Known => fonts.load(shelf, id),
        Kind::Real | Kind::Virtual => Ok(()),
    }
}

/// The width of a character in a font, whose TFM file is read where it wasn't before.
fn read_width<S: Shelf>(
    fonts: &mut Fonts,
    shelf: &mut S,
    id: FontId,
    z: i64,
) -> Result<i64, ListFault>
    requires given { id < length fonts.old.fonts }
    ensures ok { IfOk result (λ w. width_told fonts.new (Some id) z ≡ Some w) }
    ensures bound { IfOk result (λ w. unsigned_abs w < 2 ^ 32) }
    ensures fault { IfErr result (NoWidthAt fonts.new (S.told shelf.old) (S.told shelf.new) id z) }
    ensures gains { Gains (S.told shelf.old).held fonts.old fonts.new Any Any }
    ensures keys { keys_now fonts.new ≡ keys_now fonts.old }
    ensures keeps { Keeps (S.told shelf.old) (S.told shelf.new) }
{
    load(fonts, shelf, id)?;
    wide(fonts, id, z)
}

/// The width of a character in a font, where the font is loaded and has the character.
#[inline(always)]
fn width_at(fonts: &Fonts, id: FontId, z: i64) -> Option<i64>
    requires given { id < length fonts.now.fonts }
    ensures value { result ≡ width_told fonts.now (Some id) z }
    ensures bound { IfSome result (λ w. unsigned_abs w < 2 ^ 32) }
{
    match u8::try_from(z) {
        Ok(code) => fonts.width(id, code),
        Err(_) => None,
    }
}

/// The width of a character in the selected font, where a font is selected, loaded and has the character.
///
/// It says no more than [`width`], but its answer is small: a [`ListFault`] carries a font's name in place, and room for one is cleared and
/// moved where a function may answer one. So it is asked first, and `width` only where it has no answer.
#[inline(always)]
pub fn known_width(fonts: &Fonts, font: &Option<Selected>, z: i64) -> Option<i64>
    requires given { (key : Option Key) × IsSelected fonts.now font.now key }
    ensures value { (key : Option Key) → IsSelected fonts.now font.now key → result ≡ width_by fonts.now key z }
    ensures bound { IfSome result (λ w. unsigned_abs w < 2 ^ 32) }
{
    match font {
        Some(selected) => width_at(fonts, selected.id, z),
        None => None,
    }
}

/// The width of a character in the selected font.
pub fn width<S: Shelf>(
    fonts: &mut Fonts,
    shelf: &mut S,
    font: &Option<Selected>,
    z: i64,
    at: u32,
) -> Result<i64, ListFault>
    requires given { (key : Option Key) × IsSelected fonts.old font.now key }
    ensures ok { (key : Option Key) → IsSelected fonts.old font.now key → IfOk result (λ w. width_by fonts.new key z ≡ Some w) }
    ensures bound { IfOk result (λ w. unsigned_abs w < 2 ^ 32) }
    ensures fault { (key : Option Key) → IsSelected fonts.old font.now key → IfErr result (NoWidth fonts.new (S.told shelf.old) (S.told shelf.new) key z (spot.Page at)) }
    ensures gains { Gains (S.told shelf.old).held fonts.old fonts.new Any Any }
    ensures keys { keys_now fonts.new ≡ keys_now fonts.old }
    ensures keeps { Keeps (S.told shelf.old) (S.told shelf.new) }
{
    match font {
        Some(selected) => read_width(fonts, shelf, selected.id, z),
        None => Err(ListFault::Load(LoadFault::NoFont(Spot::Page { at }))),
    }
}

/// The width of a character in a font that is loaded.
fn wide(fonts: &Fonts, id: FontId, z: i64) -> Result<i64, ListFault>
    requires given { id < length fonts.now.fonts }
    requires loaded { IsLoaded (state_at fonts.now id) }
    ensures ok { IfOk result (λ w. width_told fonts.now (Some id) z ≡ Some w) }
    ensures bound { IfOk result (λ w. unsigned_abs w < 2 ^ 32) }
    ensures fault { IfErr result (IsNoChar fonts.now id z) }
{
    let Ok(code) = u8::try_from(z) else {
        return Err(ListFault::Load(LoadFault::NoChar(id, z)));
    };
    match fonts.width(id, code) {
        Some(width) => Ok(width),
        None => Err(ListFault::Load(LoadFault::NoChar(id, z))),
    }
}
