//! What stands before the pages of a copy, and the definitions that stand behind them again.
ghost use Rattle.std.specs.Prelude.{◌≡◌, ◌<◌, ◌≤◌, ◌+◌, ◌++◌, ◌∷◌, [], IfOk, OnOk, length, drop, vec_len};
ghost use Rattle.std.specs.List.{AllByRecursion};
ghost use Rattle.dvi_ops.specs.Command.Command.{FntDef, Pre};
ghost use Rattle.dvi_ops.specs.View.{view};
ghost use Rattle.dvi_doc.specs.View.{IsRead};
ghost use Rattle.font_set.specs.Fonts.{state_at, key_at};
ghost use Rattle.font_set.specs.Key.{IsKey};
ghost use Rattle.font_set.specs.Views.{key_of};
ghost use Rattle.dvicopy_out.specs.Copies.{preamble};
ghost use Rattle.dvicopy_out.specs.Numbered as numbered;
ghost use Rattle.dvicopy_out.specs.Numbered.{definition, definitions, number_of, put_definition};
ghost use Rattle.dvicopy_out.specs.Spelled.{spelled};
ghost use Rattle.dvicopy_out.specs.Tables.{IsTable};
ghost use Rattle.dvicopy_out.specs.Writable.{IsPutFont, IsPutKey};

use crate::numbers::{Numbers, id_at, is_real};
use crate::script::Script;
use dv_base::FontId;
use dvi_doc::{Doc, FontKey};
use dvi_ops::{Cmd, Def, Head};
use font_set::Fonts;
use std::alloc::{AllocError, Global};
use std::marker::Model;

/// The preamble and the definitions of a copy, as bytes.
#[derive(Drop)]
pub struct Front {
    bytes: Vec<u8>,
    /// Where the definitions begin.
    behind: usize,
    ghost within: { behind ≤ vec_len bytes },
}

/// The definition of a font by this number; no part of its name is called its area.
fn define(script: &mut Script, key: &FontKey, number: u32)
    requires key { IsKey (key_of key.now) }
    requires number { number < 65536 }
    ensures { script.new ≡ spelled (FntDef (definition number (key_of key.now)) ∷ []) }
{
    script.clear();
    script.command(&Cmd::FntDef(Def {
        k: number as i32,
        checksum: key.checksum,
        size: key.size as i32,
        design: key.design as i32,
        area: 0,
        name: key.name.as_str().as_bytes(),
    }));
}

/// The key of a font, which can be spelled.
fn sound_key(fonts: &Fonts, id: FontId) -> &FontKey
    requires given { id < length fonts.now.fonts }
    ensures value { key_of result.now ≡ key_at fonts.now id }
    ensures key { IsKey (key_of result.now) }
    ensures sound { IsPutKey (key_at fonts.now id) }
{
    let key = fonts.key(id);
    let _checksum = key.checksum;
    key
}

/// Appends the definition of a font, where it is real and loaded.
fn append_definition(
    bytes: &mut Vec<u8>,
    fonts: &Fonts,
    numbers: &Numbers,
    id: FontId,
    script: &mut Script,
) -> Result<(), AllocError>
    requires given { id < length fonts.now.fonts }
    requires table { IsTable fonts.now numbers.now }
    ensures key { IsPutKey (key_at fonts.now id) }
    ensures bytes { OnOk result (bytes.new.items ≡ bytes.old.items ++ spelled (put_definition (number_of fonts.now id) (key_at fonts.now id) (numbered.is_real (state_at fonts.now id)) [])) }
{
    let key = sound_key(fonts, id);
    if is_real(fonts, id) {
        define(script, key, numbers.of(id));
        bytes.extend_from_slice(script.as_slice())?;
    }
    Ok(())
}

/// Appends the definitions of all real fonts that are loaded.
fn append_definitions(
    bytes: &mut Vec<u8>,
    fonts: &Fonts,
    script: &mut Script,
) -> Result<(), AllocError>
    ensures bytes { OnOk result (bytes.new.items ≡ bytes.old.items ++ spelled (definitions fonts.now)) }
    ensures few { length fonts.now.fonts ≤ 1000 }
    ensures keys { OnOk result (AllByRecursion IsPutFont fonts.now.fonts) }
{
    let numbers = Numbers::new(fonts);
    fonts.bitmaps_are_rows();
    for place in 0..fonts.count() {
        append_definition(bytes, fonts, &numbers, id_at(place), script)?;
    }
    Ok(())
}

/// Appends the preamble: that of the document, with this magnification.
fn append_preamble(
    bytes: &mut Vec<u8>,
    doc: &Doc<'_>,
    mag: i32,
    script: &mut Script,
) -> Result<(), AllocError>
    ensures { OnOk result (bytes.new.items ≡ bytes.old.items ++ spelled (Pre (preamble doc.now.head mag) ∷ [])) }
{
    let head = doc.head();
    script.clear();
    script.command(&Cmd::Pre(Head {
        id: 2,
        num: head.num,
        den: head.den,
        mag,
        comment: head.comment,
    }));
    bytes.extend_from_slice(script.as_slice())?;
    bytes.extend_from_slice(head.comment)?;
    Ok(())
}

impl Front {
    ghost use Rattle.dvicopy_out.specs.Fronts.{bytes_of, definitions_of};

    /// What stands before the pages of a document's copy with these fonts and this magnification.
    pub fn new(alloc: Global, doc: &Doc<'_>, fonts: &Fonts, mag: i32) -> Result<Front, AllocError>
        ensures bytes { IfOk result (λ front. bytes_of front ≡ spelled (Pre (preamble doc.now.head mag) ∷ definitions fonts.now)) }
        ensures definitions { IfOk result (λ front. definitions_of front ≡ spelled (definitions fonts.now)) }
        ensures few { OnOk result (length fonts.now.fonts ≤ 1000) }
        ensures keys { OnOk result (AllByRecursion IsPutFont fonts.now.fonts) }
    {
        let mut script = Script::new();
        let mut bytes = Vec::new(alloc);
        append_preamble(&mut bytes, doc, mag, &mut script)?;
        let behind = bytes.len();
        append_definitions(&mut bytes, fonts, &mut script)?;
        Ok(Front { bytes, behind })
    }

    /// All of it.
    pub fn as_slice(&self) -> &[u8]
        ensures { result.now ≡ bytes_of self.now }
    {
        self.bytes.as_slice()
    }

    /// The definitions alone.
    pub fn definitions(&self) -> &[u8]
        ensures { result.now ≡ definitions_of self.now }
    {
        &self.bytes[self.behind..]
    }

    /// How many bytes it and the definitions have together.
    pub fn around(&self) -> u64
        ensures { result ≡ length (bytes_of self.now) + length (definitions_of self.now) }
    {
        self.as_slice().len() as u64 + self.definitions().len() as u64
    }
}
