//! The fonts of a postamble, by number.
ghost use Rattle.std.specs.Prelude.{◌≡◌, IfOk, IfErr, OnOk, MatchBool, MatchOption};
ghost use Rattle.std.specs.List.{Contains, All};
ghost use Rattle.dvi_ops.specs.View.{def_view};
ghost use Rattle.dvi_doc.specs.Grammar.{AreFonts, AllAmong, Defines};
ghost use Rattle.dvi_doc.specs.Faults.{FontFault};
ghost use Rattle.dvi_doc.specs.PartFaults.{Differs};
ghost use Rattle.dvi_doc.specs.Standing.{Stands, definition_at, definitions_at, fonts_in};

use crate::fault::DocFault;
use crate::font::is_same;
use crate::font_def::FontDef;
use crate::found::Found;
use dvi_ops::{Def, NumberIndex};
use std::marker::Model;

/// The definitions of a postamble in their order, each number once, and an index of their numbers.
#[derive(Drop)]
pub struct Fonts<'a> {
    bytes: &'a [u8],
    fonts: Vec<FontDef>,
    index: NumberIndex,
}

impl<'a> Model for Fonts<'a> {
    ghost use Rattle.std.specs.List.{All};
    ghost use Rattle.std.specs.List.Sorted.{IsPermutation};
    ghost use Rattle.dvi_ops.specs.Numbered.{numbered};
    ghost use Rattle.dvi_doc.specs.Grammar.{numbers_of};
    ghost use Rattle.dvi_doc.specs.Standing.{FontsIn, Stands, definitions_at};

    ghost Value = { FontsIn };

    ghost view = { λ f. record { bytes = f.bytes.now; places = f.fonts.items } };

    ghost invariant = { λ f. All (Stands f.bytes.now) f.fonts.items × IsPermutation (numbered 0 (numbers_of (definitions_at f.bytes.now f.fonts.items))) f.index };
}

impl<'a> Fonts<'a> {
    /// The fonts of these definitions.
    pub fn new(found: Found<'a>) -> Result<Fonts<'a>, DocFault>
        ensures found { IfOk result (λ fonts. (fonts ≡ found.entry) × AreFonts (fonts_in fonts)) }
        ensures stands { IfOk result (λ fonts. All (Stands fonts.bytes) fonts.places) }
        ensures fault { IfErr result (FontFault (fonts_in found.entry)) }
    {
        if let Some(fault) = found.fault {
            return Err(fault);
        }
        let index = NumberIndex::new(found.numbers);
        if let Some(k) = index.twice() {
            return Err(DocFault::FontTwice { k });
        }
        Ok(Fonts {
            bytes: found.bytes,
            fonts: found.fonts,
            index,
        })
    }

    /// All of them, in their order.
    pub fn all(&self) -> &[FontDef]
        ensures places { result.now ≡ self.now.places }
        ensures stands { All (Stands self.now.bytes) self.now.places }
    {
        &self.fonts
    }

    /// The font of a number; `None` exactly where there is none.
    pub fn get(&self, k: i64) -> Option<&FontDef>
        ensures found { MatchOption result (Defines (fonts_in self.now) k → ⊥)
            (λ font. Contains self.now.places font.now × ((definition_at self.now.bytes font.now.at).k ≡ k)) }
        ensures stands { All (Stands self.now.bytes) self.now.places }
    {
        let which = self.index.place(k)?;
        Some(&self.fonts[which])
    }

    /// Whether one of the fonts is what a definition says, in all fields.
    fn has(&self, def: &Def<'_>) -> bool
        requires { AreFonts (fonts_in self.now) }
        ensures { MatchBool result (Contains (fonts_in self.now) (def_view def.now)) (Contains (fonts_in self.now) (def_view def.now) → ⊥) }
    {
        match self.get(i64::from(def.k)) {
            Some(font) => is_same(&font.read(self.bytes), def),
            None => false,
        }
    }

    /// That each of these definitions, which stand in the same file, is one of the fonts, equal in all fields.
    pub fn check(&self, earlier: &[FontDef]) -> Result<(), DocFault>
        requires fonts { AreFonts (fonts_in self.now) }
        requires stands { All (Stands self.now.bytes) earlier.now }
        ensures same { OnOk result (AllAmong (fonts_in self.now) (definitions_at self.now.bytes earlier.now)) }
        ensures fault { IfErr result (Differs (fonts_in self.now) (definitions_at self.now.bytes earlier.now)) }
    {
        for font in earlier {
            let def = font.read(self.bytes);
            if !self.has(&def) {
                return Err(DocFault::FontDiffers {
                    k: i64::from(def.k),
                });
            }
        }
        Ok(())
    }
}
