//! The font definitions of a postamble, as they are found one after another.
use crate::fault::DocFault;
use crate::font_def::FontDef;
use dvi_ops::Numbers;
use std::marker::Model;

/// The definitions of a postamble in their order, and the number of each beside which of them it is.
#[derive(Drop)]
pub struct Found<'a> {
    pub(crate) bytes: &'a [u8],
    pub(crate) fonts: Vec<FontDef>,
    pub(crate) numbers: Numbers,
    /// What is wrong with the first one that isn't as it should be.
    pub(crate) fault: Option<DocFault>,
}

impl<'a> Model for Found<'a> {
    ghost use Rattle.std.specs.Prelude.{◌≡◌};
    ghost use Rattle.std.specs.List.{All};
    ghost use Rattle.dvi_ops.specs.Numbered.{numbered};
    ghost use Rattle.dvi_doc.specs.Grammar.{numbers_of};
    ghost use Rattle.dvi_doc.specs.PartFaults.{AreJudged};
    ghost use Rattle.dvi_doc.specs.Standing.{FontsIn, Stands, definitions_at};

    ghost Value = { FontsIn };

    ghost view = { λ f. record { bytes = f.bytes.now; places = f.fonts.items } };

    ghost invariant = { λ f. All (Stands f.bytes.now) f.fonts.items × (f.numbers ≡ numbered 0 (numbers_of (definitions_at f.bytes.now f.fonts.items))) × AreJudged (definitions_at f.bytes.now f.fonts.items) f.fault };
}
