//! A canvas in memory.
ghost use Rattle.std.specs.Prelude.{◌≡◌, List, [], ◌∷◌, ◌++◌, vec_len, length};
ghost use Rattle.positions.specs.Mark.{Mark, IsModerate};
ghost use Rattle.positions.specs.MarkList.{mark_of, marks_of};
ghost use Rattle.positions.specs.MarkListLaws.{took_none, took_both};

use crate::canvas::Canvas;
use crate::mark::{GlyphMark, RuleMark, SpecialMark};
use std::alloc::{AllocError, Global};
use std::marker::Model;

/// A mark that is kept, with bytes of its own.
#[derive(Drop)]
pub enum Kept {
    Glyph(GlyphMark),
    Rule(RuleMark),
    Special {
        bytes: Vec<u8>,
        x: i64,
        y: i64,
        h: i64,
        v: i64,
    },
}

/// Keeps the marks that it is given, the first one first. It refuses one only where there is no memory for it, and then keeps the
/// former ones.
#[derive(Drop)]
pub struct MarkList {
    alloc: Global,
    kept: Vec<Kept>,
}

impl Model for MarkList {
    ghost use Rattle.std.specs.Prelude.{List};
    ghost use Rattle.positions.specs.Mark.{Mark};

    ghost Value = { List Mark };

    ghost use Rattle.positions.specs.MarkList.{marks_of};

    ghost view = { λ list. marks_of list.kept.items };
}

impl MarkList {
    /// A list without marks.
    pub fn new(alloc: Global) -> MarkList
        ensures { result ≡ [] }
    {
        MarkList {
            alloc,
            kept: Vec::new(alloc),
        }
    }

    /// The marks.
    pub fn as_slice(&self) -> &[Kept]
        ensures { marks_of result.now ≡ self.now }
    {
        self.kept.as_slice()
    }
}

impl Canvas for MarkList {
    type Fault = AllocError;

    ghost can = { λ list mark. IsModerate mark };

    ghost takes = { λ old new marks. new ≡ old ++ marks };

    ghost refuses = { λ old new marks mark fault. new ≡ old ++ marks };

    fn glyph(&mut self, mark: &GlyphMark) -> Result<(), AllocError> {
        self.kept.push(Kept::Glyph(*mark))?;
        Ok(())
    }

    fn rule(&mut self, mark: &RuleMark) -> Result<(), AllocError> {
        self.kept.push(Kept::Rule(*mark))?;
        Ok(())
    }

    fn special(&mut self, mark: &SpecialMark<'_>) -> Result<(), AllocError> {
        let bytes = Vec::from_slice(self.alloc, mark.bytes)?;
        self.kept.push(Kept::Special {
            bytes,
            x: mark.x,
            y: mark.y,
            h: mark.h,
            v: mark.v,
        })?;
        Ok(())
    }

    ghost starts = { λ list. took_none list };

    ghost chains = { λ a b c xs ys. took_both a b c xs ys };

    ghost refused_later = { λ a b c xs ys mark fault. took_both a b c xs ys };
}
