//! Stretches: letters of one font and row, each at the place that the one before it leaves.
ghost use Rattle.std.specs.Prelude.{◌≡◌, ◌≤◌, ◌+◌, ◌+ℤ◌, ◌++◌, [], ◌∷◌, length, Some, true};
ghost use Rattle.ps_subset.specs.Items.{pen_behind_stretch};
ghost use Rattle.ps_subset.specs.Marks.{kept_begun, kept_closing, kept_goes_on};
ghost use Rattle.ps_emit.specs.Bounds.{IsNear, IsNearNext};

use crate::items;
use crate::pen::Pen;
use arrayvec::ArrayVec;
use dv_base::{FontId, Line};
use positions::GlyphMark;
use std::marker::Model;

/// How many letters a stretch has at most.
const MOST_LETTERS: usize = 50;

/// A stretch that may go on. Its letters are kept as codes; their widths are in the pixel behind the last one.
#[derive(Drop)]
pub struct Stretch {
    font: FontId,
    codes: ArrayVec<u8, MOST_LETTERS>,
    x: i64,
    y: i64,
    /// The pixel behind the last letter.
    last: i64,
}

impl Model for Stretch {
    ghost use Rattle.ps_subset.specs.Marks.{Kept};
    ghost use Rattle.ps_emit.specs.Bounds.{IsNearKept};

    ghost Value = { Kept };

    ghost view = { λ s. record { font = s.font; codes = s.codes.items; x = s.x; y = s.y; last = s.last } };

    ghost invariant = { λ s. IsNearKept (record { font = s.font; codes = s.codes.items; x = s.x; y = s.y; last = s.last }) };
}

impl Stretch {
    /// A stretch of one letter.
    pub fn begin(mark: &GlyphMark) -> Stretch
        requires x { IsNear mark.now.x }
        requires y { IsNear mark.now.y }
        requires pixels { IsNear mark.now.pixels }
        ensures { result ≡ kept_begun mark.now.font mark.now.code mark.now.x mark.now.y mark.now.pixels }
    {
        let mut codes = ArrayVec::new();
        codes.push(mark.code);
        Stretch {
            font: mark.font,
            codes,
            x: mark.x,
            y: mark.y,
            last: mark.x + mark.pixels,
        }
    }

    /// Whether a letter goes on the stretch: it has its font and row, and stands at the pixel behind it, and there are fewer than 50.
    pub fn goes_on(&self, mark: &GlyphMark) -> bool
        ensures { result ≡ kept_goes_on (Some self.now) mark.now.font mark.now.x mark.now.y }
    {
        self.font == mark.font
            && self.y == mark.y
            && self.last == mark.x
            && self.codes.len() < MOST_LETTERS
    }

    /// Takes a letter more.
    pub fn push(&mut self, mark: &GlyphMark)
        requires goes_on { kept_goes_on (Some self.old) mark.now.font mark.now.x mark.now.y ≡ true }
        requires x { IsNear mark.now.x }
        requires pixels { IsNear mark.now.pixels }
        ensures { self.new ≡ record self.old { codes = self.old.codes ++ mark.now.code ∷ []; last = self.old.last +ℤ mark.now.pixels } }
    {
        self.codes.push(mark.code);
        self.last += mark.pixels;
    }

    /// Appends the lines of the stretch: its font where it is to be set, the move to it, its string, and the way to the next item.
    pub fn lines(&self, line: &mut Line, pen: &Pen, next: Option<(i64, i64)>)
        requires room { length line.old + 420 ≤ 1024 }
        requires next { IsNearNext next }
        ensures value { line.new ≡ line.old ++ kept_closing pen.now (Some self.now) next }
        ensures len { length line.new ≤ length line.old + 420 }
    {
        items::font(line, pen, self.font);
        items::move_to(line, pen, (self.x, self.y));
        items::string(line, self.codes.as_slice());
        items::end(line, pen.delta, self.last, self.y, next);
    }

    /// What the lines leave.
    pub fn behind(&self, pen: &Pen, next: Option<(i64, i64)>) -> Pen
        requires { IsNearNext next }
        ensures { result ≡ pen_behind_stretch self.now.font pen.now.delta self.now.last self.now.y next }
    {
        match next {
            None => Pen {
                x: self.last,
                y: self.y,
                font: Some(self.font),
                delta: pen.delta,
                lost: false,
            },
            Some(to) => Pen {
                x: to.0,
                y: to.1,
                font: Some(self.font),
                delta: items::delta_behind(pen.delta, self.last, self.y, to),
                lost: false,
            },
        }
    }
}
