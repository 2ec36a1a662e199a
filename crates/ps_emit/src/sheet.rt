//! What is kept of a page while its marks come: the pen behind the lines that are written, and the stretch that is still open.
ghost use Rattle.std.specs.Prelude.{◌≡◌, ◌≤◌, ◌+◌, ◌++◌, Bool, length, Some, None, true};
ghost use Rattle.ps_subset.specs.Prolog.{line};
ghost use Rattle.ps_subset.specs.Marks.{kept_goes_on, with_code};
ghost use Rattle.ps_subset.specs.Items.{Block, move_line};
ghost use Rattle.positions.specs.Mark.{IsModerate};
ghost use Rattle.positions.specs.MarkOf.{glyph_of, rule_of};
ghost use Rattle.ps_emit.specs.Bounds.{IsNearNext, IsNearPixel};
ghost use Rattle.ps_emit.specs.Sheet.{closed_sheet, closing_lines, first_sheet, item_sheet, item_written, mark_lines, mark_sheet, page_end};

use crate::items;
use crate::pen::Pen;
use crate::stretch::Stretch;
use dv_base::Line;
use positions::{GlyphMark, RuleMark};
use std::marker::Model;

/// The pen and the open stretch. Each mark writes the line of the stretch, unless it goes on it; so the end of that line can lead to the
/// mark.
#[derive(Drop)]
pub struct Sheet {
    pen: Pen,
    stretch: Option<Stretch>,
}

impl Model for Sheet {
    ghost use Rattle.ps_emit.specs.Sheet as kept;

    ghost Value = { kept.Sheet };

    ghost view = { λ s. record { pen = s.pen; stretch = s.stretch } };
}

impl Sheet {
    /// Before the first mark of a page.
    pub fn first() -> Sheet
        ensures { result ≡ first_sheet }
    {
        Sheet {
            pen: Pen::first(),
            stretch: None,
        }
    }

    /// Appends the lines of the open stretch, where there is one, and leaves none open.
    pub fn close(&mut self, line: &mut Line, next: Option<(i64, i64)>)
        requires room { length line.old + 420 ≤ 1024 }
        requires next { IsNearNext next }
        ensures value { line.new ≡ line.old ++ closing_lines self.old next }
        ensures sheet { self.new ≡ closed_sheet self.old next }
        ensures len { length line.new ≤ length line.old + 420 }
    {
        match self.stretch.take() {
            None => {}
            Some(stretch) => {
                stretch.lines(line, &self.pen, next);
                self.pen = stretch.behind(&self.pen, next);
            }
        }
    }

    /// Whether a letter goes on the open stretch.
    fn goes_on(&self, mark: &GlyphMark) -> bool
        ensures { result ≡ kept_goes_on self.now.stretch mark.now.font mark.now.x mark.now.y }
    {
        match &self.stretch {
            None => false,
            Some(stretch) => stretch.goes_on(mark),
        }
    }

    /// Takes a letter that goes on the open stretch.
    fn push(&mut self, mark: &GlyphMark)
        requires numbers { IsModerate (glyph_of mark.now) }
        requires goes_on { kept_goes_on self.old.stretch mark.now.font mark.now.x mark.now.y ≡ true }
        ensures { self.new ≡ record self.old { stretch = with_code self.old.stretch mark.now.font mark.now.code mark.now.x mark.now.y mark.now.pixels } }
    {
        match &mut self.stretch {
            Some(stretch) => stretch.push(mark),
            None => {}
        }
    }

    /// Takes a letter. The line then holds what it makes the writer write.
    pub fn glyph(&mut self, out: &mut Line, mark: &GlyphMark)
        requires { IsModerate (glyph_of mark.now) }
        ensures value { (pass : Bool) → out.new ≡ mark_lines pass self.old (glyph_of mark.now) }
        ensures sheet { (pass : Bool) → self.new ≡ mark_sheet pass self.old (glyph_of mark.now) }
    {
        out.clear();
        if self.goes_on(mark) {
            self.push(mark);
        } else {
            self.close(out, Some((mark.x, mark.y)));
            self.stretch = Some(Stretch::begin(mark));
        }
    }

    /// Appends the lines of the open stretch and the move to an item that is no letter; `lost` is whether the item leaves the place unknown.
    fn reach(&mut self, out: &mut Line, to: (i64, i64), lost: bool)
        requires room { length out.old + 510 ≤ 1024 }
        requires to { IsNearPixel to }
        ensures value { out.new ≡ out.old ++ (closing_lines self.old (Some to) ++ move_line (closed_sheet self.old (Some to)).pen to.0 to.1) }
        ensures sheet { self.new ≡ record { pen = record (closed_sheet self.old (Some to)).pen { x = to.0; y = to.1; lost = lost }; stretch = None } }
        ensures len { length out.new ≤ length out.old + 510 }
    {
        self.close(out, Some(to));
        items::move_to(out, &self.pen, to);
        self.pen = Pen {
            x: to.0,
            y: to.1,
            font: self.pen.font,
            delta: self.pen.delta,
            lost,
        };
    }

    /// Takes a rule. The line then holds what it makes the writer write.
    pub fn rule(&mut self, out: &mut Line, mark: &RuleMark)
        requires { IsModerate (rule_of mark.now) }
        ensures value { (pass : Bool) → out.new ≡ mark_lines pass self.old (rule_of mark.now) }
        ensures sheet { (pass : Bool) → self.new ≡ mark_sheet pass self.old (rule_of mark.now) }
    {
        out.clear();
        self.reach(out, (mark.x, mark.y), false);
        items::rule(out, mark.w, mark.rows);
    }

    /// Takes a block of these bytes at a pixel. The line then holds what stands before them; a line end follows them.
    pub fn block(&mut self, out: &mut Line, bytes: &[u8], at: (i64, i64))
        requires { IsNearPixel at }
        ensures value { out.new ++ line bytes.now ≡ item_written self.old (Block bytes.now at.0 at.1) }
        ensures sheet { self.new ≡ item_sheet self.old (Block bytes.now at.0 at.1) }
    {
        out.clear();
        self.reach(out, at, true);
        items::announced(out, bytes.len());
    }

    /// Ends a page. The line then holds the lines of the open stretch, where there is one, and the one that ends the page.
    pub fn end(&mut self, out: &mut Line)
        ensures value { out.new ≡ page_end self.old }
        ensures sheet { self.new ≡ closed_sheet self.old None }
    {
        out.clear();
        self.close(out, None);
        out.text(b"eop\n");
    }
}
