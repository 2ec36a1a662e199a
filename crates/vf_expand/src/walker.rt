//! Walks over the pages of a document.
ghost use Rattle.std.specs.Prelude.{◌≡◌, ◌+◌, ◌<◌, ◌≤◌, ◌^◌, length, OnOk, IfOk, IfErr};
ghost use Rattle.positions.specs.Conditions.{SameCondition};
ghost use Rattle.positions.specs.Drift.{IsDrift};
ghost use Rattle.dvi_doc.specs.Document.{PageOf};
ghost use Rattle.dvi_doc.specs.View.{IsRead};
ghost use Rattle.font_set.specs.Frames.{acts_of};
ghost use Rattle.font_set.specs.Search.{page_of};
ghost use Rattle.font_set.specs.Covers.{Covers};
ghost use Rattle.vf_expand.specs.Painted.{IsPainted, AreComing};
ghost use Rattle.vf_expand.specs.Marks.{marks_alone};
ghost use Rattle.vf_expand.specs.Takes.{CanTake, TookPage, Stops};
ghost use Rattle.vf_expand.specs.Causes.{IsMany};
ghost use Rattle.vf_expand.specs.Page.{IsPage, page_marks, page_acts, page_count, IsPageCause, IsShallowPage};

use crate::fault::WalkFault;
use crate::grid::Grid;
use crate::home::{Frame, Home};
use crate::run::Run;
use dv_base::Conv;
use dvi_doc::{Doc, one_document};
use dvi_ops::one_reading;
use font_set::Fonts;
use positions::{Canvas, Pos};
use std::alloc::{AllocError, Global};
use std::marker::Model;

/// How many packets may be nested.
const MOST_NESTED: u32 = 16;

/// Walks over pages, one after another, and keeps the places of the open pushes for it.
///
/// What contracts see of a walker is what it was made with, which is how many pixels one unit is across and down and the drift limit,
/// and how many commands it has met since it was made or reset.
#[derive(Drop)]
pub struct Walker {
    grid: Grid,
    run: Run,
}

impl Model for Walker {
    ghost use Rattle.vf_expand.specs.Page.{Walk};

    ghost Value = { Walk };

    ghost view = { λ w. record { grid = w.grid; steps = w.run.steps } };
}

impl Walker {
    /// A walker with room for all pushes that may be open. `across` and `down` turn units into pixels, and `drift` is how many pixels
    /// a place may drift from the exact one.
    pub fn new(alloc: Global, across: Conv, down: Conv, drift: i64) -> Result<Walker, AllocError>
        requires { IsDrift drift }
        ensures { IfOk result (λ walker. walker ≡ record { grid = record { across = across; down = down; drift = drift }; steps = 0 }) }
    {
        let run = Run::new(alloc)?;
        Ok(Walker {
            grid: Grid::new(across, down, drift),
            run,
        })
    }

    /// How many commands were met since the walker was made or reset; at most 50,000,000.
    pub fn steps(&self) -> u64
        ensures value { result ≡ self.now.steps }
        ensures few { result ≤ 50000000 }
    {
        self.run.steps
    }

    /// Counts commands from 0 again.
    pub fn reset(&mut self)
        ensures { self.new ≡ record { grid = self.old.grid; steps = 0 } }
    {
        self.run.steps = 0;
    }

    /// Gives the marks of a page to the canvas, in order, and counts its commands, those of packets with them.
    ///
    /// `fonts` has to cover the page. The canvas has to take each mark of the page, or, where these are undefined, each that may come at
    /// all. After a fault of the canvas it has taken a front of the page's marks and refused the next one; after any other fault it has
    /// taken some marks. A page that one walk has come through stops no later walk from as many commands by a fault of its own: only
    /// another canvas can still refuse its marks. No memory is taken.
    pub fn page<C: Canvas>(
        &mut self,
        doc: &Doc<'_>,
        page: usize,
        fonts: &Fonts,
        canvas: &mut C,
    ) -> Result<(), WalkFault<C::Fault>>
        requires read { IsRead doc.now }
        requires short { length doc.now.bytes < 2 ^ 31 }
        requires page { page < length doc.now.pages }
        requires covers { Covers fonts.now (acts_of (page_of doc.now page)) }
        requires can { (p : PageOf) → IsPage doc.now page p → CanTake C.can (IsPainted self.old.grid fonts.now (page_acts doc.now.fonts p.commands)) canvas.old (marks_alone (page_marks self.old.grid fonts.now doc.now.fonts p.commands)) }
        ensures ok { (p : PageOf) → IsPage doc.now page p → OnOk result (TookPage C.takes canvas.old canvas.new (page_marks self.old.grid fonts.now doc.now.fonts p.commands)) }
        ensures came { (p : PageOf) → IsPage doc.now page p → OnOk result (AreComing self.old.grid fonts.now (page_marks self.old.grid fonts.now doc.now.fonts p.commands)) }
        ensures stops { (p : PageOf) → IsPage doc.now page p → IfErr result (Stops C.takes C.refuses canvas.old canvas.new (marks_alone (page_marks self.old.grid fonts.now doc.now.fonts p.commands))) }
        ensures cause { (p : PageOf) → IsPage doc.now page p → IfErr result (IsPageCause self.old.grid fonts.now doc.now.fonts p) }
        ensures steps { (p : PageOf) → IsPage doc.now page p → OnOk result (self.new.steps ≡ self.old.steps + page_count fonts.now doc.now.fonts p.commands) }
        ensures many { (p : PageOf) → IsPage doc.now page p → IfErr result (IsMany (self.old.steps + page_count fonts.now doc.now.fonts p.commands)) }
        ensures shallow { (p : PageOf) → IsPage doc.now page p → OnOk result (IsShallowPage self.old.grid fonts.now doc.now.fonts p.commands) }
        ensures same { OnOk result (SameCondition C.can canvas.old canvas.new) }
        ensures kept { self.new.grid ≡ self.old.grid }
    {
        one_document();
        one_reading();
        let found = &doc.pages()[page];
        let frame = Frame {
            grid: self.grid,
            fonts,
            home: Home::Page {
                doc,
                first: found.first,
            },
            nest: MOST_NESTED,
            base: 0,
        };
        self.run.saved.clear();
        self.run.glyphs.clear();
        self.run
            .frame(&frame, doc.body(page), Pos::origin(), canvas)
    }
}
