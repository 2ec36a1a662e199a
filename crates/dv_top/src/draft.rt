//! The sections of pages, planned as the pages are walked over.
ghost use Rattle.std.specs.Prelude.{◌≡◌, ◌+◌, ◌∷◌, ◌++◌, IfErr, IfOk, IsTrue, List, OnOk, Option, [], length, ℕ};
ghost use Rattle.std.specs.Option.{is_some};
ghost use Rattle.font_set.specs.Fonts.{FontSet};
ghost use Rattle.positions.specs.Mark.{Mark};
ghost use Rattle.sections.specs.Cost.{IsPriced};
ghost use Rattle.sections.specs.Planned.{UsesLast};
ghost use Rattle.sections.specs.Sections.{is_few, sections};
ghost use Rattle.sections.specs.Used.{HasTaken};
ghost use Rattle.dv_top.specs.Planning.{AreLight, HasDrafted, PlanFails, PlanTells};

use crate::outcome::Outcome;
use font_set::Fonts;
use sections::{Plan, PlanFault, Planner, Usage};
use std::alloc::{AllocError, Global};
use std::marker::Model;

/// The sections of the pages so far, or why one of these can't be planned.
#[derive(Drop)]
pub struct Draft {
    planner: Planner,
    fault: Option<PlanFault>,
}

impl Model for Draft {
    ghost use Rattle.dv_top.specs.Planning.{Drafted};

    ghost Value = { Drafted };

    ghost view = { λ d. record { planning = d.planner; fault = d.fault } };
}

/// The outcome of a page that can't be planned.
fn of_plan(fault: PlanFault) -> Outcome
    ensures { PlanTells fault result }
{
    match fault {
        PlanFault::PageTooBig { page, need, have } => Outcome::PageTooBig { page, need, have },
        PlanFault::OutOfMemory => Outcome::OutOfMemory,
    }
}

impl Draft {
    /// No page is planned yet. A section costs at most the first limit, in bytes, and has at most as many pages as the second one says.
    pub fn new(
        alloc: Global,
        fonts: &Fonts,
        limits: (u32, Option<u32>),
    ) -> Result<Draft, AllocError>
        requires some { IsTrue (is_few limits.1 1) }
        ensures { IfOk result (λ draft. HasDrafted fonts.now limits.0 limits.1 draft []) }
    {
        Ok(Draft {
            planner: Planner::new(alloc, fonts, limits.0, limits.1)?,
            fault: None,
        })
    }

    /// Plans the next page, which uses what `usage` has taken, where those before it are planned. Pages count from 1.
    pub fn take(&mut self, page: u32, usage: &Usage, fonts: &Fonts)
        requires next { (budget : ℕ) × (most : Option ℕ) × (pages : List (List Mark)) × HasDrafted fonts.now budget most self.old pages × (page ≡ length pages + 1) }
        requires priced { IsPriced fonts.now usage.now }
        ensures { (budget : ℕ) (most : Option ℕ) (pages : List (List Mark)) (marks : List Mark) → HasDrafted fonts.now budget most self.old pages → page ≡ length pages + 1 → HasTaken usage.now marks → HasDrafted fonts.now budget most self.new (pages ++ marks ∷ []) }
    {
        if self.fault.is_some() {
            return;
        }
        if let Err(fault) = self.planner.page(page, usage, fonts) {
            self.fault = Some(fault);
        }
    }

    /// Whether a page couldn't be planned.
    pub fn is_refused(&self) -> bool
        ensures { result ≡ is_some self.now.fault }
    {
        self.fault.is_some()
    }

    /// How many pages each section has, and what those of the last one use; or the outcome of a page that can't be planned.
    pub fn finish(self) -> Result<(Plan, Usage), Outcome>
        ensures plan { (set : FontSet) (budget : ℕ) (most : Option ℕ) (pages : List (List Mark)) → HasDrafted set budget most self pages → IfOk result (λ parts. parts.0 ≡ sections set budget most pages) }
        ensures last { (set : FontSet) (budget : ℕ) (most : Option ℕ) (pages : List (List Mark)) → HasDrafted set budget most self pages → IfOk result (λ parts. UsesLast parts.1 parts.0 pages) }
        ensures priced { (set : FontSet) (budget : ℕ) (most : Option ℕ) (pages : List (List Mark)) → HasDrafted set budget most self pages → IfOk result (λ parts. IsPriced set parts.1) }
        ensures light { (set : FontSet) (budget : ℕ) (most : Option ℕ) (pages : List (List Mark)) → HasDrafted set budget most self pages → OnOk result (AreLight set budget pages) }
        ensures fails { (set : FontSet) (budget : ℕ) (most : Option ℕ) (pages : List (List Mark)) → HasDrafted set budget most self pages → IfErr result (PlanFails set budget pages) }
    {
        match self.fault {
            Some(fault) => Err(of_plan(fault)),
            None => Ok(self.planner.into_parts()),
        }
    }
}
