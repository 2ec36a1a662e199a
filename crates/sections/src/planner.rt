//! Pages in sections, page by page.
ghost use Rattle.std.specs.Prelude.{◌≡◌, ◌<◌, ◌≤◌, ◌+◌, ◌^◌, ℕ, List, [], ◌∷◌, ◌++◌, length, IsTrue, MatchBool, IfOk, IfErr, OnOk, OnErr};
ghost use Rattle.font_set.specs.Fonts.{FontSet};
ghost use Rattle.positions.specs.Mark.{Mark};
ghost use Rattle.sections.specs.Used.{is_used, HasTaken};
ghost use Rattle.sections.specs.Cost.{cost, IsPriced};
ghost use Rattle.sections.specs.Sections.{is_few, sections};
ghost use Rattle.sections.specs.Planned.{Planning, IsPlanned, UsesLast, pages_given};
ghost use Rattle.sections.specs.Growing.{IsTaken, IsRefused, last_length};
ghost use Rattle.sections.specs.PlanFaults.{PlanFaultIs};

use crate::plan::Plan;
use crate::usage::Usage;
use font_set::Fonts;
use std::alloc::{AllocError, Global};
use std::marker::Model;

/// Why a page can't be planned.
#[derive(Clone, Copy, Debug, PartialEq, Eq, Drop)]
pub enum PlanFault {
    /// What the page alone uses costs more bytes than the budget has. Pages count from 1.
    PageTooBig { page: u32, need: u64, have: u64 },
    OutOfMemory,
}

/// Puts pages into sections, one after another: a page goes into the last section where that stays within the budget and the limit of
/// pages, else it begins a new one.
#[derive(Drop)]
pub struct Planner {
    budget: u32,
    most: Option<u32>,
    /// What the last section uses.
    last: Usage,
    /// The numbers of pages of the sections.
    lengths: Vec<u32>,
}

impl Model for Planner {
    ghost use Rattle.sections.specs.Planned.{Planning};

    ghost Value = { Planning };

    ghost use Rattle.std.specs.Prelude.{IsTrue};
    ghost use Rattle.sections.specs.Sections.{is_few};

    ghost view = { λ p. record { budget = p.budget; most = p.most; last = p.last; lengths = p.lengths.items } };

    ghost invariant = { λ p. IsTrue (is_few p.most 1) };
}

/// Whether a section may have one more page than `count`.
fn has_room(most: Option<u32>, count: u32) -> bool
    ensures { result ≡ is_few most (count + 1) }
{
    match most {
        Some(most) => count < most,
        None => true,
    }
}

/// Takes a page into the last section, which has `count` pages; answers whether that may be. Else what the section uses isn't kept.
fn joins(
    last: &mut Usage,
    usage: &Usage,
    fonts: &Fonts,
    count: u32,
    most: Option<u32>,
    have: u64,
) -> bool
    requires last { IsPriced fonts.now last.old }
    requires usage { IsPriced fonts.now usage.now }
    ensures priced { IsPriced fonts.now last.new }
    ensures may { MatchBool result (IsTaken fonts.now have most count last.old usage.now last.new) (IsRefused fonts.now have most count last.old usage.now) }
{
    if count == 0 || !has_room(most, count) {
        return false;
    }
    last.join(usage);
    last.cost(fonts) <= have
}

/// Lets the last section use what a page uses, and nothing else.
fn begin(last: &mut Usage, usage: &Usage, fonts: &Fonts)
    requires last { IsPriced fonts.now last.old }
    requires usage { IsPriced fonts.now usage.now }
    ensures priced { IsPriced fonts.now last.new }
    ensures taken { (marks : List Mark) → HasTaken usage.now marks → HasTaken last.new marks }
{
    last.clear();
    last.join(usage);
}

/// The number of pages of the last section, 0 where there is none.
fn last_count(lengths: &[u32]) -> u32
    ensures { result ≡ last_length lengths.now }
{
    match lengths.last() {
        Some(count) => *count,
        None => 0,
    }
}

impl Planner {
    /// No page is planned yet. A section costs at most `budget` bytes and has at most `per_section` pages.
    pub fn new(
        alloc: Global,
        fonts: &Fonts,
        budget: u32,
        per_section: Option<u32>,
    ) -> Result<Planner, AllocError>
        requires some { IsTrue (is_few per_section 1) }
        ensures budget { IfOk result (λ planner. planner.budget ≡ budget) }
        ensures most { IfOk result (λ planner. planner.most ≡ per_section) }
        ensures planned { IfOk result (λ planner. IsPlanned fonts.now planner []) }
        ensures given { IfOk result (λ planner. pages_given planner ≡ 0) }
    {
        Ok(Planner {
            budget,
            most: per_section,
            last: Usage::new(alloc, fonts)?,
            lengths: Vec::new(alloc),
        })
    }

    /// Plans the next page, which uses what `usage` has taken. Pages count from 1. After a fault the planner is as it was.
    pub fn page(&mut self, page: u32, usage: &Usage, fonts: &Fonts) -> Result<(), PlanFault>
        requires next { page ≡ pages_given self.old + 1 }
        requires priced { IsPriced fonts.now usage.now }
        requires same_fonts { IsPriced fonts.now self.old.last }
        ensures same_fonts { IsPriced fonts.now self.new.last }
        ensures planned { OnOk result ((pages : List (List Mark)) (marks : List Mark) → IsPlanned fonts.now self.old pages → HasTaken usage.now marks → IsPlanned fonts.now self.new (pages ++ marks ∷ [])) }
        ensures given { OnOk result (pages_given self.new ≡ pages_given self.old + 1) }
        ensures budget { self.new.budget ≡ self.old.budget }
        ensures most { self.new.most ≡ self.old.most }
        ensures within { OnOk result (cost fonts.now (is_used usage.now) ≤ self.old.budget) }
        ensures same { OnErr result (self.new ≡ self.old) }
        ensures fault { IfErr result (PlanFaultIs fonts.now self.old.budget page usage.now) }
    {
        let need = usage.cost(fonts);
        let have = u64::from(self.budget);
        if need > have {
            return Err(PlanFault::PageTooBig { page, need, have });
        }
        if self.lengths.reserve(1).is_err() {
            return Err(PlanFault::OutOfMemory);
        }
        let count = last_count(&self.lengths);
        if joins(&mut self.last, usage, fonts, count, self.most, have) {
            let at = self.lengths.len() - 1;
            self.lengths[at] = count + 1;
        } else {
            begin(&mut self.last, usage, fonts);
            self.lengths.push_reserved(1);
        }
        Ok(())
    }

    /// The numbers of pages of the sections.
    pub fn finish(self) -> Plan
        ensures plan { (set : FontSet) (pages : List (List Mark)) → IsPlanned set self pages → result ≡ sections set self.budget self.most pages }
    {
        Plan(self.lengths)
    }

    /// The numbers of pages of the sections, and what the pages of the last section use.
    pub fn into_parts(self) -> (Plan, Usage)
        ensures plan { (set : FontSet) (pages : List (List Mark)) → IsPlanned set self pages → result.0 ≡ sections set self.budget self.most pages }
        ensures last { (set : FontSet) (pages : List (List Mark)) → IsPlanned set self pages → UsesLast result.1 result.0 pages }
        ensures usage { result.1 ≡ self.last }
    {
        (Plan(self.lengths), self.last)
    }
}
