//! What is kept between two commands of a page.
ghost use Rattle.std.specs.Prelude.{◌≡◌, ◌≤◌, ◌<◌, ◌++◌, ◌∷◌, [], IfOk, MatchBool, None, vec_len, vec_capacity};
ghost use Rattle.positions.specs.Drift.{IsSpace};
ghost use Rattle.positions.specs.Place.{origin};

use dv_base::FontId;
use positions::Pos;
use std::alloc::{AllocError, Global};

/// How many pushes may be open.
pub const MOST_OPEN: usize = 1_000;

/// The selected font: its number, and its space.
#[derive(Clone, Copy)]
pub struct Selected {
    pub id: FontId,
    pub space: i64,
    ghost fits: { IsSpace space },
}

/// The place, the selected font, and the places of the open pushes, the last one last.
#[derive(Drop)]
pub struct State {
    pub pos: Pos,
    pub font: Option<Selected>,
    pub saved: Vec<Pos>,
    ghost room: { 1000 ≤ vec_capacity saved },
    ghost most: { vec_len saved ≤ 1000 },
}

impl State {
    ghost use Rattle.dvitype_list.specs.Space.{space_by};

    /// Before the first command of a page, with room for all pushes that may be open.
    pub fn new(alloc: Global) -> Result<State, AllocError>
        ensures { IfOk result (λ state. (state.pos ≡ origin) × (state.font ≡ None) × (state.saved.items ≡ [])) }
    {
        let saved = Vec::with_capacity(alloc, MOST_OPEN)?;
        Ok(State {
            pos: Pos::origin(),
            font: None,
            saved,
        })
    }

    /// Begins a page.
    pub fn begin(&mut self)
        ensures pos { self.new.pos ≡ origin }
        ensures font { self.new.font ≡ None }
        ensures saved { self.new.saved.items ≡ [] }
    {
        self.pos = Pos::origin();
        self.font = None;
        self.saved.clear();
    }

    /// The space of the selected font, and 0 where none is selected.
    pub fn space(&self) -> i64
        ensures value { result ≡ space_by self.now.font }
        ensures fits { IsSpace result }
    {
        match self.font {
            Some(font) => font.space,
            None => 0,
        }
    }

    /// Keeps the place; false where 1,000 pushes are open.
    pub fn push(&mut self) -> bool
        ensures kept { MatchBool result (self.new.saved.items ≡ self.old.saved.items ++ self.old.pos ∷ []) (self.new.saved.items ≡ self.old.saved.items) }
        ensures room { MatchBool result (vec_len self.old.saved < 1000) (vec_len self.old.saved ≡ 1000) }
        ensures pos { self.new.pos ≡ self.old.pos }
        ensures font { self.new.font ≡ self.old.font }
    {
        if self.saved.len() >= MOST_OPEN {
            return false;
        }
        match self.saved.push(self.pos) {
            Ok(()) => true,
            Err(_) => unreachable!(),
        }
    }

    /// Gives back the place that was kept last; false where none is kept.
    pub fn pop(&mut self) -> bool
        ensures given { MatchBool result (self.old.saved.items ≡ self.new.saved.items ++ self.new.pos ∷ []) (self.old.saved.items ≡ []) }
        ensures stays { MatchBool result (Unit {0}) ((self.new.pos ≡ self.old.pos) × (self.new.saved.items ≡ [])) }
        ensures font { self.new.font ≡ self.old.font }
    {
        match self.saved.pop() {
            Some(pos) => {
                self.pos = pos;
                true
            }
            None => false,
        }
    }
}
