//! Which characters of a set of fonts are used.
ghost use Rattle.std.specs.Prelude.{◌≡◌, ◌<◌, ◌≤◌, ◌+◌, ◌*◌, ◌/◌, ◌||◌, false, true, ℕ, List, [], length, nat_eq, slice_index_or, vec_len, vec_capacity, IfOk};
ghost use Rattle.std.specs.List.{list_any};
ghost use Rattle.positions.specs.Mark.{Mark};
ghost use Rattle.positions.specs.MarkOf.{glyph_of};
ghost use Rattle.sections.specs.Used.{Used, is_used, uses_font, SameFonts, HasTaken, Takes, Joined, CanTake};
ghost use Rattle.sections.specs.UsedLaws.{took_none, took_both};
ghost use Rattle.sections.specs.Cost.{cost, font_step, IsPriced};
ghost use Rattle.sections.specs.Places.{StandsAt};

use crate::price::{CODES, prices};
use dv_base::FontId;
use font_set::Fonts;
use positions::{Canvas, GlyphMark, NoFault, RuleMark, SpecialMark};
use std::alloc::{AllocError, Global};
use std::marker::Model;

/// What a used font costs beside its glyphs.
const FONT: u64 = 2_560;

/// Which characters of a set of fonts were taken since it was made or cleared, and what they cost.
///
/// It takes memory as it is made, and none later. A look and a mark cost the same whatever was taken, and clearing costs what was
/// taken.
#[derive(Drop)]
pub struct Usage {
    /// What each glyph costs, 256 of each font.
    prices: Vec<u32>,
    /// Whether it was taken.
    taken: Vec<bool>,
    /// Whether some glyph of the font was taken.
    fonts: Vec<bool>,
    /// The places of those that were taken, with room for all.
    places: Vec<u32>,
    cost: u64,
}

impl Model for Usage {
    ghost use Rattle.std.specs.Prelude.{length};
    ghost use Rattle.sections.specs.Used.{Used};

    ghost Value = { Used };

    ghost use Rattle.sections.specs.Kept.{IsKept};

    ghost view = { λ u. record { fonts = length u.fonts.items; prices = u.prices.items; taken = u.taken.items } };

    ghost invariant = { IsKept };
}

/// What a glyph adds to the cost, where its font is used already or not.
fn added(used: bool, price: u32) -> u64
    ensures { result ≡ font_step used + price }
{
    if used {
        u64::from(price)
    } else {
        FONT + u64::from(price)
    }
}

/// Marks, none of which is set.
fn no_marks(alloc: Global, many: usize) -> Result<Vec<bool>, AllocError>
    ensures many { IfOk result (λ v. length v.items ≡ many) }
    ensures none { IfOk result (λ v. (p : ℕ) → slice_index_or v.items p false ≡ false) }
{
    let marks = vec![in alloc; false; many]?;
    Ok(marks)
}

/// Takes the marks at these places away, and those of their fonts.
fn unmark(places: &[u32], taken: &mut [bool], fonts: &mut [bool])
    requires within { (k : ℕ) → k < length places.now → slice_index_or places.now k 0 < length taken.old }
    requires fonts { length taken.old ≡ length fonts.old * 256 }
    requires places { (p : ℕ) → slice_index_or taken.old p false ≡ true → StandsAt places.now p }
    requires of_fonts { (id : ℕ) → slice_index_or fonts.old id false ≡ true → (p : ℕ) × StandsAt places.now p × (p / 256 ≡ id) }
    ensures taken { (p : ℕ) → slice_index_or taken.new p false ≡ false }
    ensures fonts { (id : ℕ) → slice_index_or fonts.new id false ≡ false }
    ensures many { length taken.new ≡ length taken.old }
    ensures many_fonts { length fonts.new ≡ length fonts.old }
{
    for place in places {
        taken[*place as usize] = false;
        fonts[*place as usize / CODES] = false;
    }
}

impl Usage {
    /// Nothing of these fonts is used yet.
    pub fn new(alloc: Global, fonts: &Fonts) -> Result<Usage, AllocError>
        ensures priced { IfOk result (λ usage. IsPriced fonts.now usage) }
        ensures none { IfOk result (λ usage. HasTaken usage []) }
    {
        let count = fonts.count() as usize;
        let many = count * CODES;
        let prices = prices(alloc, fonts)?;
        let taken = no_marks(alloc, many)?;
        let used = no_marks(alloc, count)?;
        let mut places = Vec::new(alloc);
        places.reserve(many)?;
        Ok(Usage {
            prices,
            taken,
            fonts: used,
            places,
            cost: 0,
        })
    }

    /// Forgets what was taken.
    pub fn clear(&mut self)
        ensures same { SameFonts self.old self.new }
        ensures none { HasTaken self.new [] }
    {
        unmark(&self.places, &mut self.taken, &mut self.fonts);
        self.places.clear();
        self.cost = 0;
    }

    /// Whether the character was taken.
    pub fn has(&self, id: FontId, code: u8) -> bool
        requires given { id < self.now.fonts }
        ensures { result ≡ is_used self.now id code }
    {
        self.taken[id.number() as usize * CODES + code as usize]
    }

    /// Whether some character of the font was taken.
    pub fn uses(&self, id: FontId) -> bool
        requires given { id < self.now.fonts }
        ensures { result ≡ uses_font self.now id }
    {
        self.fonts[id.number() as usize]
    }

    /// What the used fonts and glyphs cost, in bytes of a printer's memory. The fonts are those that it was made with, and have the same
    /// bitmaps.
    pub fn cost(&self, fonts: &Fonts) -> u64
        requires priced { IsPriced fonts.now self.now }
        ensures { result ≡ cost fonts.now (is_used self.now) }
    {
        self.cost
    }

    /// Takes the character at a place.
    fn take(&mut self, place: usize)
        requires given { place < self.old.fonts * 256 }
        ensures same { SameFonts self.old self.new }
        ensures taken { (p : ℕ) → p < self.old.fonts * 256 → slice_index_or self.new.taken p false ≡ (slice_index_or self.old.taken p false || nat_eq p place) }
    {
        if self.taken[place] {
            return;
        }
        let font = place / CODES;
        let added = added(self.fonts[font], self.prices[place]);
        self.fonts[font] = true;
        self.taken[place] = true;
        self.places.push_reserved(place as u32);
        self.cost += added;
    }

    /// Takes the characters at these places.
    fn take_all(&mut self, places: &[u32])
        requires given { (k : ℕ) → k < length places.now → slice_index_or places.now k 0 < self.old.fonts * 256 }
        ensures same { SameFonts self.old self.new }
        ensures taken { (p : ℕ) → p < self.old.fonts * 256 → slice_index_or self.new.taken p false ≡ (slice_index_or self.old.taken p false || list_any (λ q. nat_eq p q) places.now) }
    {
        for place in places {
            self.take(*place as usize);
        }
    }

    /// Takes what another one has taken of the same fonts.
    pub(crate) fn join(&mut self, other: &Usage)
        requires fonts { other.now.fonts ≡ self.old.fonts }
        ensures { Joined self.old other.now self.new }
    {
        self.take_all(&other.places);
    }
}

impl Canvas for Usage {
    type Fault = NoFault;

    ghost can = { λ usage mark. CanTake usage mark };

    ghost takes = { λ old new marks. Takes old new marks };

    ghost refuses = { λ old new marks mark fault. ⊥ };

    fn glyph(&mut self, mark: &GlyphMark) -> Result<(), NoFault> {
        self.take(mark.font.number() as usize * CODES + mark.code as usize);
        Ok(())
    }

    fn rule(&mut self, _mark: &RuleMark) -> Result<(), NoFault> {
        Ok(())
    }

    fn special(&mut self, _mark: &SpecialMark<'_>) -> Result<(), NoFault> {
        Ok(())
    }

    ghost starts = { λ usage. took_none usage };

    ghost chains = { λ a b c xs ys. took_both a b c xs ys };

    ghost refused_later = { λ a b c xs ys mark fault taken refused. refused };
}
