//! What takes the marks of a page.
ghost use Rattle.std.specs.Prelude.{◌≡◌, List, [], ◌∷◌, ◌++◌, OnOk, IfErr};
ghost use Rattle.positions.specs.Mark.{Mark};
ghost use Rattle.positions.specs.MarkOf.{glyph_of, rule_of, special_of};
ghost use Rattle.positions.specs.Conditions.{SameCondition};

use crate::mark::{GlyphMark, RuleMark, SpecialMark};

/// The fault of a canvas that refuses no mark.
#[derive(Drop)]
pub enum NoFault {}

/// Takes the marks of pages, one after another, in the order in which they are put on the paper.
///
/// Its meaning are two relations between an earlier canvas and a later one: `takes`, that the later one has taken this list of
/// marks more, and `refuses`, that it has taken this list and then refused a mark with a fault. So whoever walks over a page is
/// proved once for all canvases, and says what the canvas took.
pub trait Canvas {
    /// Why a mark was refused.
    type Fault;

    /// The canvas can be given this mark.
    ghost can: { Self → Mark → Type 0 };

    /// From the earlier canvas to the later one these marks were taken.
    ghost takes: { Self → Self → List Mark → Type 0 };

    /// From the earlier canvas to the later one these marks were taken, and then this one was refused with this fault.
    ghost refuses: { Self → Self → List Mark → Mark → Self.Fault → Type 0 };

    /// Takes a character.
    fn glyph(&mut self, mark: &GlyphMark) -> Result<(), Self::Fault>
        requires { can self.old (glyph_of mark.now) }
        ensures ok { OnOk result (takes self.old self.new (glyph_of mark.now ∷ [])) }
        ensures same { OnOk result (SameCondition can self.old self.new) }
        ensures err { IfErr result (λ fault. refuses self.old self.new [] (glyph_of mark.now) fault) };

    /// Takes a rule.
    fn rule(&mut self, mark: &RuleMark) -> Result<(), Self::Fault>
        requires { can self.old (rule_of mark.now) }
        ensures ok { OnOk result (takes self.old self.new (rule_of mark.now ∷ [])) }
        ensures same { OnOk result (SameCondition can self.old self.new) }
        ensures err { IfErr result (λ fault. refuses self.old self.new [] (rule_of mark.now) fault) };

    /// Takes a special.
    fn special(&mut self, mark: &SpecialMark<'_>) -> Result<(), Self::Fault>
        requires { can self.old (special_of mark.now) }
        ensures ok { OnOk result (takes self.old self.new (special_of mark.now ∷ [])) }
        ensures same { OnOk result (SameCondition can self.old self.new) }
        ensures err { IfErr result (λ fault. refuses self.old self.new [] (special_of mark.now) fault) };

    /// A canvas has taken nothing since itself.
    ghost starts: { (c : Self) → takes c c [] };

    /// What was taken first and what was taken then were taken one after the other.
    ghost chains: { (a b c : Self) (xs ys : List Mark) → takes a b xs → takes b c ys → takes a c (xs ++ ys) };

    /// A mark that is refused after some more were taken is refused after all of them.
    ghost refused_later: { (a b c : Self) (xs ys : List Mark) (mark : Mark) (fault : Self.Fault)
        → takes a b xs → refuses b c ys mark fault → refuses a c (xs ++ ys) mark fault };
}
