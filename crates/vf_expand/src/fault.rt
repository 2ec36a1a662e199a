//! Why a walk stopped.
ghost use Rattle.std.specs.Prelude.{◌≡◌};
ghost use Rattle.vf_expand.specs.declared.fault.Halt.TheVariants.{Passed as passed};

use dv_base::{FontId, Spot};
use positions::Passed;

/// Why a walk over a page stopped. A spot names the command at which it did.
#[derive(Clone, Copy, Debug, PartialEq, Eq, Drop)]
pub enum WalkFault<F> {
    /// A pop, and no push of its page or packet is open.
    StackUnder(Spot),
    /// A push is still open at the end of its page or packet; the spot is the place of the page's eop, or the packet's length.
    StackLeft(Spot),
    /// A push, and 1,000 pushes are open, those of the page and the packets around counted.
    StackDeep(Spot),
    /// A character of this virtual font is met 16 packets deep.
    NestDeep(FontId, u8),
    /// More than 50,000,000 commands were met since the last reset.
    TooManySteps,
    /// The command would make |h|, |v| or the size of a rule pass 2^31 - 1 units.
    Overflow(Spot),
    /// The canvas refused a mark with this fault.
    Canvas(F),
}

/// Why one command that is neither push nor pop, and sets no character, was not done.
#[derive(Drop)]
pub enum Halt<F> {
    /// |h|, |v| or the size of a rule would pass 2^31 - 1 units.
    Passed,
    /// The canvas refused a mark with this fault.
    Canvas(F),
}

impl<F> From<Passed> for Halt<F> {
    ghost from_gives = { λ _ halt. halt ≡ passed };

    fn from(_: Passed) -> Halt<F> {
        Halt::Passed
    }
}
