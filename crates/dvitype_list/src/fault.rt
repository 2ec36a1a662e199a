//! Why a listing ends early.
ghost use Rattle.std.specs.Prelude.{◌≡◌};
ghost use Rattle.dvitype_list.specs.declared.fault.ListFault.TheVariants as fault;

use dv_base::{Spot, WriteFault};
use font_set::{FontFault, LoadFault};
use std::alloc::AllocError;

/// Why a listing ends early. A spot names the command before which it ends.
#[derive(Drop)]
pub enum ListFault {
    /// A font is undefined, or can't be loaded, or has no such character. Never `OutOfMemory`, which is a variant of its own.
    Load(LoadFault),
    /// A pop, and no push is open.
    StackUnder(Spot),
    /// A push is still open at the eop.
    StackLeft(Spot),
    /// A push, and 1,000 pushes are open.
    StackDeep(Spot),
    /// The command would make |h|, |v| or the size of a rule pass 2^31 - 1 units.
    Overflow(Spot),
    /// The tray has failed.
    WriteFault,
    /// There was no memory.
    OutOfMemory,
}

impl From<WriteFault> for ListFault {
    ghost from_gives = { λ _ e. e ≡ fault.WriteFault };

    fn from(_fault: WriteFault) -> ListFault {
        ListFault::WriteFault
    }
}

impl From<AllocError> for ListFault {
    ghost from_gives = { λ _ e. e ≡ fault.OutOfMemory };

    fn from(_fault: AllocError) -> ListFault {
        ListFault::OutOfMemory
    }
}

impl From<FontFault> for ListFault {
    ghost use Rattle.dvitype_list.specs.Faults.{of_font};

    ghost from_gives = { λ f e. e ≡ of_font f };

    fn from(fault: FontFault) -> ListFault {
        match fault {
            FontFault::OutOfMemory => ListFault::OutOfMemory,
            other => ListFault::Load(LoadFault::Font(other)),
        }
    }
}
