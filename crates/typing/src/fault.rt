// Why typing stops.
ghost use Rattle.std.specs.Prelude.{◌≡◌};
ghost use Rattle.typing.specs.declared.fault.KeyFault.TheVariants.{Refused, Unsettled, Memory};

use sheet::fault::{NothingOwed, ReplaceFault};
use std::alloc::AllocError;

// Why a character is not typed, or not shown.
#[derive(Clone, Copy, Debug)]
pub enum KeyFault {
    // the sheet refuses the character
    Refused(ReplaceFault),
    // the sheet owes nothing for it
    Unsettled(NothingOwed),
    // the screen has no memory for its rows
    Memory,
}

// By hand: a derived `From` would not say which variant `?` makes, and the contract of `press` does.
impl From<ReplaceFault> for KeyFault {
    ghost from_gives = { λ e r. r ≡ Refused e };

    fn from(e: ReplaceFault) -> KeyFault {
        KeyFault::Refused(e)
    }
}

impl From<NothingOwed> for KeyFault {
    ghost from_gives = { λ e r. r ≡ Unsettled e };

    fn from(e: NothingOwed) -> KeyFault {
        KeyFault::Unsettled(e)
    }
}

impl From<AllocError> for KeyFault {
    ghost from_gives = { λ e r. r ≡ Memory };

    fn from(_e: AllocError) -> KeyFault {
        KeyFault::Memory
    }
}

// The character at `place` of what was to be typed is not typed.
#[derive(Clone, Copy, Debug)]
pub struct Stopped {
    pub place: usize,
    pub fault: KeyFault,
}
