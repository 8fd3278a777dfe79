// What a card says, or why it is refused: the definitions that the reader is proved against, and the theorems above them.
#![tactic(auto)]

ghost use Rattle.std.specs.Prelude.{◌≡◌};
ghost use Rattle.cards.specs.declared.CardFault.TheVariants.{InLine, Memory};
ghost use Rattle.cards.specs.Faults.{card_number, card_place};

use fields::{LineFault, Place};
use std::alloc::{AllocError, AllocFailed};

pub mod theorems;

// Why a card is refused; the fault of a line is kept whole. Want of memory is one more case.
#[derive(Clone, Copy)]
pub enum CardFault {
    Memory,
    TooLong,
    InLine(LineFault),
    NoVariable,
    NoEffect { line: usize },
    TooManyStates,
}

impl CardFault {
    // The number of the test that the card failed; want of memory has none.
    pub fn number(&self) -> Option<u8>
        ensures { result ≡ card_number self.now }
    {
        match self {
            CardFault::Memory => None,
            CardFault::TooLong => Some(1),
            CardFault::InLine(e) => Some(e.number()),
            CardFault::NoVariable | CardFault::NoEffect { .. } => Some(8),
            CardFault::TooManyStates => Some(9),
        }
    }

    // Line and field, both counted from 1, each 0 where it has none.
    pub fn place(&self) -> Place
        ensures { result ≡ card_place self.now }
    {
        match *self {
            CardFault::InLine(e) => e.place(),
            CardFault::NoEffect { line } => Place { line, field: 0 },
            CardFault::Memory
            | CardFault::TooLong
            | CardFault::NoVariable
            | CardFault::TooManyStates => Place { line: 0, field: 0 },
        }
    }
}

impl From<LineFault> for CardFault {
    ghost from_gives = { λ e r. r ≡ InLine e };

    fn from(fault: LineFault) -> CardFault {
        CardFault::InLine(fault)
    }
}

impl From<AllocError> for CardFault {
    ghost from_gives = { λ _ r. r ≡ Memory };

    fn from(_error: AllocError) -> CardFault {
        Self::Memory
    }
}

impl<T: Drop> From<AllocFailed<T>> for CardFault {
    ghost from_gives = { λ _ r. r ≡ Memory };

    fn from(_refused: AllocFailed<T>) -> CardFault {
        CardFault::Memory
    }
}
