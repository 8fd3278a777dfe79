// Why there is no plan.
ghost use Rattle.std.specs.Prelude.{◌≡◌};
ghost use Rattle.benchplan.specs.Refusals.{refusal_number, refusal_place};
ghost use Rattle.benchplan.specs.declared.refusal.Refusal.TheVariants.{OfCard, Memory};

use cards::CardFault;
use fields::Place;
use std::alloc::AllocError;
use std::fmt;

#[derive(Clone, Copy)]
pub enum Refusal {
    // The card is at fault.
    OfCard(CardFault),
    // It has more states than the program has memory for.
    TooManyStates,
    // No steps lead to a goal state.
    NoPlan,
    // There is no memory for it.
    Memory,
    // What was found is no plan.
    Astray,
}

impl Refusal {
    // The number of the refusal; want of memory has none, and a search that went astray.
    pub fn number(&self) -> Option<u8>
        ensures { result ≡ refusal_number self.now }
    {
        match self {
            Refusal::OfCard(fault) => fault.number(),
            Refusal::TooManyStates => Some(17),
            Refusal::NoPlan => Some(20),
            Refusal::Memory | Refusal::Astray => None,
        }
    }

    // Line and field, each 0 where it has none.
    pub fn place(&self) -> Place
        ensures { result ≡ refusal_place self.now }
    {
        match self {
            Refusal::OfCard(fault) => fault.place(),
            Refusal::TooManyStates | Refusal::NoPlan | Refusal::Memory | Refusal::Astray => Place {
                line: 0,
                field: 0,
            },
        }
    }
}

impl From<CardFault> for Refusal {
    ghost from_gives = { λ e r. r ≡ OfCard e };

    fn from(fault: CardFault) -> Refusal {
        Refusal::OfCard(fault)
    }
}

impl From<AllocError> for Refusal {
    ghost from_gives = { λ _ r. r ≡ Memory };

    fn from(_e: AllocError) -> Refusal {
        Refusal::Memory
    }
}

impl fmt::Display for Refusal {
    fn fmt<W: fmt::Write>(&self, f: &mut fmt::Formatter<W>) -> fmt::Result {
        match self.number() {
            Some(number) => {
                let Place { line, field } = self.place();
                write!(f, "refused\t{number}\t{line}\t{field}")
            }
            // A search that went astray prints the same.
            None => write!(f, "no memory for this card"),
        }
    }
}
