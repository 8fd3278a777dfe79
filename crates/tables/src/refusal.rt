// Why a table is not built or not opened.
ghost use Rattle.std.specs.Prelude.{◌≡◌};
ghost use Rattle.tables.specs.Refusals.{number_of};
ghost use Rattle.tables.specs.declared.refusal.TableRefusal.TheVariants.{Memory};

use std::alloc::AllocError;

#[derive(Clone, Copy)]
pub enum TableRefusal {
    // The pattern is empty or outside the task, the shares are not one for each operator, or one is over 65,535.
    Input,
    // There are fewer entries, or fewer places of the list, than projected states.
    Room,
    // An entry is neither the mark nor at most K, or breaks a law.
    Entry,
    Memory,
}

impl TableRefusal {
    // The number of the refusal; want of memory has none.
    pub fn number(&self) -> Option<u8>
        ensures { result ≡ number_of self.now }
    {
        match self {
            TableRefusal::Input => Some(16),
            TableRefusal::Room => Some(17),
            TableRefusal::Entry => Some(21),
            TableRefusal::Memory => None,
        }
    }
}

impl From<AllocError> for TableRefusal {
    ghost from_gives = { λ _ r. r ≡ Memory };

    fn from(_error: AllocError) -> TableRefusal {
        Self::Memory
    }
}
