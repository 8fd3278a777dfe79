// Why a call is refused.
ghost use Rattle.std.specs.Prelude.{◌≡◌};
ghost use Rattle.session.specs.Refusals.{number_of};
ghost use Rattle.session.specs.declared.session.refusal.Refusal.TheVariants.{Memory};

use std::alloc::AllocError;

#[derive(Clone, Copy)]
pub enum Refusal {
    // There is no such operator, variable or value, or a wrong count of values or costs.
    NoSuch,
    // A cost is over 65,535.
    CostTooHigh,
    // A step is under way.
    StepUnderWay,
    // The operator is barred.
    Barred,
    // A precondition of the operator fails.
    Unmet,
    // No step of the operator is under way.
    NoStep,
    // The steps end outside the goal.
    OutsideGoal,
    // There is no memory for it.
    Memory,
}

impl Refusal {
    // The number of the refusal; want of memory has none.
    pub fn number(&self) -> Option<u8>
        ensures { result ≡ number_of self.now }
    {
        match self {
            Refusal::NoSuch => Some(10),
            Refusal::CostTooHigh => Some(11),
            Refusal::StepUnderWay => Some(12),
            Refusal::Barred => Some(13),
            Refusal::Unmet => Some(14),
            Refusal::NoStep => Some(15),
            Refusal::OutsideGoal => Some(22),
            Refusal::Memory => None,
        }
    }
}

impl From<AllocError> for Refusal {
    ghost from_gives = { λ _ r. r ≡ Memory };

    fn from(_e: AllocError) -> Refusal {
        Refusal::Memory
    }
}
