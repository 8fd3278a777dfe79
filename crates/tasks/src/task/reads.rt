// What a task tells of itself.
ghost use Rattle.std.specs.Prelude.{◌≡◌, map};
ghost use Rattle.sas.specs.Model.{Rules};
ghost use Rattle.tasks.specs.Parts.{action};
ghost use Rattle.tasks.specs.View.{model_of};

use super::{Operator, Task};
use sas::{Fact, Precondition};

impl Operator {
    pub fn preconditions(&self) -> &[Precondition]
        ensures { result.now ≡ (action self.now).preconditions }
    {
        self.preconditions.as_slice()
    }

    pub fn effects(&self) -> &[Fact]
        ensures { result.now ≡ (action self.now).effects }
    {
        self.effects.as_slice()
    }
}

impl Task {
    // The number of values of each variable.
    #[tactic(auto, using(sas::proofs::Rules::rules))]
    pub fn sizes(&self) -> &[u8]
        ensures value { result.now ≡ (model_of self.now).sizes }
        ensures rules { Rules (model_of self.now) }
    {
        self.sizes.as_slice()
    }

    pub fn goal(&self) -> &[Fact]
        ensures { result.now ≡ (model_of self.now).goal }
    {
        self.goal.as_slice()
    }

    pub fn operators(&self) -> &[Operator]
        ensures { map action result.now ≡ (model_of self.now).operators }
    {
        self.operators.as_slice()
    }
}
