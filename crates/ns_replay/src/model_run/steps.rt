//! Servers that make any step of the model.

ghost use Rattle.ns_replay.specs.Making.{MakesAny};

use crate::model_run::stepping;
use ns_core::Core;
use ns_types::refusal::Refusal;
use ns_types::reply::Reply;
use ns_types::step::Step;
use std::alloc::Global;

/// A server that makes any step of the model.
pub trait Steps {
    ghost use Rattle.ns_types.specs.State.Rows.{State};

    // The state that the value stands for.
    ghost state: { Self → State };

    /// Makes the step. A refusal leaves the state as it is.
    fn make(&mut self, alloc: Global, step: &Step) -> Result<Reply, Refusal>
        ensures { MakesAny step.now (state self.old) result (state self.new) };
}

impl Steps for Core {
    ghost state = { λ core. core };

    fn make(&mut self, alloc: Global, step: &Step) -> Result<Reply, Refusal> {
        stepping::step(alloc, self, step)
    }
}
