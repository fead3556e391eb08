//! A law of logs, the contract of a function that does nothing.

ghost use Rattle.std.specs.Prelude.{List};
ghost use Rattle.ns_types.specs.declared.step.Step.{Step};
ghost use Rattle.ns_types.specs.Steps.{Answer};
ghost use Rattle.ns_steps.specs.Chains.{Chain};
ghost use Rattle.ns_work_log.specs.Logs.{AreNoted, History};

use crate::held::Held;
use ns_steps::chain::Server;

/// A chain of steps that a held server made stands in its log, in its order, and nothing else was added.
pub fn chain_is_noted()
    ensures { (old new : History) (steps : List Step) (answers : List Answer) →
        Chain ⟦<Held as Server>⟧.state ⟦<Held as Server>⟧.notes old steps answers new →
        AreNoted old steps answers new }
{}
