//! Laws of chains, each the contract of a function that does nothing.

ghost use Rattle.std.specs.Prelude.{◌++◌, List};
ghost use Rattle.ns_types.specs.declared.step.Step.{Step};
ghost use Rattle.ns_types.specs.Steps.{Answer, Run};
ghost use Rattle.ns_steps.specs.Chains.{Chain};

use crate::chain::server::Server;

/// The steps of a chain are a run of the model, with these answers.
pub fn chain_is_run<S: Server>()
    ensures { (old new : S) (steps : List Step) (answers : List Answer) →
        Chain S.state S.notes old steps answers new →
        Run (S.state old) steps answers (S.state new) }
{}

/// A chain, and one that goes on from where it ends, are one chain.
pub fn chains_join<S: Server>()
    ensures { (old mid new : S) (steps rest : List Step) (answers told : List Answer) →
        Chain S.state S.notes old steps answers mid → Chain S.state S.notes mid rest told new →
        Chain S.state S.notes old (steps ++ rest) (answers ++ told) new }
{}
