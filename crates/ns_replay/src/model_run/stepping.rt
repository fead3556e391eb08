//! Makes any step of the model on a core.

ghost use Rattle.ns_types.specs.declared.step.Step.TheVariants as Step;
ghost use Rattle.ns_types.specs.Steps.{Makes};
ghost use Rattle.ns_replay.specs.Making.{MakesAny};

use crate::model_run::planned::{to_finish, to_submit};
use ns_core::Core;
use ns_types::refusal::Refusal;
use ns_types::reply::{Content, Reply};
use ns_types::step::Step;
use ns_types::text::Text;
use std::alloc::Global;

/// The worker takes a snapshot, which only its row keeps.
fn snap(core: &mut Core, worker: u64, namespace: &Text) -> Result<Reply, Refusal>
    ensures { Makes (Step.Snap worker namespace.now) core.old result core.new }
{
    match core.snap(worker, namespace) {
        Ok(seen) => {
            let number = seen.get().number;
            drop(seen);
            Ok(Reply {
                index: None,
                content: Content::Snapped(number),
            })
        }
        Err(refusal) => Err(refusal),
    }
}

/// The worker hands in the plan of the snapshot that its row keeps.
fn submit(alloc: Global, core: &mut Core, worker: u64, namespace: &Text) -> Result<Reply, Refusal>
    ensures { MakesAny (Step.Submit worker namespace.now) core.old result core.new }
{
    match to_submit(alloc, core, worker, namespace) {
        Ok(planned) => core.submit(worker, namespace, planned),
        Err(refusal) => Err(refusal),
    }
}

/// The worker finishes, by the plan of the snapshot that its row keeps.
fn finish(alloc: Global, core: &mut Core, worker: u64, namespace: &Text) -> Result<Reply, Refusal>
    ensures { MakesAny (Step.Finish worker namespace.now) core.old result core.new }
{
    match to_finish(alloc, core, worker, namespace) {
        Ok(planned) => {
            let answer = core.finish(worker, namespace, &planned);
            drop(planned);
            answer
        }
        Err(refusal) => Err(refusal),
    }
}

/// Makes the step. A worker's plan is that of the snapshot which its row keeps: the row's own, once it was handed in, or
/// else one that is made here. A refusal leaves the state as it is. `NotEnabled`: the step is out of turn. `Memory`: the
/// step would have been made, or it needs a plan, of which it was not yet known whether it does anything.
pub fn step(alloc: Global, core: &mut Core, step: &Step) -> Result<Reply, Refusal>
    ensures { MakesAny step.now core.old result core.new }
{
    match step {
        Step::Ask(namespace, secret, command) => core.ask(namespace, secret.as_ref(), command),
        Step::Admin(secret, command) => core.admin(secret.as_ref(), command),
        Step::Node(pool, secret, command) => core.node(pool, secret.as_ref(), command),
        Step::Dequeue(worker, namespace, evaluation) => {
            core.dequeue(*worker, namespace, *evaluation)
        }
        Step::Snap(worker, namespace) => snap(core, *worker, namespace),
        Step::Submit(worker, namespace) => submit(alloc, core, *worker, namespace),
        Step::Apply(worker, namespace) => core.apply(*worker, namespace),
        Step::Finish(worker, namespace) => finish(alloc, core, *worker, namespace),
        Step::Nack(worker, namespace) => core.nack(*worker, namespace),
    }
}
