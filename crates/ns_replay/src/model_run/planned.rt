//! The plan that a worker hands in, or by which it finishes.

ghost use Rattle.std.specs.Prelude.{◌≡◌, IsTrue, Some};
ghost use Rattle.ns_types.specs.declared.step.Step.TheVariants as Step;
ghost use Rattle.ns_types.specs.Working.Looks.{is_ending};
ghost use Rattle.ns_types.specs.Working.Work.{is_snapped};
ghost use Rattle.ns_schedule.specs.Fits.{fits};
ghost use Rattle.ns_replay.specs.Planned.{HasFitting, PlansFor, PlansKept};

use ns_core::Core;
use ns_schedule::plan;
use ns_types::planned::Planned;
use ns_types::refusal::Refusal;
use ns_types::shared::Shared;
use ns_types::snapshot::Snapshot;
use ns_types::text::Text;
use ns_types::worker::{Phase, Worker};
use std::alloc::Global;

/// One more owner of a plan that was handed in. Want of memory is the only error.
fn shared(planned: &Planned) -> Result<Planned, Refusal>
    ensures { PlansKept (Some planned.now) result }
{
    Ok(planned.share()?)
}

/// Makes the plan of a snapshot. Want of memory is the only error.
fn made(alloc: Global, seen: &Shared<Snapshot>) -> Result<Planned, Refusal>
    requires { IsTrue (fits seen.now) }
    ensures { PlansKept (Some seen.now) result }
{
    plan(alloc, seen.share()?)
}

/// The plan of the snapshot that the row keeps: the plan that was handed in, or else a new one. The errors are `NotEnabled`, if
/// the row keeps no snapshot, and `Memory`.
fn plan_of(alloc: Global, row: &Worker) -> Result<Planned, Refusal>
    requires { HasFitting row.now }
    ensures { PlansKept row.now.kept result }
{
    if let Some(planned) = row.plan() {
        return shared(planned);
    }
    match row.kept() {
        Some(seen) => made(alloc, seen),
        None => Err(Refusal::NotEnabled),
    }
}

fn is_snapped(row: &Worker) -> bool
    ensures { result ≡ is_snapped row.now.phase }
{
    matches!(row.phase(), Phase::Snapped)
}

fn is_ending(row: &Worker) -> bool
    ensures { result ≡ is_ending row.now.phase row.now.tries }
{
    match row.phase() {
        Phase::Snapped | Phase::Applied => true,
        Phase::Dropped => row.tries() == 0,
        Phase::Took | Phase::Submitted => false,
    }
}

/// The plan that the worker hands in, if it is its turn to do so.
pub(crate) fn to_submit(
    alloc: Global,
    core: &Core,
    worker: u64,
    namespace: &Text,
) -> Result<Planned, Refusal>
    ensures { let step = Step.Submit worker namespace.now in
        PlansFor step worker namespace.now core.now result }
{
    core.is_valid();
    let Some(row) = core.worker_at(worker, namespace) else {
        return Err(Refusal::NotEnabled);
    };
    if !is_snapped(row) {
        return Err(Refusal::NotEnabled);
    }
    plan_of(alloc, row)
}

/// The plan by which the worker finishes, if it is its turn to do so.
pub(crate) fn to_finish(
    alloc: Global,
    core: &Core,
    worker: u64,
    namespace: &Text,
) -> Result<Planned, Refusal>
    ensures { let step = Step.Finish worker namespace.now in
        PlansFor step worker namespace.now core.now result }
{
    core.is_valid();
    let Some(row) = core.worker_at(worker, namespace) else {
        return Err(Refusal::NotEnabled);
    };
    if !is_ending(row) {
        return Err(Refusal::NotEnabled);
    }
    plan_of(alloc, row)
}
