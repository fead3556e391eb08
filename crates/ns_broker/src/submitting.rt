//! A worker submits its plan.

ghost use Rattle.std.specs.Prelude.{◌≡◌, ◌↔◌, IsTrue, MatchResult, Some};
ghost use Rattle.ns_types.specs.Working.Looks.{RefusesPlan};
ghost use Rattle.ns_types.specs.Working.Work.{is_snapped};
ghost use Rattle.ns_broker.specs.Submitting.{HasWork, IsAdmitted, Submits, handed_in};
ghost use Rattle.ns_change.specs.Changed.{Does};
ghost use Rattle.ns_tables.specs.World.{world_of};

use crate::looking::worker_at;
use ns_change::{Change, Prepared, add_plan, prepare, put_row};
use ns_equality::Equal;
use ns_tables::Tables;
use ns_types::key::EvalKey;
use ns_types::planned::Planned;
use ns_types::refusal::Refusal;
use ns_types::reply::Content;
use ns_types::snapshot::Snapshot;
use ns_types::text::Text;
use ns_types::worker::{Phase, Worker};
use std::alloc::AllocError;

/// Whether the worker has taken a snapshot, and has not submitted a plan since.
fn is_snapped(worker: &Worker) -> bool
    ensures { result ≡ is_snapped worker.now.phase }
{
    matches!(worker.phase(), Phase::Snapped)
}

/// Whether the worker keeps this snapshot. It takes no memory, and as long as it takes to compare the two snapshots.
pub fn keeps(worker: &Worker, snapshot: &Snapshot) -> bool
    ensures { IsTrue result ↔ (worker.now.kept ≡ Some snapshot.now) }
{
    match worker.kept() {
        Some(kept) => kept.get().equal(snapshot),
        None => false,
    }
}

/// The worker's row, if the worker may submit this plan, or else the refusal. It takes no memory.
fn admitted<'a>(
    tables: &'a Tables,
    number: u64,
    namespace: &Text,
    planned: &Planned,
) -> Result<&'a Worker, Refusal>
    ensures { let w = world_of tables.now in
        MatchResult result (λ worker. IsAdmitted w number namespace.now planned.now worker.now)
        (λ refusal. RefusesPlan w number namespace.now planned.now refusal) }
{
    let Some(worker) = worker_at(tables, number, namespace) else {
        return Err(Refusal::NotEnabled);
    };
    if !is_snapped(worker) {
        return Err(Refusal::NotEnabled);
    }
    if !keeps(worker, planned.snapshot().get()) {
        return Err(Refusal::Foreign);
    }
    if planned.does_nothing() {
        return Err(Refusal::NotEnabled);
    }
    Ok(worker)
}

/// Submits the plan of the worker's snapshot, which waits behind the others.
fn hand_in(
    tables: &Tables,
    change: &mut Change,
    number: u64,
    namespace: &Text,
    worker: &Worker,
    planned: Planned,
) -> Result<(), AllocError>
    requires { worker.now.kept ≡ Some planned }
    ensures { Does result tables.now change.old change.new
        (handed_in number namespace.now worker.now) }
{
    let row = worker.submitted(planned)?;
    put_row(tables, change, namespace, number, row)?;
    add_plan(
        change,
        EvalKey::new(namespace.clone()?, worker.evaluation()),
    )
}

/// Prepares the submission of a plan, which then waits behind the others. `NotEnabled`: the worker has no evaluation of the
/// namespace, or may not submit a plan now. Then `Foreign`: the plan is of another snapshot than the worker keeps. Then
/// `NotEnabled`: the plan does nothing. Want of memory comes last. The premise is that the worker's evaluation is there, as in
/// each valid world.
pub fn submit(
    tables: &Tables,
    number: u64,
    namespace: &Text,
    planned: Planned,
) -> Result<Prepared, Refusal>
    requires { HasWork (world_of tables.now) number namespace.now }
    ensures { Submits number namespace.now planned tables.now result }
{
    let worker = match admitted(tables, number, namespace, &planned) {
        Ok(worker) => worker,
        Err(refusal) => {
            drop(planned);
            return Err(refusal);
        }
    };
    let mut change = Change::new(tables.alloc);
    let made = hand_in(tables, &mut change, number, namespace, worker, planned);
    prepare(Content::Queued(worker.evaluation()), change, made)
}
