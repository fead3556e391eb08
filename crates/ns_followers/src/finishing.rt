//! A worker finishes its evaluation.

ghost use Rattle.std.specs.Prelude.{◌≡◌, ◌+◌, IfOk, MatchResult, None, Some, false, nat_lt};
ghost use Rattle.ns_types.specs.declared.reply.Content.TheVariants as Content;
ghost use Rattle.ns_types.specs.Settling.Outcome.{Done};
ghost use Rattle.ns_types.specs.Steps.{greatest, is_past_bound};
ghost use Rattle.ns_types.specs.Working.Looks.{RefusesFinish, is_ending};
ghost use Rattle.ns_types.specs.Working.Work.{end_of, has_failed, may_finish, needs_follower};
ghost use Rattle.ns_broker.specs.Submitting.{HasWork};
ghost use Rattle.ns_change.specs.Changed.{HasEvaluationLeft};
ghost use Rattle.ns_change.specs.Prepared.{Prepares};
ghost use Rattle.ns_followers.specs.Ending.{ended_alone, ended_followed, ended_of};
ghost use Rattle.ns_followers.specs.Finishing.{Finishes, HasPendingWork, IsAdmitted, passes_bound};
ghost use Rattle.ns_followers.specs.Following.{made_follower};
ghost use Rattle.ns_tables.specs.World.{tenant_of, world_of};

use crate::ending::{EndingEvaluation, end_alone, end_followed};
use crate::following::follower;
use crate::missing::missed;
use ns_broker::{keeps, worker_at};
use ns_change::{Change, Prepared, prepare};
use ns_tables::{Tables, TenantRows};
use ns_types::evaluation::{Evaluation, Status};
use ns_types::key::EvalKey;
use ns_types::planned::Planned;
use ns_types::refusal::Refusal;
use ns_types::reply::Content;
use ns_types::text::Text;
use ns_types::worker::{Phase, Worker};
use std::alloc::AllocError;

/// Whether the worker has a snapshot and has not submitted a plan, all of its plan was applied, or its tries are used up.
fn is_ending(worker: &Worker) -> bool
    ensures { result ≡ is_ending worker.now.phase worker.now.tries }
{
    match worker.phase() {
        Phase::Took | Phase::Submitted => false,
        Phase::Snapped | Phase::Applied => true,
        Phase::Dropped => worker.tries() == 0,
    }
}

/// Whether the worker may finish by that plan: all of it was applied, or a part was dropped and no try is left, or it was not
/// submitted and does nothing.
fn may_finish(worker: &Worker, planned: &Planned) -> bool
    ensures { result ≡ may_finish worker.now planned.now }
{
    match worker.phase() {
        Phase::Took | Phase::Submitted => false,
        Phase::Snapped => planned.does_nothing(),
        Phase::Applied => true,
        Phase::Dropped => worker.tries() == 0,
    }
}

/// The worker's row, if it may finish by that plan; else the refusal. It takes no memory.
fn admitted<'a>(
    tables: &'a Tables,
    number: u64,
    namespace: &Text,
    planned: &Planned,
) -> Result<&'a Worker, Refusal>
    ensures { let w = world_of tables.now in
        MatchResult result (λ worker. IsAdmitted w number namespace.now planned.now worker.now)
        (λ refusal. RefusesFinish w number namespace.now planned.now refusal) }
{
    let Some(worker) = worker_at(tables, number, namespace) else {
        return Err(Refusal::NotEnabled);
    };
    if !is_ending(worker) {
        return Err(Refusal::NotEnabled);
    }
    if !keeps(worker, planned.snapshot().get()) {
        return Err(Refusal::Foreign);
    }
    if !may_finish(worker, planned) {
        return Err(Refusal::NotEnabled);
    }
    Ok(worker)
}

/// Whether the worker's tries are used up.
fn has_failed(worker: &Worker) -> bool
    ensures { result ≡ has_failed worker.now }
{
    worker.tries() == 0
}

/// The status that the worker's evaluation gets.
fn end_of(worker: &Worker) -> Status
    ensures { result ≡ end_of worker.now }
{
    if has_failed(worker) {
        Status::Failed
    } else {
        Status::Complete
    }
}

/// Whether the evaluation gets a follower: something was missing and not placed, or the tries are used up.
fn needs_follower(worker: &Worker, planned: &Planned) -> bool
    ensures { result ≡ needs_follower worker.now planned.now }
{
    has_failed(worker) || planned.is_short()
}

/// Whether the count cannot rise any more.
fn is_at_bound(count: u64) -> bool
    ensures { result ≡ nat_lt greatest (count + 1) }
{
    count == u64::MAX
}

/// Whether the namespace has no index left, or needs a number for a follower and has none left.
fn passes_bound(tenant: &TenantRows, follows: bool) -> bool
    ensures { result ≡ passes_bound follows (tenant_of tenant.now) }
{
    is_at_bound(tenant.index) || follows && is_at_bound(tenant.evaluation_number)
}

/// The follower of the worker's evaluation as it is made: pending where it missed a release since the snapshot.
fn made_follower(
    tables: &Tables,
    row: &Evaluation,
    worker: &Worker,
    planned: &Planned,
) -> Result<Evaluation, AllocError>
    ensures { IfOk result (λ made. made
        ≡ made_follower (world_of tables.now) row.now worker.now planned.now) }
{
    let kept = planned.snapshot().get();
    let limited = planned.plan().placing.quota_limited;
    let number = worker.evaluation();
    let mut made = follower(tables.alloc, row, number, kept, has_failed(worker), limited)?;
    if missed(tables, kept, &made) {
        made.status = Status::Pending;
    }
    Ok(made)
}

/// The finish of an evaluation that ends without a follower.
fn alone(tables: &Tables, ending: &EndingEvaluation<'_>) -> Result<Prepared, Refusal>
    ensures { Prepares (Done (Content.Finished ending.now.status None)
        (ended_alone (ended_of ending.now) (world_of tables.now))) tables.now result }
{
    let mut change = Change::new(tables.alloc);
    let made = end_alone(tables, &mut change, ending);
    prepare(Content::Finished(ending.status, None), change, made)
}

/// The finish of an evaluation that ends with this follower, whose number is the namespace's next.
fn followed(
    tables: &Tables,
    ending: &EndingEvaluation<'_>,
    number: u64,
    follower: Evaluation,
) -> Result<Prepared, Refusal>
    requires { HasEvaluationLeft (world_of tables.now) ending.now.key.now.0 }
    ensures { Prepares (Done (Content.Finished ending.now.status (Some number))
        (ended_followed (ended_of ending.now) number follower (world_of tables.now)))
        tables.now result }
{
    let mut change = Change::new(tables.alloc);
    let made = end_followed(tables, &mut change, ending, number, follower);
    prepare(Content::Finished(ending.status, Some(number)), change, made)
}

/// The worker finishes its evaluation of the namespace, by the plan of the snapshot that its row keeps. The evaluation is
/// complete, or has failed if the tries are used up. The job's blocked evaluation is canceled, and its first waiting one is
/// ready. If something was missing and not placed, or the tries are used up, a follower is made: pending if it missed a release
/// since the snapshot, else blocked.
/// `NotEnabled`: the worker has no evaluation of the namespace, or may not finish yet. Then `Foreign`: the plan is of another
/// snapshot than the worker keeps. Then `NotEnabled`: the plan does something and was not submitted. Then `Full`: the
/// namespace's index is at its bound, or a follower is made and the number of the namespace's evaluations is at its bound.
/// The premises hold in each valid world: the worker's evaluation exists and is pending, its number is one that was given, and
/// no counter has passed its bound. It costs a comparison of two snapshots and, for a follower, a look at the nodes of one
/// snapshot and at the classes that its pool released.
pub fn finish(
    tables: &Tables,
    number: u64,
    namespace: &Text,
    planned: &Planned,
) -> Result<Prepared, Refusal>
    requires work { HasWork (world_of tables.now) number namespace.now }
    requires pending { HasPendingWork (world_of tables.now) number namespace.now }
    requires within { is_past_bound (world_of tables.now) ≡ false }
    ensures { Finishes number namespace.now planned.now tables.now result }
{
    let worker = admitted(tables, number, namespace, planned)?;
    let Some(tenant) = tables.tenants.get(namespace) else {
        return Err(Refusal::NotEnabled);
    };
    let Some(row) = tables.evaluation(namespace, worker.evaluation()) else {
        return Err(Refusal::NotEnabled);
    };
    let follows = needs_follower(worker, planned);
    if passes_bound(tenant, follows) {
        return Err(Refusal::Full);
    }
    let key = EvalKey::new(namespace.clone()?, worker.evaluation());
    let ending = EndingEvaluation {
        worker: number,
        key: &key,
        job: &row.job,
        status: end_of(worker),
    };
    if !follows {
        return alone(tables, &ending);
    }
    let follower = made_follower(tables, row, worker, planned)?;
    followed(tables, &ending, tenant.evaluation_number + 1, follower)
}
