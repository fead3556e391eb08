//! A worker nacks its evaluation.

ghost use Rattle.std.specs.Prelude.{◌≡◌, ◌+◌, ◌<◌, ◌^◌, false, option_copied};
ghost use Rattle.ns_types.specs.declared.evaluation.Status.TheVariants as Status;
ghost use Rattle.ns_types.specs.declared.reply.Content.TheVariants as Content;
ghost use Rattle.ns_types.specs.Settling.Outcome.{Done};
ghost use Rattle.ns_types.specs.State.Rows.{evaluation_at};
ghost use Rattle.ns_types.specs.Steps.{is_past_bound};
ghost use Rattle.ns_types.specs.Working.Work.{is_submitted, nack};
ghost use Rattle.ns_broker.specs.Bounded.{cannot_fail, is_failed, is_last_index};
ghost use Rattle.ns_broker.specs.Nacking.{HasNackLeft, left, put_away, put_back};
ghost use Rattle.ns_change.specs.Changed.{Does, DoesIn};
ghost use Rattle.ns_change.specs.Prepared.{Prepares, bounded};
ghost use Rattle.ns_tables.specs.World.{world_of};

use crate::looking::worker_at;
use ns_change::{Change, Prepared, add_ready, prepare, promote, put_row, remove_worker};
use ns_tables::Tables;
use ns_types::evaluation::{Evaluation, Status};
use ns_types::key::EvalKey;
use ns_types::refusal::Refusal;
use ns_types::reply::Content;
use ns_types::text::Text;
use ns_types::worker::{Phase, Worker};
use std::alloc::AllocError;

/// An evaluation that has this many nacks fails at the next one.
const NACKS: u64 = 2;

fn is_submitted(worker: &Worker) -> bool
    ensures { result ≡ is_submitted worker.now.phase }
{
    matches!(worker.phase(), Phase::Submitted)
}

/// The evaluation of the namespace that the worker has.
fn evaluation<'a>(tables: &'a Tables, namespace: &Text, worker: &Worker) -> Option<&'a Evaluation>
    ensures { option_copied result ≡
        evaluation_at (world_of tables.now) (namespace.now, worker.now.evaluation) }
{
    tables.evaluation(namespace, worker.evaluation())
}

/// Puts the evaluation's new row, and makes the worker idle.
fn leave(
    tables: &Tables,
    change: &mut Change,
    number: u64,
    namespace: &Text,
    evaluation: u64,
    row: Evaluation,
) -> Result<(), AllocError>
    ensures { DoesIn namespace.now result tables.now change.old change.new
        (left number evaluation row) }
{
    put_row(tables, change, namespace, evaluation, row)?;
    remove_worker(tables, change, namespace, number)
}

/// Counts the nack, makes the worker idle, and makes the evaluation ready again, behind the others.
fn put_back(
    tables: &Tables,
    change: &mut Change,
    number: u64,
    namespace: &Text,
    evaluation: u64,
    row: &Evaluation,
) -> Result<(), AllocError>
    requires { row.now.nacks + 1 < 2 ^ 64 }
    ensures { Does result tables.now change.old change.new
        (put_back number namespace.now evaluation row.now) }
{
    let mut nacked = row.clone()?;
    nacked.nacks += 1;
    leave(tables, change, number, namespace, evaluation, nacked)?;
    add_ready(change, EvalKey::new(namespace.clone()?, evaluation))
}

/// Counts the nack, makes the worker idle, marks the evaluation as failed, and promotes the next evaluation of its job.
fn put_away(
    tables: &Tables,
    change: &mut Change,
    number: u64,
    namespace: &Text,
    evaluation: u64,
    row: &Evaluation,
) -> Result<(), AllocError>
    requires { row.now.nacks + 1 < 2 ^ 64 }
    ensures { Does result tables.now change.old change.new
        (put_away number namespace.now evaluation row.now) }
{
    let mut failed = row.clone()?;
    failed.nacks += 1;
    failed.status = Status::Failed;
    leave(tables, change, number, namespace, evaluation, failed)?;
    promote(tables, change, namespace, &row.job)
}

fn give_back(
    tables: &Tables,
    number: u64,
    namespace: &Text,
    worker: &Worker,
    row: &Evaluation,
) -> Result<Prepared, Refusal>
    requires { row.now.nacks + 1 < 2 ^ 64 }
    ensures { Prepares (Done (Content.Nacked Status.Pending)
        (put_back number namespace.now worker.now.evaluation row.now (world_of tables.now)))
        tables.now result }
{
    let mut change = Change::new(tables.alloc);
    let evaluation = worker.evaluation();
    let made = put_back(tables, &mut change, number, namespace, evaluation, row);
    prepare(Content::Nacked(Status::Pending), change, made)
}

fn give_up(
    tables: &Tables,
    number: u64,
    namespace: &Text,
    worker: &Worker,
    row: &Evaluation,
) -> Result<Prepared, Refusal>
    requires { row.now.nacks + 1 < 2 ^ 64 }
    ensures { Prepares (Done (Content.Nacked Status.Failed)
        (put_away number namespace.now worker.now.evaluation row.now (world_of tables.now)))
        tables.now result }
{
    let mut change = Change::new(tables.alloc);
    let evaluation = worker.evaluation();
    let made = put_away(tables, &mut change, number, namespace, evaluation, row);
    prepare(Content::Nacked(Status::Failed), change, made)
}

fn is_failed(status: Status) -> bool
    ensures { result ≡ is_failed status }
{
    matches!(status, Status::Failed)
}

/// Whether the namespace's index is at its bound.
fn is_last_index(tables: &Tables, namespace: &Text) -> bool
    ensures { result ≡ is_last_index (world_of tables.now) namespace.now }
{
    match tables.tenants.get(namespace) {
        Some(tenant) => tenant.index >= u64::MAX,
        None => false,
    }
}

/// Whether the evaluation is not yet marked as failed, and the namespace has no index left to show that it fails.
fn cannot_fail(tables: &Tables, namespace: &Text, row: &Evaluation) -> bool
    ensures { result ≡ cannot_fail (world_of tables.now) namespace.now row.now }
{
    !is_failed(row.status) && is_last_index(tables, namespace)
}

/// Prepares the nack of the evaluation of the namespace that the worker has. With fewer than three nacks the evaluation is
/// ready again, behind the others. With three it has failed, and the next evaluation of its job is promoted. `NotEnabled`: the
/// worker has no evaluation of the namespace, or its plan waits. `Full`: the evaluation would fail, and the namespace's index
/// is at its bound. Want of memory comes last. The premises hold in each valid world: one more nack can be counted, and no
/// counter has passed its bound.
pub fn nack(tables: &Tables, number: u64, namespace: &Text) -> Result<Prepared, Refusal>
    requires left { HasNackLeft (world_of tables.now) number namespace.now }
    requires within { is_past_bound (world_of tables.now) ≡ false }
    ensures { let w = world_of tables.now in
        Prepares (bounded w (nack number namespace.now w)) tables.now result }
{
    let Some(worker) = worker_at(tables, number, namespace) else {
        return Err(Refusal::NotEnabled);
    };
    let Some(row) = evaluation(tables, namespace, worker) else {
        return Err(Refusal::NotEnabled);
    };
    if is_submitted(worker) {
        return Err(Refusal::NotEnabled);
    }
    if row.nacks < NACKS {
        return give_back(tables, number, namespace, worker, row);
    }
    if cannot_fail(tables, namespace, row) {
        return Err(Refusal::Full);
    }
    give_up(tables, number, namespace, worker, row)
}
