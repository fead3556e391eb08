//! A worker dequeues an evaluation.

ghost use Rattle.std.specs.Prelude.{◌≡◌, nat_lt, option_copied};
ghost use Rattle.ns_queues.specs.Turns.{IsRight};
ghost use Rattle.ns_types.specs.State.Names.{same_key};
ghost use Rattle.ns_types.specs.Working.Work.{dequeue, is_idle, new_worker, tries_for, workers_end};
ghost use Rattle.ns_broker.specs.Serving.{key_for, served_as, take};
ghost use Rattle.ns_change.specs.Changed.{Does};
ghost use Rattle.ns_change.specs.Prepared.{Prepares};
ghost use Rattle.ns_tables.specs.World.{world_of};

use crate::looking::{namespace_of, served_ready};
use ns_change::{Change, Prepared, prepare, put_row, take_ready};
use ns_equality::same_number;
use ns_queues::Turns;
use ns_tables::Tables;
use ns_types::evaluation::Evaluation;
use ns_types::job::JobKind;
use ns_types::key::EvalKey;
use ns_types::refusal::Refusal;
use ns_types::reply::Content;
use ns_types::text::{Text, same_text};
use ns_types::worker::Worker;
use std::alloc::AllocError;

/// The number of workers: their numbers are less than this.
const WORKERS: u64 = 64;

/// Whether the worker has no evaluation.
fn is_idle(tables: &Tables, turns: &Turns, number: u64) -> bool
    requires { IsRight (world_of tables.now) turns.now }
    ensures { result ≡ is_idle (world_of tables.now) number }
{
    match namespace_of(tables, turns, number) {
        Some(_) => false,
        None => true,
    }
}

/// How often a plan for a job of this kind may be tried.
fn tries_for(kind: JobKind) -> u64
    ensures { result ≡ tries_for kind }
{
    match kind {
        JobKind::Service => 5,
        JobKind::Batch => 2,
    }
}

/// The row of a worker that has just dequeued the evaluation of that number.
fn new_worker(number: u64, evaluation: &Evaluation) -> Worker
    ensures { result ≡ new_worker number evaluation.now }
{
    Worker::took(number, tries_for(evaluation.kind))
}

/// Whether there is a worker of that number.
fn is_worker(number: u64) -> bool
    ensures { result ≡ nat_lt number workers_end }
{
    number < WORKERS
}

/// Whether the key is that of the evaluation.
fn is_key(namespace: &Text, number: u64, key: &EvalKey) -> bool
    ensures { result ≡ same_key (namespace.now, number) key.now }
{
    same_text(namespace, key.namespace()) && same_number(number, key.number())
}

/// The evaluation's key, if it is the next evaluation to dequeue.
fn served_as<'a>(
    tables: &'a Tables,
    turns: &'a Turns,
    namespace: &Text,
    number: u64,
) -> Option<&'a EvalKey>
    requires { IsRight (world_of tables.now) turns.now }
    ensures { let w = world_of tables.now in
        option_copied result ≡ served_as w w.ready (namespace.now, number) }
{
    let Some(next) = served_ready(tables, turns) else {
        return None;
    };
    if is_key(namespace, number, next) {
        Some(next)
    } else {
        None
    }
}

/// The evaluation's key, if there is such a worker, it is idle, and the evaluation is the next one to dequeue.
fn key_for<'a>(
    tables: &'a Tables,
    turns: &'a Turns,
    number: u64,
    namespace: &Text,
    evaluation: u64,
) -> Option<&'a EvalKey>
    requires { IsRight (world_of tables.now) turns.now }
    ensures { option_copied result ≡
        key_for number (namespace.now, evaluation) (world_of tables.now) }
{
    if !is_worker(number) {
        return None;
    }
    if !is_idle(tables, turns, number) {
        return None;
    }
    served_as(tables, turns, namespace, evaluation)
}

/// Gives the evaluation to the worker, and takes it out of the ready list.
fn take(
    tables: &Tables,
    change: &mut Change,
    number: u64,
    key: &EvalKey,
    row: &Evaluation,
) -> Result<(), AllocError>
    ensures { Does result tables.now change.old change.new (take number key.now row.now) }
{
    let worker = new_worker(key.number(), row);
    put_row(tables, change, key.namespace(), number, worker)?;
    take_ready(tables.alloc, change, key)
}

/// Prepares the dequeue of the evaluation by the worker. `NotEnabled`: there is no such worker, it has an evaluation already,
/// or another evaluation is the next one. Want of memory comes last.
pub fn dequeue(
    tables: &Tables,
    turns: &Turns,
    number: u64,
    namespace: &Text,
    evaluation: u64,
) -> Result<Prepared, Refusal>
    requires { IsRight (world_of tables.now) turns.now }
    ensures { let w = world_of tables.now in
        Prepares (dequeue number (namespace.now, evaluation) w) tables.now result }
{
    let Some(key) = key_for(tables, turns, number, namespace, evaluation) else {
        return Err(Refusal::NotEnabled);
    };
    let Some(row) = tables.evaluation(namespace, evaluation) else {
        return Err(Refusal::NotEnabled);
    };
    let mut change = Change::new(tables.alloc);
    let made = take(tables, &mut change, number, key, row);
    prepare(Content::Took(evaluation), change, made)
}
