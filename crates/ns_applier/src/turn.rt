//! Decides whether a worker's plan is the next one, and finds its evaluation.

ghost use Rattle.std.specs.Prelude.{◌≡◌, ◌&&◌, option_copied};
ghost use Rattle.ns_types.specs.State.Names.{same_key};
ghost use Rattle.ns_types.specs.State.Rows.{evaluation_at};
ghost use Rattle.ns_types.specs.Working.Queue.{is_served};
ghost use Rattle.ns_types.specs.Working.Work.{is_submitted};
ghost use Rattle.ns_tables.specs.World.{world_of};

use ns_broker::first_plan;
use ns_equality::{same_number, same_text};
use ns_tables::Tables;
use ns_types::evaluation::Evaluation;
use ns_types::key::EvalKey;
use ns_types::text::Text;
use ns_types::worker::{Phase, Worker};

fn is_submitted(worker: &Worker) -> bool
    ensures { result ≡ is_submitted worker.now.phase }
{
    matches!(worker.phase(), Phase::Submitted)
}

fn is_key(namespace: &Text, number: u64, key: &EvalKey) -> bool
    ensures { result ≡ same_key (namespace.now, number) key.now }
{
    same_text(namespace, key.namespace()) && same_number(number, key.number())
}

/// Whether the plan for the namespace's evaluation is the next one.
fn is_served(tables: &Tables, namespace: &Text, number: u64) -> bool
    ensures { let w = world_of tables.now in
        result ≡ is_served w w.plans (namespace.now, number) }
{
    match first_plan(tables) {
        Some(key) => is_key(namespace, number, key),
        None => false,
    }
}

/// Whether the worker has handed in its plan, and it is the next one.
pub(crate) fn is_in_turn(tables: &Tables, namespace: &Text, worker: &Worker) -> bool
    ensures { let w = world_of tables.now in
        result ≡ (is_submitted worker.now.phase
        && is_served w w.plans (namespace.now, worker.now.evaluation)) }
{
    is_submitted(worker) && is_served(tables, namespace, worker.evaluation())
}

/// The evaluation of the namespace that the worker has.
pub(crate) fn evaluation<'a>(
    tables: &'a Tables,
    namespace: &Text,
    worker: &Worker,
) -> Option<&'a Evaluation>
    ensures { option_copied result ≡
        evaluation_at (world_of tables.now) (namespace.now, worker.now.evaluation) }
{
    tables.evaluation(namespace, worker.evaluation())
}
