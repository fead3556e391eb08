//! Looks at the tables without a step. Looks change nothing and take no memory.

ghost use Rattle.std.specs.Prelude.{◌≡◌, find, is_some, option_copied, option_map};
ghost use Rattle.ns_types.specs.Working.Looks.{first_plan, row_of, served_ready, worker_at};
ghost use Rattle.ns_broker.specs.Looking.{busy_fields, busy_for, busy_of};
ghost use Rattle.ns_broker.specs.Serving.{is_busy_for};
ghost use Rattle.ns_queues.specs.Turns.{IsRight};
ghost use Rattle.ns_tables.specs.World.{world_of};

use crate::serving::served;
use keyed::NameSlot;
use ns_queues::Turns;
use ns_tables::{Tables, TenantRows};
use ns_types::key::EvalKey;
use ns_types::text::Text;
use ns_types::worker::{Phase, Worker};

/// What a worker is busy with.
#[derive(Clone, Copy)]
pub struct Busy<'a> {
    pub namespace: &'a Text,
    /// The number of its evaluation there.
    pub evaluation: u64,
    pub phase: Phase,
    /// How often its plan may still be tried.
    pub tries: u64,
}

/// The next evaluation to dequeue: the first one among those of the highest priority.
pub fn served_ready<'a>(tables: &'a Tables, turns: &'a Turns) -> Option<&'a EvalKey>
    requires { IsRight (world_of tables.now) turns.now }
    ensures { option_copied result ≡ served_ready (world_of tables.now) }
{
    if turns.is_known() {
        turns.served()
    } else {
        served(tables, &tables.ready)
    }
}

/// Whether there is an evaluation to dequeue. It looks at no evaluation.
pub fn has_served(tables: &Tables) -> bool
    ensures { result ≡ is_some (served_ready (world_of tables.now)) }
{
    !tables.ready.is_empty()
}

/// The evaluation whose plan is the next to be applied.
pub fn first_plan(tables: &Tables) -> Option<&EvalKey>
    ensures { option_copied result ≡ first_plan (world_of tables.now) }
{
    served(tables, &tables.plans)
}

/// The worker's row in that namespace.
pub fn worker_at<'a>(tables: &'a Tables, number: u64, namespace: &Text) -> Option<&'a Worker>
    ensures { option_copied result ≡ worker_at (world_of tables.now) number namespace.now }
{
    match tables.tenants.get(namespace) {
        Some(tenant) => tenant.workers.get(number),
        None => None,
    }
}

/// Whether the worker has an evaluation of the namespace.
fn is_busy_for(slot: &NameSlot<TenantRows>, number: u64) -> bool
    ensures { result ≡ is_busy_for number slot.now }
{
    match &slot.1 {
        Some(tenant) => tenant.workers.get(number).is_some(),
        None => false,
    }
}

/// The slot of the first namespace for which the worker is busy.
fn busy_slot(slots: &[NameSlot<TenantRows>], number: u64) -> Option<&NameSlot<TenantRows>>
    ensures { option_copied result ≡ find (is_busy_for number) slots.now }
{
    slots.iter().find(|slot| is_busy_for(slot, number))
}

/// The name of the first namespace for which the worker is busy. It goes through all namespaces.
fn busy_along(tables: &Tables, number: u64) -> Option<&Text>
    ensures { option_copied result ≡ busy_for (world_of tables.now) number }
{
    match busy_slot(tables.tenants.as_slice(), number) {
        Some(slot) => Some(&slot.0),
        None => None,
    }
}

/// The namespace for which the worker is busy. None: it is idle.
pub(crate) fn namespace_of<'a>(
    tables: &'a Tables,
    turns: &'a Turns,
    number: u64,
) -> Option<&'a Text>
    requires { IsRight (world_of tables.now) turns.now }
    ensures { option_copied result ≡ busy_for (world_of tables.now) number }
{
    if turns.is_known() {
        turns.namespace_of(number)
    } else {
        busy_along(tables, number)
    }
}

/// The namespace for which the worker is busy, with the worker's row. None: it is idle.
pub fn row_of<'a>(
    tables: &'a Tables,
    turns: &'a Turns,
    number: u64,
) -> Option<(&'a Text, &'a Worker)>
    requires { IsRight (world_of tables.now) turns.now }
    ensures { option_map (λ r. (r.0.now, r.1.now)) result ≡ row_of (world_of tables.now) number }
{
    let Some(namespace) = namespace_of(tables, turns, number) else {
        return None;
    };
    match worker_at(tables, number, namespace) {
        Some(worker) => Some((namespace, worker)),
        None => None,
    }
}

/// What the worker is busy with, and its phase. None: it is idle.
pub fn phase<'a>(tables: &'a Tables, turns: &'a Turns, number: u64) -> Option<Busy<'a>>
    requires { IsRight (world_of tables.now) turns.now }
    ensures { option_map busy_fields result
        ≡ option_map busy_of (row_of (world_of tables.now) number) }
{
    match row_of(tables, turns, number) {
        Some((namespace, worker)) => Some(Busy {
            namespace,
            evaluation: worker.evaluation(),
            phase: worker.phase(),
            tries: worker.tries(),
        }),
        None => None,
    }
}
