//! Applies a worker's plan.

ghost use Rattle.std.specs.Prelude.{◌≡◌, Some, false};
ghost use Rattle.keyed.specs.Table.{row_at};
ghost use Rattle.ns_types.specs.declared.worker.Phase.TheVariants as Phase;
ghost use Rattle.ns_types.specs.Steps.{is_past_bound};
ghost use Rattle.ns_types.specs.Validity.{IsSound};
ghost use Rattle.ns_types.specs.Working.Commit.{apply};
ghost use Rattle.ns_applier.specs.Applying.{comes_to};
ghost use Rattle.ns_change.specs.Prepared.{Prepares, bounded};
ghost use Rattle.ns_live_index.specs.Index.{IsRight};
ghost use Rattle.ns_plan.specs.Looks.{AreCounted, IsOnFewNodes};
ghost use Rattle.ns_tables.specs.World.{tenant_of, world_of};

use crate::judging::passes;
use crate::turn::{evaluation, is_in_turn};
use crate::view::Present;
use ns_broker::worker_at;
use ns_change::Prepared;
use ns_live_index::Live;
use ns_place::marking::Places;
use ns_plan::check;
use ns_plan_result::{Committed, Turn, apply_refused, apply_standing};
use ns_tables::{Tables, TenantRows};
use ns_types::plan::Plan;
use ns_types::refusal::Refusal;
use ns_types::snapshot::Snapshot;
use ns_types::text::Text;

/// Applies the plan of the worker whose plan is next. Before anything takes memory, it checks the plan, and whether a
/// counter would pass its bound.
fn come_to(
    tables: &Tables,
    live: &Live,
    tenant: &TenantRows,
    turn: &Turn,
    snapshot: &Snapshot,
    plan: &Plan,
) -> Result<Prepared, Refusal>
    requires right { IsRight (world_of tables.now) live.now }
    requires within { is_past_bound (world_of tables.now) ≡ false }
    requires counted { AreCounted (world_of tables.now) }
    requires few { IsOnFewNodes snapshot.now plan.now }
    requires tenant { row_at tables.now.tenants snapshot.now.namespace ≡ Some tenant.now }
    requires submitted { turn.now.worker.now.phase ≡ Phase.Submitted }
    ensures { Prepares (comes_to turn.now.number (world_of tables.now) (tenant_of tenant.now)
        turn.now.worker.now turn.now.evaluation.now snapshot.now plan.now) tables.now result }
{
    let present = Present::new(tables, live);
    let outcome = check(snapshot, plan, &present);
    if outcome.is_refused() {
        return apply_refused(tables, snapshot, turn, outcome.dropped());
    }
    let nodes = Places::new(outcome.committed());
    if passes(tables, live, snapshot, plan, &nodes) {
        return Err(Refusal::Full);
    }
    let committed = Committed {
        tables,
        snapshot,
        plan,
        nodes: &nodes,
    };
    apply_standing(&committed, tenant, turn, outcome.dropped())
}

/// Applies the plan that the worker handed in for its evaluation of the namespace. The reply has the numbers of the
/// placed allocations, and the names of the nodes whose part of the plan is not done.
///
/// `NotEnabled`: the worker has no evaluation of the namespace, it has not handed in a plan, or another plan is next.
/// Then `Full`: the number of an allocation, an evaluation, a place or a release, or an index, would pass its bound. Then
/// want of memory.
///
/// In a valid world. It costs what the plan costs (`ns_plan::check`, `ns_plan_result::apply_standing`) and a look-up for each
/// plan in the list and for each blocked evaluation.
pub fn apply(
    tables: &Tables,
    live: &Live,
    number: u64,
    namespace: &Text,
) -> Result<Prepared, Refusal>
    requires right { IsRight (world_of tables.now) live.now }
    requires within { is_past_bound (world_of tables.now) ≡ false }
    requires sound { IsSound (world_of tables.now) }
    ensures { let w = world_of tables.now in
        Prepares (bounded w (apply number namespace.now w)) tables.now result }
{
    let Some(tenant) = tables.tenants.get(namespace) else {
        return Err(Refusal::NotEnabled);
    };
    let Some(worker) = worker_at(tables, number, namespace) else {
        return Err(Refusal::NotEnabled);
    };
    let Some(evaluation) = evaluation(tables, namespace, worker) else {
        return Err(Refusal::NotEnabled);
    };
    let Some(planned) = worker.plan() else {
        return Err(Refusal::NotEnabled);
    };
    if !is_in_turn(tables, namespace, worker) {
        return Err(Refusal::NotEnabled);
    }
    let turn = Turn {
        number,
        worker,
        evaluation,
    };
    let snapshot = planned.snapshot().get();
    come_to(tables, live, tenant, &turn, snapshot, planned.plan())
}
