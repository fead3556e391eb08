//! The answer and the change of an Apply, once it is known which nodes do their part.

ghost use Rattle.std.specs.Prelude.{◌≡◌, IfOk, Some, true};
ghost use Rattle.keyed.specs.Table.{row_at};
ghost use Rattle.ns_types.specs.declared.plan.Plan.{Plan};
ghost use Rattle.ns_types.specs.declared.worker.Phase.TheVariants as Phase;
ghost use Rattle.ns_types.specs.Settling.Outcome.{Done, Outcome, is_done};
ghost use Rattle.ns_types.specs.State.Rows.{World};
ghost use Rattle.ns_types.specs.Working.Commit.{applied, done, nodes_in, refused_whole};
ghost use Rattle.ns_plan_result.specs.Whole.{CanWrite};
ghost use Rattle.ns_change.specs.Changed.{view};
ghost use Rattle.ns_change.specs.Prepared.{Prepares};
ghost use Rattle.ns_tables.specs.World.{tenant_of, world_of};
ghost use Rattle.ns_tables.specs.declared.tables.Tables.{Tables};

use crate::answering::{Effect, Turn, effect_of, mark, names_in, numbers_made};
use crate::committed::Committed;
use crate::writing::write;
use ns_change::{Change, Prepared};
use ns_tables::{Tables, TenantRows};
use ns_types::refusal::Refusal;
use ns_types::reply::Content;
use ns_types::rows::Rows;
use ns_types::snapshot::Snapshot;
use std::alloc::AllocError;

/// The answer with the change, if there was memory for both.
fn prepared(change: Change, told: Result<Content, AllocError>) -> Result<Prepared, Refusal>
    ensures { (t : Tables) → (outcome : Outcome World) → is_done outcome ≡ true →
        IfOk told (λ content. outcome ≡ Done content (view t change)) →
        Prepares outcome t result }
{
    match told {
        Ok(content) => Ok(Prepared { content, change }),
        Err(_) => {
            drop(change);
            Err(Refusal::Memory)
        }
    }
}

/// Writes what is done of a plan that stands, and the worker's row. It returns the answer.
fn write_told(
    committed: &Committed,
    change: &mut Change,
    tenant: &TenantRows,
    turn: &Turn,
    dropped: &[u16],
) -> Result<Content, AllocError>
    requires tenant { let kept = committed.now.snapshot.now in
        row_at committed.now.tables.now.tenants kept.namespace ≡ Some tenant.now }
    requires nothing { let t = committed.now.tables.now in view t change.old ≡ world_of t }
    requires can { CanWrite committed.now.snapshot.now committed.now.plan.now
        (world_of committed.now.tables.now) (tenant_of tenant.now) committed.now.nodes.now }
    requires dropped { let w = world_of committed.now.tables.now in
        let t = tenant_of tenant.now in
        dropped.now ≡ (done committed.now.snapshot.now committed.now.plan.now w t).checked.dropped }
    requires submitted { turn.now.worker.now.phase ≡ Phase.Submitted }
    ensures { let kept = committed.now.snapshot.now in
        let w = world_of committed.now.tables.now in
        let a = done kept committed.now.plan.now w (tenant_of tenant.now) in
        IfOk result (λ content. applied turn.now.number kept.namespace turn.now.worker.now
        turn.now.evaluation.now a ≡ Done content (view committed.now.tables.now change.new)) }
{
    write(committed, change, tenant)?;
    let namespace = &committed.snapshot.namespace;
    let effect = effect_of(committed, tenant, dropped);
    mark(committed.tables, change, namespace, turn, effect)?;
    let numbers = numbers_made(committed, tenant.allocation_number)?;
    let names = names_in(committed.tables.alloc, committed.snapshot, dropped)?;
    Ok(Content::Applied(numbers, names))
}

/// The answer and the change of the Apply of a plan that stands. It was decided before which nodes do their part and which are
/// dropped, and that no number or place passes its bound. `Memory` is the only refusal.
///
/// It costs a few look-ups and the copy of a row for each stop, and for each eviction and placement of the nodes that do their
/// part; and an evaluation for each job that loses an allocation by preemption.
pub fn apply_standing(
    committed: &Committed,
    tenant: &TenantRows,
    turn: &Turn,
    dropped: &[u16],
) -> Result<Prepared, Refusal>
    requires tenant { let kept = committed.now.snapshot.now in
        row_at committed.now.tables.now.tenants kept.namespace ≡ Some tenant.now }
    requires can { CanWrite committed.now.snapshot.now committed.now.plan.now
        (world_of committed.now.tables.now) (tenant_of tenant.now) committed.now.nodes.now }
    requires dropped { let w = world_of committed.now.tables.now in
        let t = tenant_of tenant.now in
        dropped.now ≡ (done committed.now.snapshot.now committed.now.plan.now w t).checked.dropped }
    requires submitted { turn.now.worker.now.phase ≡ Phase.Submitted }
    ensures { let kept = committed.now.snapshot.now in
        let w = world_of committed.now.tables.now in
        let a = done kept committed.now.plan.now w (tenant_of tenant.now) in
        let worker = turn.now.worker.now in
        Prepares (applied turn.now.number kept.namespace worker turn.now.evaluation.now a)
        committed.now.tables.now result }
{
    let mut change = Change::new(committed.tables.alloc);
    let told = write_told(committed, &mut change, tenant, turn, dropped);
    prepared(change, told)
}

// ---- a plan that no longer stands

/// The effect of a plan that no longer stands: nothing of it is done, and all its nodes are dropped.
const REFUSED: Effect = Effect {
    has_committed: false,
    has_dropped: true,
};

fn mark_told(
    tables: &Tables,
    change: &mut Change,
    snapshot: &Snapshot,
    turn: &Turn,
    dropped: &[u16],
) -> Result<Content, AllocError>
    requires nothing { view tables.now change.old ≡ world_of tables.now }
    requires submitted { turn.now.worker.now.phase ≡ Phase.Submitted }
    ensures { (p : Plan) → dropped.now ≡ nodes_in p.placing.placements →
        let a = refused_whole snapshot.now p (world_of tables.now) in
        IfOk result (λ content. applied turn.now.number snapshot.now.namespace turn.now.worker.now
        turn.now.evaluation.now a ≡ Done content (view tables.now change.new)) }
{
    mark(tables, change, &snapshot.namespace, turn, REFUSED)?;
    let names = names_in(tables.alloc, snapshot, dropped)?;
    Ok(Content::Applied(Rows::new(tables.alloc), names))
}

/// The answer and the change of the Apply of a plan that no longer stands: nothing of it is done, and all its nodes are
/// dropped. `Memory` is the only refusal.
pub fn apply_refused(
    tables: &Tables,
    snapshot: &Snapshot,
    turn: &Turn,
    dropped: &[u16],
) -> Result<Prepared, Refusal>
    requires submitted { turn.now.worker.now.phase ≡ Phase.Submitted }
    ensures { (p : Plan) → dropped.now ≡ nodes_in p.placing.placements →
        let a = refused_whole snapshot.now p (world_of tables.now) in
        let worker = turn.now.worker.now in
        Prepares (applied turn.now.number snapshot.now.namespace worker turn.now.evaluation.now a)
        tables.now result }
{
    let mut change = Change::new(tables.alloc);
    let told = mark_told(tables, &mut change, snapshot, turn, dropped);
    prepared(change, told)
}
