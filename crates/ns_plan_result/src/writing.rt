//! All that is written of a plan that stands.

ghost use Rattle.std.specs.Prelude.{◌≡◌, IfOk, Some, map};
ghost use Rattle.keyed.specs.Table.{row_at};
ghost use Rattle.ns_types.specs.Working.Commit.{done};
ghost use Rattle.ns_plan_result.specs.Whole.{CanWrite, IsCleared};
ghost use Rattle.ns_change.specs.Changed.{Does, view};
ghost use Rattle.ns_tables.specs.World.{tenant_of, world_of};

use crate::committed::Committed;
use crate::evicting::{evict, victims};
use crate::placing::place;
use crate::stopping::stop;
use ns_change::Change;
use ns_renewal::make_up;
use ns_tables::TenantRows;
use ns_types::plan::Eviction;
use std::alloc::AllocError;

/// Stops the live allocations that the plan stops, and evicts the victims of the nodes that do their part. It returns these
/// victims.
fn clear<'a>(
    committed: &Committed<'a>,
    change: &mut Change,
    tenant: &TenantRows,
) -> Result<Vec<&'a Eviction>, AllocError>
    requires tenant { let kept = committed.now.snapshot.now in
        row_at committed.now.tables.now.tenants kept.namespace ≡ Some tenant.now }
    requires nothing { let t = committed.now.tables.now in view t change.old ≡ world_of t }
    ensures { let tables = committed.now.tables.now in
        IfOk result (λ victims. IsCleared committed.now.snapshot.now committed.now.plan.now
        (world_of tables) (tenant_of tenant.now) committed.now.nodes.now
        (map (λ e. e.now) victims.items) (view tables change.new)) }
{
    stop(committed, change)?;
    let victims = victims(committed, change)?;
    evict(committed.tables, change, &victims)?;
    Ok(victims)
}

/// Writes all that is done of a plan that stands into an empty change: the live stops, the victims of the nodes that do their
/// part, the placements on these nodes, and an evaluation for each job that loses an allocation by preemption.
pub(crate) fn write(
    committed: &Committed,
    change: &mut Change,
    tenant: &TenantRows,
) -> Result<(), AllocError>
    requires tenant { let kept = committed.now.snapshot.now in
        row_at committed.now.tables.now.tenants kept.namespace ≡ Some tenant.now }
    requires nothing { let t = committed.now.tables.now in view t change.old ≡ world_of t }
    requires can { CanWrite committed.now.snapshot.now committed.now.plan.now
        (world_of committed.now.tables.now) (tenant_of tenant.now) committed.now.nodes.now }
    ensures { let kept = committed.now.snapshot.now in
        let t = tenant_of tenant.now in
        Does result committed.now.tables.now change.old change.new
        (λ w. (done kept committed.now.plan.now w t).world) }
{
    let victims = clear(committed, change, tenant)?;
    place(committed, change)?;
    make_up(committed.tables, change, &victims)
}
