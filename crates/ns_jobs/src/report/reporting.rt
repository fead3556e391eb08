//! The report of a node's client about one allocation.

ghost use Rattle.std.specs.Prelude.{◌≡◌, Some, false, is_some};
ghost use Rattle.std.specs.FinMap.{get};
ghost use Rattle.keyed.specs.Table.{row_at};
ghost use Rattle.ns_types.specs.declared.step.NodeCommand.TheVariants as NodeCommand;
ghost use Rattle.ns_types.specs.Asking.Nodes.{ask_pool, report_of};
ghost use Rattle.ns_types.specs.State.Rows.{node_at};
ghost use Rattle.ns_types.specs.Steps.{is_past_bound};
ghost use Rattle.ns_change.specs.Prepared.{Prepares, bounded};
ghost use Rattle.ns_tables.specs.World.{tenant_of, world_of};

use crate::allocation;
use crate::report::bounds::report_passes;
use crate::report::statuses::{is_on, may_become, same_client};
use crate::report::writing::reported;
use ns_change::{Change, Prepared};
use ns_tables::{Tables, TenantRows};
use ns_types::allocation::Allocation;
use ns_types::refusal::Refusal;
use ns_types::reply::Content;
use ns_types::step::Report;
use ns_types::text::Text;

fn has_node(tables: &Tables, pool: &Text, name: &Text) -> bool
    ensures { result ≡ is_some (node_at (world_of tables.now) pool.now name.now) }
{
    tables.node(pool, name).is_some()
}

/// The reply and the change of a report about a stored allocation, or its refusal.
fn report_of(
    tables: &Tables,
    tenant: &TenantRows,
    row: &Allocation,
    report: &Report,
) -> Result<Prepared, Refusal>
    requires tenant { row_at tables.now.tenants report.now.namespace ≡ Some tenant.now }
    requires row { get (tenant_of tenant.now).allocations report.now.number ≡ Some row.now }
    requires bounds { is_past_bound (world_of tables.now) ≡ false }
    ensures { let w = world_of tables.now in
        Prepares (bounded w (report_of report.now w row.now)) tables.now result }
{
    if same_client(row.client, report.client) {
        return Ok(Prepared {
            content: Content::Written,
            change: Change::new(tables.alloc),
        });
    }
    if !may_become(row.client, report.client) {
        return Err(Refusal::Conflict);
    }
    if report_passes(tables, tenant, row, report.client) {
        return Err(Refusal::Full);
    }
    reported(tables, tenant, row, report)
}

/// Prepares the report of a node's client about an allocation on the node. A status that the allocation has already changes
/// nothing. Another status is written. If the allocation was to run and has failed, or has completed and is not of a batch
/// job, an evaluation of its job is made.
///
/// `NotFound`: there is no such pool, no such node in it, no such namespace, no such allocation in the namespace, or the
/// allocation is not on the node. `Conflict`: the allocation may not get that status. `Full`: a counter would pass its bound:
/// the namespace's index; the number of its evaluations, if one is made; or, if the allocation was live and is no longer, a
/// counter that rises by the room that it leaves on the node or by the release of its namespace's quota. In this order. Want
/// of memory comes last. A report that ends the allocation costs work that grows with the number of blocked evaluations.
pub fn report(
    tables: &Tables,
    pool: &Text,
    name: &Text,
    report: &Report,
) -> Result<Prepared, Refusal>
    requires { is_past_bound (world_of tables.now) ≡ false }
    ensures { let command = NodeCommand.Report name.now report.now in
        let w = world_of tables.now in
        Prepares (bounded w (ask_pool pool.now command w)) tables.now result }
{
    if !has_node(tables, pool, name) {
        return Err(Refusal::NotFound);
    }
    let Some(tenant) = tables.tenants.get(&report.namespace) else {
        return Err(Refusal::NotFound);
    };
    let Some(row) = allocation(tenant, report.number) else {
        return Err(Refusal::NotFound);
    };
    if !is_on(pool, name, row) {
        return Err(Refusal::NotFound);
    }
    report_of(tables, tenant, row, report)
}
