//! The stop of an allocation on request.

ghost use Rattle.std.specs.Prelude.{◌≡◌, Some, false};
ghost use Rattle.keyed.specs.Table.{row_at};
ghost use Rattle.ns_types.specs.declared.step.AskCommand.TheVariants as AskCommand;
ghost use Rattle.ns_types.specs.Asking.Asks.{ask};
ghost use Rattle.ns_types.specs.Steps.{is_past_bound};
ghost use Rattle.ns_change.specs.Prepared.{Prepares, bounded};
ghost use Rattle.ns_jobs.specs.Counted.{IsNext};
ghost use Rattle.ns_jobs.specs.Made.{stopped_with};
ghost use Rattle.ns_tables.specs.World.{tenant_of, world_of};

use crate::ending::ending_passes;
use crate::looking::allocation;
use crate::making::{Numbers, next_numbers, stop_and_make};
use ns_change::{Change, Prepared, prepare};
use ns_tables::{Tables, TenantRows};
use ns_types::allocation::Allocation;
use ns_types::refusal::Refusal;
use ns_types::reply::Content;
use ns_types::text::Text;

/// The reply and the change of the stop of a live allocation.
fn stopped(
    tables: &Tables,
    namespace: &Text,
    tenant: &TenantRows,
    number: u64,
    row: &Allocation,
    numbers: Numbers,
) -> Result<Prepared, Refusal>
    requires tenant { row_at tables.now.tenants namespace.now ≡ Some tenant.now }
    requires numbers { IsNext (tenant_of tenant.now) numbers }
    ensures { let t = tenant_of tenant.now in
        let done = stopped_with namespace.now number (world_of tables.now) t row.now in
        Prepares done tables.now result }
{
    let mut change = Change::new(tables.alloc);
    let made = stop_and_make(tables, &mut change, namespace, tenant, number, row);
    prepare(
        Content::Stopped(numbers.evaluation, numbers.index),
        change,
        made,
    )
}

/// Prepares the stop of a live allocation, and a new evaluation of its job.
///
/// `NotFound`: there is no such namespace, or no such allocation in it. `Conflict`: the allocation is not live. `Full`: a
/// counter would pass its bound: the namespace's index, the number of its evaluations, the release number of the node's pool
/// if the node is ready and eligible, the release number of the namespace's quota, or the index of a namespace with an
/// evaluation that these releases would wake. In this order. Want of memory comes last.
pub fn stop_allocation(tables: &Tables, namespace: &Text, number: u64) -> Result<Prepared, Refusal>
    requires { is_past_bound (world_of tables.now) ≡ false }
    ensures { let command = AskCommand.StopAllocation number in
        let w = world_of tables.now in
        Prepares (bounded w (ask namespace.now command w)) tables.now result }
{
    let Some(tenant) = tables.tenants.get(namespace) else {
        return Err(Refusal::NotFound);
    };
    let Some(row) = allocation(tenant, number) else {
        return Err(Refusal::NotFound);
    };
    if !row.is_live() {
        return Err(Refusal::Conflict);
    }
    let Some(numbers) = next_numbers(tenant) else {
        return Err(Refusal::Full);
    };
    if ending_passes(tables, tenant, row) {
        return Err(Refusal::Full);
    }
    stopped(tables, namespace, tenant, number, row, numbers)
}
