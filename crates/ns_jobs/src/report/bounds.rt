//! Whether a counter passes its bound once a report has settled. It takes no memory, so it can be decided before anything that
//! takes memory.

ghost use Rattle.std.specs.Prelude.{◌≡◌};
ghost use Rattle.ns_jobs.specs.Reporting.{number_passes, release_passes, report_passes};
ghost use Rattle.ns_tables.specs.World.{tenant_of, world_of};

use crate::ending_passes;
use crate::report::statuses::{calls_for_one, ends};
use ns_counters::is_at_bound;
use ns_tables::{Tables, TenantRows};
use ns_types::allocation::{Allocation, ClientStatus};

fn number_passes(tenant: &TenantRows, row: &Allocation, client: ClientStatus) -> bool
    ensures { result ≡ number_passes (tenant_of tenant.now) row.now client }
{
    is_at_bound(tenant.evaluation_number) && calls_for_one(tenant, row, client)
}

fn release_passes(
    tables: &Tables,
    tenant: &TenantRows,
    row: &Allocation,
    client: ClientStatus,
) -> bool
    ensures { result
        ≡ release_passes (world_of tables.now) (tenant_of tenant.now) row.now client }
{
    ends(row, client) && ending_passes(tables, tenant, row)
}

/// Whether a counter passes its bound once the allocation has this status, which it did not have: its namespace's index, the
/// number of the evaluation that the status calls for, or a counter that the end of the allocation raises by what it releases.
/// Only if the allocation ends, the work grows with the number of blocked evaluations.
pub(crate) fn report_passes(
    tables: &Tables,
    tenant: &TenantRows,
    row: &Allocation,
    client: ClientStatus,
) -> bool
    ensures { result ≡ report_passes (world_of tables.now) (tenant_of tenant.now) row.now client }
{
    is_at_bound(tenant.index)
        || number_passes(tenant, row, client)
        || release_passes(tables, tenant, row, client)
}
