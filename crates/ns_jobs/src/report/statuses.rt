//! The statuses that a client may report of an allocation, and which of them call for an evaluation.

ghost use Rattle.std.specs.Prelude.{◌≡◌, ◌&&◌, not};
ghost use Rattle.ns_types.specs.Asking.Nodes.{calls_for_one, is_of_batch, is_on, may_become, same_client};
ghost use Rattle.ns_types.specs.State.Rows.{is_held};
ghost use Rattle.ns_jobs.specs.Reporting.{ends};
ghost use Rattle.ns_tables.specs.World.{tenant_of};

use crate::job;
use ns_tables::TenantRows;
use ns_types::allocation::{Allocation, ClientStatus, DesiredStatus};
use ns_types::job::JobKind;
use ns_types::text::{Text, same_text};

/// Whether the allocation is on that node of that pool.
pub(crate) fn is_on(pool: &Text, node: &Text, row: &Allocation) -> bool
    ensures { result ≡ is_on pool.now node.now row.now }
{
    same_text(pool, &row.pool) && same_text(node, &row.node)
}

pub(crate) fn same_client(a: ClientStatus, b: ClientStatus) -> bool
    ensures { result ≡ same_client a b }
{
    match a {
        ClientStatus::Pending => matches!(b, ClientStatus::Pending),
        ClientStatus::Running => matches!(b, ClientStatus::Running),
        ClientStatus::Complete => matches!(b, ClientStatus::Complete),
        ClientStatus::Failed => matches!(b, ClientStatus::Failed),
        ClientStatus::Lost => matches!(b, ClientStatus::Lost),
    }
}

/// Whether an allocation may change from the one status to the other.
pub(crate) fn may_become(from: ClientStatus, to: ClientStatus) -> bool
    ensures { result ≡ may_become from to }
{
    match from {
        ClientStatus::Pending => {
            matches!(
                to,
                ClientStatus::Running | ClientStatus::Complete | ClientStatus::Failed
            )
        }
        ClientStatus::Running => matches!(to, ClientStatus::Complete | ClientStatus::Failed),
        _ => false,
    }
}

fn is_held(client: ClientStatus) -> bool
    ensures { result ≡ is_held client }
{
    matches!(client, ClientStatus::Pending | ClientStatus::Running)
}

/// Whether the allocation is live, and no longer is with that status.
pub(crate) fn ends(row: &Allocation, client: ClientStatus) -> bool
    ensures { result ≡ ends row.now client }
{
    row.is_live() && !is_held(client)
}

/// Whether the allocation is of a batch job. A job that is gone counts as a service.
fn is_of_batch(tenant: &TenantRows, row: &Allocation) -> bool
    ensures { result ≡ is_of_batch (tenant_of tenant.now) row.now }
{
    match job(tenant, &row.job) {
        Some(job) => matches!(job.document.get().kind, JobKind::Batch),
        None => false,
    }
}

/// Whether the status calls for an evaluation of the job. It does if the allocation was to run, and it has failed, or it has
/// completed and is not of a batch job.
pub(crate) fn calls_for_one(tenant: &TenantRows, row: &Allocation, client: ClientStatus) -> bool
    ensures { result ≡ calls_for_one (tenant_of tenant.now) row.now client }
{
    let runs = matches!(row.desired, DesiredStatus::Run);
    match client {
        ClientStatus::Failed => runs,
        ClientStatus::Complete => runs && !is_of_batch(tenant, row),
        _ => false,
    }
}
