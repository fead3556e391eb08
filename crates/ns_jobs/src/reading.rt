//! Reads in a namespace.

ghost use Rattle.std.specs.Prelude.{◌≡◌, IfOk, IsTrue};
ghost use Rattle.ns_types.specs.declared.step.AskCommand.TheVariants as AskCommand;
ghost use Rattle.ns_types.specs.Asking.Reads.{events_from};
ghost use Rattle.ns_jobs.specs.Read.{Reads, ReadsIn, SaysIn, UsageFits, only_reads};
ghost use Rattle.ns_live_index.specs.Index.{IsRight};
ghost use Rattle.ns_tables.specs.World.{tenant_of, world_of};

use crate::allocations::{list_allocations, read_allocation};
use crate::evaluations::{list_evaluations, read_evaluation};
use crate::jobs::{list_jobs, read_job};
use crate::usage::quota_usage;
use ns_live_index::Live;
use ns_tables::{Tables, TenantRows};
use ns_types::refusal::Refusal;
use ns_types::reply::{Content, NamespaceShown};
use ns_types::shared::Shared;
use ns_types::step::AskCommand;
use ns_types::text::Text;
use std::alloc::{AllocError, Global};

/// The reply to the read of the namespace's record.
fn read_namespace(alloc: Global, namespace: &Text, tenant: &TenantRows) -> Result<Content, Refusal>
    ensures { SaysIn namespace.now AskCommand.ReadNamespace tenant.now result }
{
    let shown = NamespaceShown {
        name: namespace.clone()?,
        row: tenant.namespace.clone()?,
    };
    let shown = Shared::new(alloc, shown)?;
    Ok(Content::Namespace(shown))
}

/// The reply to the read of events.
fn events_from(
    alloc: Global,
    namespace: &Text,
    tenant: &TenantRows,
    index: u64,
) -> Result<Content, AllocError>
    ensures { IfOk result
        (λ said. said ≡ events_from namespace.now index (tenant_of tenant.now)) }
{
    let name = namespace.clone()?;
    let kept = tenant.events.from_index(alloc, index)?;
    Ok(Content::Events(name, kept))
}

/// The reply to a command that only reads, in a namespace that is there.
fn read_in(
    tables: &Tables,
    live: &Live,
    namespace: &Text,
    tenant: &TenantRows,
    command: &AskCommand,
) -> Result<Content, Refusal>
    requires reads { IsTrue (only_reads command.now) }
    requires right { IsRight (world_of tables.now) live.now }
    requires fits { UsageFits command.now (world_of tables.now) }
    ensures { ReadsIn namespace.now command.now (world_of tables.now) tenant.now result }
{
    let alloc = tables.alloc;
    match command {
        AskCommand::ListJobs(prefix) => list_jobs(alloc, namespace, tenant, prefix),
        AskCommand::ReadJob(id) => read_job(namespace, tenant, id),
        AskCommand::ReadEvaluation(number) => read_evaluation(alloc, namespace, tenant, *number),
        AskCommand::ReadAllocation(number) => read_allocation(alloc, namespace, tenant, *number),
        AskCommand::JobEvaluations(_) | AskCommand::ListEvaluations(_) => {
            Ok(list_evaluations(alloc, namespace, tenant, command)?)
        }
        AskCommand::JobAllocations(_) | AskCommand::ListAllocations(_) => {
            Ok(list_allocations(alloc, namespace, tenant, command)?)
        }
        AskCommand::ReadNamespace => read_namespace(alloc, namespace, tenant),
        AskCommand::QuotaUsage(quota) => quota_usage(tables, live, tenant, quota),
        AskCommand::Events(index) => Ok(events_from(alloc, namespace, tenant, *index)?),
        _ => unreachable!(),
    }
}

/// The reply to a command that only reads, if the index is right for the tables. `NotFound`: there is no such namespace, no
/// such job, evaluation or allocation in it, or the quota is not the namespace's.
pub fn read(
    tables: &Tables,
    live: &Live,
    namespace: &Text,
    command: &AskCommand,
) -> Result<Content, Refusal>
    requires reads { IsTrue (only_reads command.now) }
    requires right { IsRight (world_of tables.now) live.now }
    requires fits { UsageFits command.now (world_of tables.now) }
    ensures { Reads namespace.now command.now tables.now result }
{
    let Some(tenant) = tables.tenants.get(namespace) else {
        return Err(Refusal::NotFound);
    };
    read_in(tables, live, namespace, tenant, command)
}
