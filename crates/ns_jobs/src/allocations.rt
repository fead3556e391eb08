//! Allocations as replies show them.

ghost use Rattle.std.specs.Prelude.{◌≡◌, IfOk};
ghost use Rattle.ns_types.specs.declared.step.AskCommand.TheVariants as AskCommand;
ghost use Rattle.ns_types.specs.Asking.Reads.{allocations_where};
ghost use Rattle.ns_jobs.specs.Read.{SaysIn, allocation_shown, lists_allocation};
ghost use Rattle.ns_tables.specs.Filing.{allocation_job};
ghost use Rattle.ns_tables.specs.World.{tenant_of};

use crate::listing::{Listed, rows_listed};
use crate::looking::{self, id_begins};
use keyed::NumberTable;
use ns_change::copied_allocation;
use ns_equality::same_text;
use ns_tables::TenantRows;
use ns_types::allocation::Allocation;
use ns_types::id::IdKind;
use ns_types::refusal::Refusal;
use ns_types::reply::{AllocationShown, Content};
use ns_types::shared::Shared;
use ns_types::step::AskCommand;
use ns_types::text::Text;
use std::alloc::{AllocError, Global};

impl Listed for Allocation {
    type Shown = AllocationShown;

    ghost slots_of = { λ t. t.allocations.slots };

    ghost job_of = { allocation_job };

    ghost as_shown = { allocation_shown };

    ghost is_listed = { lists_allocation };

    fn rows(tenant: &TenantRows) -> &NumberTable<Allocation> {
        tenant.allocations.rows()
    }

    fn numbers_of<'a>(tenant: &'a TenantRows, job: &Text) -> Option<&'a NumberTable<()>> {
        tenant.allocations.numbers_of(job)
    }

    fn job_asked(command: &AskCommand) -> Option<&Text> {
        match command {
            AskCommand::JobAllocations(job) => Some(job),
            _ => None,
        }
    }

    fn show(&self, namespace: &Text, number: u64) -> Result<AllocationShown, AllocError> {
        Ok(AllocationShown {
            namespace: namespace.clone()?,
            number,
            row: copied_allocation(self)?,
        })
    }

    fn is_listed(&self, command: &AskCommand, number: u64) -> bool {
        match command {
            AskCommand::JobAllocations(job) => same_text(job, &self.job),
            AskCommand::ListAllocations(prefix) => id_begins(prefix, IdKind::Allocation, number),
            _ => false,
        }
    }
}

/// The reply to the read of an allocation. `NotFound`: the namespace has no such allocation.
pub(crate) fn read_allocation(
    alloc: Global,
    namespace: &Text,
    tenant: &TenantRows,
    number: u64,
) -> Result<Content, Refusal>
    ensures { SaysIn namespace.now (AskCommand.ReadAllocation number) tenant.now result }
{
    let Some(row) = looking::allocation(tenant, number) else {
        return Err(Refusal::NotFound);
    };
    let shown = row.show(namespace, number)?;
    let shown = Shared::new(alloc, shown)?;
    Ok(Content::Allocation(shown))
}

/// The reply to a list of allocations.
pub(crate) fn list_allocations(
    alloc: Global,
    namespace: &Text,
    tenant: &TenantRows,
    command: &AskCommand,
) -> Result<Content, AllocError>
    ensures { let t = tenant_of tenant.now in IfOk result
        (λ said. said ≡ allocations_where namespace.now t (lists_allocation command.now)) }
{
    let shown = rows_listed::<Allocation>(alloc, namespace, tenant, command)?;
    Ok(Content::Allocations(shown))
}
