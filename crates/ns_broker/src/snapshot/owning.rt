//! The job's own allocations, as a snapshot has them.

ghost use Rattle.std.specs.Prelude.{◌≡◌, ◌++◌, IfOk, OnOk, flat_map, option_copied};
ghost use Rattle.ns_types.specs.State.Rows.{is_done};
ghost use Rattle.ns_types.specs.Working.Snapshot.{is_done_for, own_allocations};
ghost use Rattle.ns_broker.specs.Seen.{is_own, own_at};
ghost use Rattle.ns_tables.specs.Filing.{slots_at};
ghost use Rattle.ns_tables.specs.World.{tenant_of};

use keyed::{NumberSlot, NumberTable};
use ns_change::copied_allocation;
use ns_equality::{same_number, same_text};
use ns_tables::TenantRows;
use ns_types::allocation::{Allocation, ClientStatus, DesiredStatus};
use ns_types::job::{Job, JobKind};
use ns_types::rows::Rows;
use ns_types::snapshot::OwnAllocation;
use ns_types::text::Text;
use std::alloc::{AllocError, Global};

fn is_done(row: &Allocation) -> bool
    ensures { result ≡ is_done row.now }
{
    matches!(row.desired, DesiredStatus::Run) && matches!(row.client, ClientStatus::Complete)
}

/// Whether the allocation completed, and was made for the batch job as it is now.
fn is_done_for(job: Option<&Job>, row: &Allocation) -> bool
    ensures { result ≡ is_done_for (option_copied job.entry) row.now }
{
    let Some(job) = job else {
        return false;
    };
    matches!(job.document.get().kind, JobKind::Batch)
        && same_number(row.job_modify_index, job.modify_index)
        && is_done(row)
}

fn is_own(id: &Text, job: Option<&Job>, row: &Allocation) -> bool
    ensures { result ≡ is_own id.now (option_copied job.entry) row.now }
{
    same_text(id, &row.job) && (row.is_live() || is_done_for(job, row))
}

fn add_own(
    own: &mut Rows<OwnAllocation>,
    id: &Text,
    job: Option<&Job>,
    number: u64,
    row: Option<&Allocation>,
) -> Result<(), AllocError>
    ensures { OnOk result (own.new
        ≡ own.old ++ own_at id.now (option_copied job.entry) (number, option_copied row.entry)) }
{
    if let Some(row) = row {
        if is_own(id, job, row) {
            own.push(OwnAllocation {
                number,
                row: copied_allocation(row)?,
            })?;
        }
    }
    Ok(())
}

/// The job's own allocations at these numbers.
fn own_at_numbers(
    alloc: Global,
    id: &Text,
    job: Option<&Job>,
    allocations: &NumberTable<Allocation>,
    slots: &[NumberSlot<()>],
) -> Result<Rows<OwnAllocation>, AllocError>
    ensures { IfOk result (λ own. own ≡ flat_map (own_at id.now (option_copied job.entry))
        (slots_at allocations.now slots.now)) }
{
    let mut own = Rows::new(alloc);
    for slot in slots {
        add_own(&mut own, id, job, slot.0, allocations.get(slot.0))?;
    }
    Ok(own)
}

/// The job's allocations that are live or done, by number. It looks up only the job's own numbers.
pub(crate) fn own_allocations(
    alloc: Global,
    tenant: &TenantRows,
    id: &Text,
    job: Option<&Job>,
) -> Result<Rows<OwnAllocation>, AllocError>
    ensures { IfOk result (λ own. own
        ≡ own_allocations (tenant_of tenant.now) id.now (option_copied job.entry)) }
{
    match tenant.allocations.numbers_of(id) {
        Some(numbers) => {
            let allocations = tenant.allocations.rows();
            own_at_numbers(alloc, id, job, allocations, numbers.as_slice())
        }
        None => Ok(Rows::new(alloc)),
    }
}
