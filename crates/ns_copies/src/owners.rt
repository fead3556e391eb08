//! Copies of what owners have.

ghost use Rattle.std.specs.Prelude.{◌≡◌, ◌≤◌, IfOk, length};
ghost use Rattle.keyed.specs.Table.{rows};
ghost use Rattle.ns_types.specs.State.Rows;
ghost use Rattle.ns_tables.specs.World.{pool_of, quota_of, tenant_of};
ghost use Rattle.ns_copies.specs.Whole.{IsWholeTenant};

use crate::choosing::ChosenNames;
use crate::copies::Copies;
use crate::tables::{copied_names, copied_numbers};
use keyed::{NameTable, NumberTable, Series};
use ns_tables::events::Events;
use ns_tables::{AllocationTable, EvaluationTable, PoolRows, QuotaRows, TenantRows};
use ns_types::job::Job;
use ns_types::node::Class;
use ns_types::records::Namespace;
use ns_types::worker::Worker;
use std::alloc::{AllocError, Global};

fn copied_events(alloc: Global, events: &Events) -> Result<Events, AllocError>
    requires { length events.now ≤ 100 }
    ensures { IfOk result (λ copy. copy ≡ events.now) }
{
    let all = events.from_index(alloc, 0)?;
    let mut copy = Events::new(alloc)?;
    copy.append(all);
    Ok(copy)
}

fn copied_evaluations(alloc: Global, table: &EvaluationTable) -> Result<EvaluationTable, AllocError>
    ensures { IfOk result (λ copy. rows copy.slots ≡ rows table.now.slots) }
{
    let all = copied_numbers(alloc, table.rows())?;
    let mut copy = EvaluationTable::new(alloc);
    copy.reserve_all(&all)?;
    copy.apply(all);
    Ok(copy)
}

fn copied_allocations(alloc: Global, table: &AllocationTable) -> Result<AllocationTable, AllocError>
    ensures { IfOk result (λ copy. rows copy.slots ≡ rows table.now.slots) }
{
    let all = copied_numbers(alloc, table.rows())?;
    let mut copy = AllocationTable::new(alloc);
    copy.reserve_all(&all)?;
    copy.apply(all);
    Ok(copy)
}

fn copied_classes(
    alloc: Global,
    classes: &Series<(Class, u64)>,
) -> Result<Series<(Class, u64)>, AllocError>
    ensures { IfOk result (λ copy. copy.items ≡ classes.now.items) }
{
    let mut copy = Series::new(alloc);
    for release in classes.as_slice() {
        let class = release.0.clone()?;
        copy.reserve(1)?;
        copy.push((class, release.1));
    }
    Ok(copy)
}

/// What a namespace has besides its work.
#[derive(Drop)]
struct Records {
    namespace: Namespace,
    jobs: NameTable<Job>,
    events: Events,
}

/// The work of a namespace, by number.
#[derive(Drop)]
struct TenantWork {
    evaluations: EvaluationTable,
    allocations: AllocationTable,
    workers: NumberTable<Worker>,
}

fn copied_records(alloc: Global, tenant: &TenantRows) -> Result<Records, AllocError>
    requires { IsWholeTenant (tenant_of tenant.now) }
    ensures namespace { IfOk result (λ records. records.namespace ≡ tenant.now.namespace) }
    ensures jobs { IfOk result (λ records. rows records.jobs ≡ rows tenant.now.jobs) }
    ensures events { IfOk result (λ records. records.events ≡ tenant.now.events) }
{
    Ok(Records {
        events: copied_events(alloc, &tenant.events)?,
        jobs: copied_names(alloc, &tenant.jobs, ChosenNames::All)?,
        namespace: tenant.namespace.clone()?,
    })
}

fn copied_work(alloc: Global, tenant: &TenantRows) -> Result<TenantWork, AllocError>
    requires { IsWholeTenant (tenant_of tenant.now) }
    ensures evaluations { IfOk result (λ work.
        rows work.evaluations.slots ≡ rows tenant.now.evaluations.slots) }
    ensures allocations { IfOk result (λ work.
        rows work.allocations.slots ≡ rows tenant.now.allocations.slots) }
    ensures workers { IfOk result (λ work. rows work.workers ≡ rows tenant.now.workers) }
{
    Ok(TenantWork {
        workers: copied_numbers(alloc, &tenant.workers)?,
        evaluations: copied_evaluations(alloc, &tenant.evaluations)?,
        allocations: copied_allocations(alloc, &tenant.allocations)?,
    })
}

impl Copies for TenantRows {
    ghost Seen = { Rows.Tenant };

    ghost seen = { tenant_of };

    ghost IsWhole = { λ t. IsWholeTenant (tenant_of t) };

    fn copied(&self, alloc: Global) -> Result<TenantRows, AllocError> {
        let work = copied_work(alloc, self)?;
        match copied_records(alloc, self) {
            Ok(records) => Ok(TenantRows {
                namespace: records.namespace,
                index: self.index,
                evaluation_number: self.evaluation_number,
                allocation_number: self.allocation_number,
                jobs: records.jobs,
                evaluations: work.evaluations,
                allocations: work.allocations,
                workers: work.workers,
                events: records.events,
            }),
            Err(error) => {
                drop(work);
                Err(error)
            }
        }
    }
}

impl Copies for PoolRows {
    ghost Seen = { Rows.PoolRows };

    ghost seen = { pool_of };

    ghost IsWhole = { λ _. Unit {0} };

    fn copied(&self, alloc: Global) -> Result<PoolRows, AllocError> {
        Ok(PoolRows {
            pool: self.pool.clone()?,
            release: self.release,
            classes: copied_classes(alloc, &self.classes)?,
            nodes: copied_names(alloc, &self.nodes, ChosenNames::All)?,
        })
    }
}

impl Copies for QuotaRows {
    ghost Seen = { Rows.QuotaRows };

    ghost seen = { quota_of };

    ghost IsWhole = { λ _. Unit {0} };

    fn copied(&self, _alloc: Global) -> Result<QuotaRows, AllocError> {
        Ok(QuotaRows {
            quota: self.quota.clone()?,
            release: self.release,
        })
    }
}
