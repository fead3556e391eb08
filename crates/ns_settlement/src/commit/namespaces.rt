//! Puts the change of a namespace into the tables: its rows, and its index if events are published.

ghost use Rattle.std.proofs.Common.{subst, sym};
ghost use Rattle.std.specs.Prelude.{◌≡◌, ◌+◌, ◌<◌, ◌^◌, OnOk};
ghost use Rattle.ns_change.specs.Changed.{changed_tenant};
ghost use Rattle.ns_change.specs.Settled.{publish, settled_tenant};
ghost use Rattle.ns_types.specs.State.Rows.{Tenant};
ghost use Rattle.ns_settlement.specs.Committed.{CanPublish, HasRowRoom, HasTenantRoom, IsTenantCleared};
ghost use Rattle.ns_tables.specs.World.{tenant_of};

use crate::commit::clearing::{clear_allocations, clear_evaluations, clear_names, clear_numbers};
use crate::commit::owners::Owner;
use ns_change::{SettledTenant, TenantChange};
use ns_tables::TenantRows;
use ns_types::event::Event;
use ns_types::rows::Rows;
use std::alloc::AllocError;

/// Makes room for each changed row of a namespace.
fn reserve_rows(tenant: &mut TenantRows, change: &TenantChange) -> Result<(), AllocError>
    ensures rows { tenant_of tenant.new ≡ tenant_of tenant.old }
    ensures room { OnOk result (HasRowRoom change.now tenant.new) }
{
    tenant.jobs.reserve_all(&change.jobs)?;
    tenant.evaluations.reserve_all(&change.evaluations)?;
    tenant.allocations.reserve_all(&change.allocations)?;
    tenant.workers.reserve_all(&change.workers)?;
    Ok(())
}

/// Moves the changed rows of a namespace in. It takes no memory.
fn commit_rows(tenant: &mut TenantRows, change: TenantChange)
    requires { HasRowRoom change tenant.old }
    ensures rows { tenant_of tenant.new ≡ changed_tenant (tenant_of tenant.old) change }
    ensures index { tenant.new.index ≡ tenant.old.index }
    ensures events { tenant.new.events ≡ tenant.old.events }
{
    let TenantChange {
        evaluation_number,
        allocation_number,
        jobs,
        evaluations,
        allocations,
        workers,
    } = change;
    tenant.evaluation_number = evaluation_number;
    tenant.allocation_number = allocation_number;
    tenant.jobs.apply(jobs);
    tenant.evaluations.apply(evaluations);
    tenant.allocations.apply(allocations);
    tenant.workers.apply(workers);
}

/// Raises the namespace's index by one, and adds those events. It takes no memory.
fn publish(tenant: &mut TenantRows, events: Rows<Event>)
    requires index { tenant.old.index + 1 < 2 ^ 64 }
    ensures { tenant_of tenant.new ≡ publish (tenant_of tenant.old) events }
{
    tenant.index += 1;
    tenant.events.append(events);
}

impl Owner<SettledTenant> for TenantRows {
    ghost Seen = { Tenant };

    ghost seen = { tenant_of };

    ghost changed = { settled_tenant };

    ghost CanChange = { CanPublish };

    ghost HasRoom = { HasTenantRoom };

    ghost IsCleared = { IsTenantCleared };

    fn reserve(&mut self, settled: &SettledTenant) -> Result<(), AllocError> {
        reserve_rows(self, &settled.rows)
    }

    fn clear(&mut self, settled: &SettledTenant) {
        clear_names(&mut self.jobs, &settled.rows.jobs);
        clear_evaluations(&mut self.evaluations, &settled.rows.evaluations);
        clear_allocations(&mut self.allocations, &settled.rows.allocations);
        clear_numbers(&mut self.workers, &settled.rows.workers);
    }

    fn commit(&mut self, settled: SettledTenant) {
        let SettledTenant { rows, events } = settled;
        commit_rows(self, rows);
        if let Some(events) = events {
            publish(self, events);
        }
    }

    ghost carries = { λ x a b is can some.
        subst (λ t. t.index + 1 < 2 ^ 64) (sym is) (can some) };
}
