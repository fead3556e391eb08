//! Whether something of a namespace names a pool that is not in a list.

ghost use Rattle.std.specs.Prelude.{◌≡◌};
ghost use Rattle.std.specs.List.{list_any};
ghost use Rattle.keyed.specs.Table.{at_slot};
ghost use Rattle.ns_types.specs.State.Rows.{is_held, is_open};
ghost use Rattle.ns_tables.specs.World.{tenant_of};
ghost use Rattle.ns_admin.specs.Straying.{allocation_strays, evaluation_strays, worker_strays};
ghost use Rattle.ns_admin.specs.Straying.{has_allocation_astray, has_evaluation_astray, has_worker_astray};

use keyed::NumberSlot;
use ns_equality::has_name;
use ns_tables::TenantRows;
use ns_types::allocation::{Allocation, ClientStatus};
use ns_types::evaluation::{Evaluation, Status};
use ns_types::text::Text;
use ns_types::worker::Worker;

// ---- rows

fn is_open(status: Status) -> bool
    ensures { result ≡ is_open status }
{
    matches!(status, Status::Pending | Status::Blocked)
}

fn is_held(client: ClientStatus) -> bool
    ensures { result ≡ is_held client }
{
    matches!(client, ClientStatus::Pending | ClientStatus::Running)
}

fn evaluation_strays(slot: &NumberSlot<Evaluation>, pools: &[Text]) -> bool
    ensures { result ≡ at_slot (evaluation_strays pools.now) slot.now }
{
    match &slot.1 {
        Some(evaluation) => is_open(evaluation.status) && !has_name(pools, &evaluation.pool),
        None => false,
    }
}

fn worker_strays(slot: &NumberSlot<Worker>, pools: &[Text]) -> bool
    ensures { result ≡ at_slot (worker_strays pools.now) slot.now }
{
    let Some(worker) = &slot.1 else {
        return false;
    };
    match worker.kept() {
        Some(kept) => !has_name(pools, &kept.get().pool),
        None => false,
    }
}

fn allocation_strays(slot: &NumberSlot<Allocation>, pools: &[Text]) -> bool
    ensures { result ≡ at_slot (allocation_strays pools.now) slot.now }
{
    match &slot.1 {
        Some(allocation) => is_held(allocation.client) && !has_name(pools, &allocation.pool),
        None => false,
    }
}

// ---- some row

fn any_evaluation_strays(slots: &[NumberSlot<Evaluation>], pools: &[Text]) -> bool
    ensures { result ≡ list_any (at_slot (evaluation_strays pools.now)) slots.now }
{
    slots.iter().any(|slot| evaluation_strays(slot, pools))
}

fn any_worker_strays(slots: &[NumberSlot<Worker>], pools: &[Text]) -> bool
    ensures { result ≡ list_any (at_slot (worker_strays pools.now)) slots.now }
{
    slots.iter().any(|slot| worker_strays(slot, pools))
}

fn any_allocation_strays(slots: &[NumberSlot<Allocation>], pools: &[Text]) -> bool
    ensures { result ≡ list_any (at_slot (allocation_strays pools.now)) slots.now }
{
    slots.iter().any(|slot| allocation_strays(slot, pools))
}

// ---- in a namespace

/// Whether an open evaluation names a pool that is not in the list.
pub fn has_evaluation_astray(tenant: &TenantRows, pools: &[Text]) -> bool
    ensures { result ≡ has_evaluation_astray pools.now (tenant_of tenant.now) }
{
    any_evaluation_strays(tenant.evaluations.rows().as_slice(), pools)
}

/// Whether a kept snapshot names a pool that is not in the list.
pub fn has_worker_astray(tenant: &TenantRows, pools: &[Text]) -> bool
    ensures { result ≡ has_worker_astray pools.now (tenant_of tenant.now) }
{
    any_worker_strays(tenant.workers.as_slice(), pools)
}

/// Whether an allocation that the client has not ended names a pool that is not in the list.
pub fn has_allocation_astray(tenant: &TenantRows, pools: &[Text]) -> bool
    ensures { result ≡ has_allocation_astray pools.now (tenant_of tenant.now) }
{
    any_allocation_strays(tenant.allocations.as_slice(), pools)
}
