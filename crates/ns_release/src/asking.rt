//! Questions about what a step releases. They take no memory.

ghost use Rattle.std.specs.Prelude.{◌≡◌, Bool, true};
ghost use Rattle.std.specs.List.{list_any};
ghost use Rattle.ns_types.specs.declared.node.Class.{Class};
ghost use Rattle.ns_types.specs.State.Names.{Name};
ghost use Rattle.ns_types.specs.State.Rows.{offered_class};
ghost use Rattle.ns_change.specs.Changed.{view};
ghost use Rattle.ns_release.specs.Released.{quota_left, quota_relimited, quotas_ended, quotas_ended_in, released_quotas};
ghost use Rattle.ns_release.specs.Released.{released_rooms, room_at, rooms_at, rooms_ended, rooms_ended_in, rooms_of_pool};
ghost use Rattle.ns_tables.specs.World.{pool_of, tenant_of, world_of};

use crate::releasing::{changed_allocations, ended, gives_itself, relimits};
use keyed::{NameSlot, NumberSlot};
use ns_change::{Change, PoolChange, TenantChange, node};
use ns_equality::is_free;
use ns_tables::{PoolRows, Tables, TenantRows};
use ns_types::allocation::Allocation;
use ns_types::node::{Node, Offer};
use ns_types::records::Quota;
use ns_types::text::Text;

/// A yes-or-no question about each thing that a step releases.
pub trait Question {
    /// The answer for room that a class of a pool gives.
    ghost of_room: { Self → Name × Class → Bool };
    /// The answer for a quota.
    ghost of_quota: { Self → Name → Bool };

    /// The answer for room on a node with this offer in the pool.
    fn is_room(&self, pool: &Text, offer: &Offer) -> bool
        ensures { result ≡ of_room self.now (pool.now, offered_class offer.now) };

    /// The answer for a quota.
    fn is_quota(&self, quota: &Text) -> bool
        ensures { result ≡ of_quota self.now quota.now };
}

/// The question that is always answered yes: whether the step releases anything.
#[derive(Drop)]
pub struct Anything;

impl Question for Anything {
    ghost of_room = { λ _ _. true };

    ghost of_quota = { λ _ _. true };

    fn is_room(&self, _pool: &Text, _offer: &Offer) -> bool {
        true
    }

    fn is_quota(&self, _quota: &Text) -> bool {
        true
    }
}

// ---- room

/// Whether a changed node gives room for which the answer is yes.
fn gives<Q: Question>(question: &Q, pool: &Text, rows: &PoolRows, slot: &NameSlot<Node>) -> bool
    ensures { result
        ≡ list_any (Q.of_room question.now) (rooms_at pool.now (pool_of rows.now) slot.now) }
{
    match &slot.1 {
        Some(node) => gives_itself(rows, &slot.0, node) && question.is_room(pool, &node.offer),
        None => false,
    }
}

fn any_gives<Q: Question>(
    question: &Q,
    pool: &Text,
    rows: &PoolRows,
    slots: &[NameSlot<Node>],
) -> bool
    ensures { result ≡ list_any (λ slot. list_any (Q.of_room question.now)
        (rooms_at pool.now (pool_of rows.now) slot)) slots.now }
{
    slots.iter().any(|slot| gives(question, pool, rows, slot))
}

/// Whether a changed node of the pool gives room for which the answer is yes.
fn pool_gives<Q: Question>(question: &Q, tables: &Tables, slot: &NameSlot<PoolChange>) -> bool
    ensures { result
        ≡ list_any (Q.of_room question.now) (rooms_of_pool (world_of tables.now) slot.now) }
{
    let Some(change) = &slot.1 else {
        return false;
    };
    match tables.pools.get(&slot.0) {
        Some(rows) => any_gives(question, &slot.0, rows, change.nodes.as_slice()),
        None => false,
    }
}

/// Whether the node of an allocation that ended gives room for which the answer is yes.
fn is_left<Q: Question>(
    question: &Q,
    tables: &Tables,
    change: &Change,
    allocation: &Allocation,
) -> bool
    ensures { result ≡ list_any (Q.of_room question.now)
        (room_at (view tables.now change.now) allocation.now) }
{
    match node(tables, change, &allocation.pool, &allocation.node) {
        Some(node) => is_free(node) && question.is_room(&allocation.pool, &node.offer),
        None => false,
    }
}

fn leaves<Q: Question>(
    question: &Q,
    tables: &Tables,
    change: &Change,
    tenant: &TenantRows,
    slot: &NumberSlot<Allocation>,
) -> bool
    ensures { result ≡ list_any (Q.of_room question.now)
        (rooms_ended (view tables.now change.now) (tenant_of tenant.now) slot.now) }
{
    match ended(tenant, slot) {
        Some(allocation) => is_left(question, tables, change, allocation),
        None => false,
    }
}

fn any_leaves<Q: Question>(
    question: &Q,
    tables: &Tables,
    change: &Change,
    tenant: &TenantRows,
    slots: &[NumberSlot<Allocation>],
) -> bool
    ensures { result ≡ list_any (λ slot. list_any (Q.of_room question.now)
        (rooms_ended (view tables.now change.now) (tenant_of tenant.now) slot)) slots.now }
{
    slots
        .iter()
        .any(|slot| leaves(question, tables, change, tenant, slot))
}

/// Whether an allocation of the namespace ended and leaves room for which the answer is yes.
fn tenant_leaves<Q: Question>(
    question: &Q,
    tables: &Tables,
    change: &Change,
    slot: &NameSlot<TenantChange>,
) -> bool
    ensures { result ≡ list_any (Q.of_room question.now)
        (rooms_ended_in (world_of tables.now) (view tables.now change.now) slot.now) }
{
    match changed_allocations(tables, slot) {
        Some((tenant, slots)) => any_leaves(question, tables, change, tenant, slots),
        None => false,
    }
}

fn any_pool_gives<Q: Question>(
    question: &Q,
    tables: &Tables,
    slots: &[NameSlot<PoolChange>],
) -> bool
    ensures { result ≡ list_any (λ slot. list_any (Q.of_room question.now)
        (rooms_of_pool (world_of tables.now) slot)) slots.now }
{
    slots.iter().any(|slot| pool_gives(question, tables, slot))
}

fn any_tenant_leaves<Q: Question>(
    question: &Q,
    tables: &Tables,
    change: &Change,
    slots: &[NameSlot<TenantChange>],
) -> bool
    ensures { result ≡ list_any (λ slot. list_any (Q.of_room question.now)
        (rooms_ended_in (world_of tables.now) (view tables.now change.now) slot)) slots.now }
{
    slots
        .iter()
        .any(|slot| tenant_leaves(question, tables, change, slot))
}

/// Whether the step releases room for which the answer is yes.
pub fn releases_room<Q: Question>(question: &Q, tables: &Tables, change: &Change) -> bool
    ensures { result ≡ list_any (Q.of_room question.now)
        (released_rooms (world_of tables.now) change.now) }
{
    any_pool_gives(question, tables, change.pools.as_slice())
        || any_tenant_leaves(question, tables, change, change.tenants.as_slice())
}

// ---- quotas

fn is_own<Q: Question>(question: &Q, tenant: &TenantRows) -> bool
    ensures { result ≡ list_any (Q.of_quota question.now) (quota_left tenant.now.namespace) }
{
    match &tenant.namespace.quota {
        Some(quota) => question.is_quota(quota),
        None => false,
    }
}

/// Whether the allocation ended, and the answer is yes for the quota of its namespace.
fn frees<Q: Question>(question: &Q, tenant: &TenantRows, slot: &NumberSlot<Allocation>) -> bool
    ensures { result
        ≡ list_any (Q.of_quota question.now) (quotas_ended (tenant_of tenant.now) slot.now) }
{
    ended(tenant, slot).is_some() && is_own(question, tenant)
}

fn any_frees<Q: Question>(
    question: &Q,
    tenant: &TenantRows,
    slots: &[NumberSlot<Allocation>],
) -> bool
    ensures { result ≡ list_any (λ slot. list_any (Q.of_quota question.now)
        (quotas_ended (tenant_of tenant.now) slot)) slots.now }
{
    is_own(question, tenant) && slots.iter().any(|slot| frees(question, tenant, slot))
}

fn tenant_frees<Q: Question>(question: &Q, tables: &Tables, slot: &NameSlot<TenantChange>) -> bool
    ensures { result
        ≡ list_any (Q.of_quota question.now) (quotas_ended_in (world_of tables.now) slot.now) }
{
    match changed_allocations(tables, slot) {
        Some((tenant, slots)) => any_frees(question, tenant, slots),
        None => false,
    }
}

fn any_tenant_frees<Q: Question>(
    question: &Q,
    tables: &Tables,
    slots: &[NameSlot<TenantChange>],
) -> bool
    ensures { result ≡ list_any (λ slot. list_any (Q.of_quota question.now)
        (quotas_ended_in (world_of tables.now) slot)) slots.now }
{
    slots
        .iter()
        .any(|slot| tenant_frees(question, tables, slot))
}

/// Whether the record changes the limits of its quota, and the answer is yes for that quota.
fn is_relimited<Q: Question>(question: &Q, tables: &Tables, slot: &NameSlot<Quota>) -> bool
    ensures { result
        ≡ list_any (Q.of_quota question.now) (quota_relimited (world_of tables.now) slot.now) }
{
    relimits(tables, slot) && question.is_quota(&slot.0)
}

fn any_relimited<Q: Question>(question: &Q, tables: &Tables, slots: &[NameSlot<Quota>]) -> bool
    ensures { result ≡ list_any (λ slot. list_any (Q.of_quota question.now)
        (quota_relimited (world_of tables.now) slot)) slots.now }
{
    slots
        .iter()
        .any(|slot| is_relimited(question, tables, slot))
}

/// Whether the step releases a quota for which the answer is yes.
pub fn releases_quota<Q: Question>(question: &Q, tables: &Tables, change: &Change) -> bool
    ensures { result ≡ list_any (Q.of_quota question.now)
        (released_quotas (world_of tables.now) change.now) }
{
    any_relimited(question, tables, change.quotas.as_slice())
        || any_tenant_frees(question, tables, change.tenants.as_slice())
}
