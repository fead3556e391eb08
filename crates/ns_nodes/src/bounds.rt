//! Whether a counter passes its bound once a step on one node has settled. It takes no memory, so it can be decided before
//! anything that takes memory.

ghost use Rattle.std.specs.Prelude.{◌≡◌, ◌&&◌, ◌||◌, not, option_copied};
ghost use Rattle.std.specs.List.{list_any};
ghost use Rattle.ns_types.specs.State.Rows.{class_of, is_free, is_ready, offered_class};
ghost use Rattle.ns_live_index.specs.Index.{IsRight};
ghost use Rattle.ns_nodes.specs.Losing.{is_live_at, loss_passes, loss_passes_at, numbers_pass_at};
ghost use Rattle.ns_nodes.specs.Losing.{tenant_passes_at};
ghost use Rattle.ns_nodes.specs.Registering.{gives_room};
ghost use Rattle.ns_counters.specs.Bounds.{is_at_bound};
ghost use Rattle.ns_counters.specs.Given.{given_room_passes, left_quota_passes};
ghost use Rattle.ns_tables.specs.World.{tenant_of, world_of};

use crate::losing::numbers_pass_at;
use crate::removed::is_ready;
use keyed::{NameSlot, NumberSlot, NumberTable};
use ns_change::is_live_on;
use ns_counters::{given_room_passes, is_at_bound, left_quota_passes};
use ns_equality::{is_free, same_offer};
use ns_live_index::Live;
use ns_tables::{Tables, TenantRows};
use ns_types::node::{Node, NodeStatus, Offer};
use ns_types::text::Text;

// ---- room that is given

/// Whether the node gives room by this registration: a new node does, and so does a free node with another offer.
fn gives_room(offer: &Offer, old: Option<&Node>) -> bool
    ensures { result ≡ gives_room offer.now (option_copied old.entry) }
{
    match old {
        Some(old) => is_free(old) && !same_offer(&old.offer, offer),
        None => true,
    }
}

/// Whether a counter passes its bound once the node has registered with this offer.
pub(crate) fn registering_passes(
    tables: &Tables,
    pool: &Text,
    offer: &Offer,
    old: Option<&Node>,
) -> bool
    ensures { result ≡ (gives_room offer.now (option_copied old.entry)
        && given_room_passes (world_of tables.now) (pool.now, offered_class offer.now)) }
{
    gives_room(offer, old) && given_room_passes(tables, pool, offer)
}

/// Whether a counter passes its bound once the node has this status and eligibility, with the same offer.
pub(crate) fn freed_passes(
    tables: &Tables,
    pool: &Text,
    node: &Node,
    status: NodeStatus,
    eligible: bool,
) -> bool
    ensures { result ≡ ((is_ready status && eligible && not (is_free node.now))
        && given_room_passes (world_of tables.now) (pool.now, class_of node.now)) }
{
    is_ready(status) && eligible && !is_free(node) && given_room_passes(tables, pool, &node.offer)
}

// ---- allocations that are lost

fn is_live_at(pool: &Text, node: &Text, tenant: &TenantRows, slot: &NumberSlot<()>) -> bool
    ensures { result ≡ is_live_at pool.now node.now (tenant_of tenant.now) slot.now }
{
    match tenant.allocations.get(slot.0) {
        Some(row) => is_live_on(pool, node, row),
        None => false,
    }
}

/// Whether one of these numbers of the namespace is that of an allocation that is live on the node.
fn any_is_live(pool: &Text, node: &Text, tenant: &TenantRows, slots: &[NumberSlot<()>]) -> bool
    ensures { result ≡ list_any (is_live_at pool.now node.now (tenant_of tenant.now)) slots.now }
{
    slots
        .iter()
        .any(|slot| is_live_at(pool, node, tenant, slot))
}

fn own_passes(
    tables: &Tables,
    pool: &Text,
    node: &Text,
    tenant: &TenantRows,
    slots: &[NumberSlot<()>],
) -> bool
    ensures { let t = tenant_of tenant.now in
        result ≡ (is_at_bound t.index || numbers_pass_at pool.now node.now t slots.now
        || left_quota_passes (world_of tables.now) t) }
{
    is_at_bound(tenant.index)
        || numbers_pass_at(pool, node, tenant, slots)
        || left_quota_passes(tables, tenant)
}

fn tenant_passes(
    tables: &Tables,
    pool: &Text,
    node: &Text,
    tenant: &TenantRows,
    slots: &[NumberSlot<()>],
) -> bool
    ensures { result ≡ tenant_passes_at (world_of tables.now) pool.now node.now
        (tenant_of tenant.now) slots.now }
{
    any_is_live(pool, node, tenant, slots) && own_passes(tables, pool, node, tenant, slots)
}

fn loss_passes_at(
    tables: &Tables,
    pool: &Text,
    node: &Text,
    slot: &NameSlot<NumberTable<()>>,
) -> bool
    ensures { result ≡ loss_passes_at (world_of tables.now) pool.now node.now slot.now }
{
    let Some(numbers) = &slot.1 else {
        return false;
    };
    match tables.tenants.get(&slot.0) {
        Some(tenant) => tenant_passes(tables, pool, node, tenant, numbers.as_slice()),
        None => false,
    }
}

fn any_loss_passes(
    tables: &Tables,
    pool: &Text,
    node: &Text,
    slots: &[NameSlot<NumberTable<()>>],
) -> bool
    ensures { result
        ≡ list_any (loss_passes_at (world_of tables.now) pool.now node.now) slots.now }
{
    slots
        .iter()
        .any(|slot| loss_passes_at(tables, pool, node, slot))
}

/// Whether a counter passes its bound once the node has gone down: the index of a namespace that loses an allocation, the
/// number of an evaluation in it, or a counter that the release of its quota raises. Its work grows with the number of live
/// allocations on the node, and with that of the blocked evaluations.
pub(crate) fn loss_passes(tables: &Tables, live: &Live, pool: &Text, node: &Text) -> bool
    requires right { IsRight (world_of tables.now) live.now }
    ensures { result ≡ loss_passes (world_of tables.now) pool.now node.now }
{
    match live.keys_on(pool, node) {
        Some(keys) => any_loss_passes(tables, pool, node, keys.as_slice()),
        None => false,
    }
}
