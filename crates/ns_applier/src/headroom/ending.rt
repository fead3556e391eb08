//! Judges what the end of an allocation releases, for many allocations over the same tables. It takes no memory.

ghost use Rattle.std.specs.Prelude.{◌≡◌, ◌+◌, [], false, nat_lt};
ghost use Rattle.ns_types.specs.declared.node.Class.{Class};
ghost use Rattle.ns_types.specs.State.Rows.{offered_class};
ghost use Rattle.ns_types.specs.Steps.{greatest};
ghost use Rattle.ns_counters.specs.Bounds.{any_last_index, is_last_index, quota_passes, room_passes};
ghost use Rattle.ns_counters.specs.Given.{given_limits_pass, given_room_passes};
ghost use Rattle.ns_applier.specs.Judging.{allocations_pass, eviction_passes, node_passes};
ghost use Rattle.ns_applier.specs.Passing.{NoRoomPasses, end_passes, left_quota_passes, left_room_passes};
ghost use Rattle.ns_types.specs.Working.Parts.{lives_at};
ghost use Rattle.ns_tables.specs.World.{world_of};

use ns_counters::{
    given_limits_pass, given_room_passes, is_at_bound, is_last_index, wakes_may_pass,
};
use ns_equality::is_free;
use ns_tables::Tables;
use ns_types::allocation::Allocation;
use ns_types::node::Offer;
use ns_types::plan::{Eviction, Placement, Plan};
use ns_types::text::Text;
use std::marker::Model;

/// Whether a counter passes its bound by `more` more.
fn is_past(count: u64, more: u64) -> bool
    ensures { result ≡ nat_lt greatest (count + more) }
{
    more > u64::MAX - count
}

fn is_last_release(tables: &Tables, pool: &Text) -> bool
    ensures { (class : Class) → result ≡ room_passes (world_of tables.now) (pool.now, class) }
{
    match tables.pools.get(pool) {
        Some(rows) => is_at_bound(rows.release),
        None => false,
    }
}

fn is_last_quota_release(tables: &Tables, quota: &Text) -> bool
    ensures { result ≡ quota_passes (world_of tables.now) quota.now }
{
    match tables.quotas.get(quota) {
        Some(rows) => is_at_bound(rows.release),
        None => false,
    }
}

fn allocations_pass(tables: &Tables, namespace: &Text, count: u64) -> bool
    ensures { result ≡ allocations_pass (world_of tables.now) namespace.now count }
{
    match tables.tenants.get(namespace) {
        Some(tenant) => is_past(tenant.allocation_number, count),
        None => false,
    }
}

/// Whether the plan stops or evicts an allocation.
fn ends_any(plan: &Plan) -> bool {
    !plan.stops.as_slice().is_empty() || evicts_any(plan.placing.placements.as_slice())
}

fn evicts_any(placements: &[Placement]) -> bool {
    placements
        .iter()
        .any(|placement| !placement.evictions.as_slice().is_empty())
}

/// Whether an index may pass its bound because the plan ends an allocation and evaluations wake. If the plan ends none, that is
/// not looked at.
fn ends_may_wake(tables: &Tables, plan: &Plan) -> bool
    ensures { result ≡ false → any_last_index (world_of tables.now) ≡ false }
{
    !ends_any(plan) || wakes_may_pass(tables)
}

/// Whether a counter may pass its bound by room on a node.
fn rooms_may_pass(tables: &Tables, wakes: bool) -> bool
    requires { wakes ≡ false → any_last_index (world_of tables.now) ≡ false }
    ensures { result ≡ false → NoRoomPasses (world_of tables.now) }
{
    wakes || tables.pools.may_be_at_bound()
}

/// The tables, prepared for looking at the counters that releases raise. Contracts see the world.
///
/// If no blocked evaluation is of a namespace whose index is at its bound, no evaluation that wakes passes an index.
/// That is looked at once, and only for a plan that ends an allocation. Then the release of a quota costs a look-up, and room
/// on a node costs nothing unless a pool's release number ever was at its bound. Only if an index may pass its bound, a release
/// costs a walk over the blocked evaluations.
#[derive(Drop)]
pub struct Headroom<'a> {
    tables: &'a Tables,
    wakes: bool,
    /// Whether a counter may pass its bound by room on a node.
    rooms: bool,
}

impl<'a> Model for Headroom<'a> {
    ghost use Rattle.std.specs.Prelude.{◌≡◌, false};
    ghost use Rattle.std.specs.Coded.{codes};
    ghost use Rattle.std.specs.FinMap.{code};
    ghost use Rattle.ns_counters.specs.Bounds.{any_last_index};
    ghost use Rattle.ns_applier.specs.Passing.{NoRoomPasses};
    ghost use Rattle.ns_types.specs.State.Rows.{World};
    ghost use Rattle.ns_tables.specs.World.{world_of};

    ghost Value = { World };

    ghost coded = { Prim.hlevel (codes, code) };

    ghost view = { λ h. world_of h.tables.now };

    ghost invariant = { λ h. (h.wakes ≡ false → any_last_index (world_of h.tables.now) ≡ false)
        × (h.rooms ≡ false → NoRoomPasses (world_of h.tables.now)) };
}

impl<'a> Headroom<'a> {
    /// For a plan that is to be applied to the world that the tables hold. Only if the plan ends an allocation, it
    /// looks at all namespaces, or at all blocked evaluations if these are fewer.
    pub fn new(tables: &'a Tables, plan: &Plan) -> Headroom<'a>
        ensures { result ≡ world_of tables.now }
    {
        let wakes = ends_may_wake(tables, plan);
        Headroom {
            tables,
            wakes,
            rooms: rooms_may_pass(tables, wakes),
        }
    }

    /// A text without characters. It takes no memory.
    pub(crate) fn nameless(&self) -> Text
        ensures { result ≡ [] }
    {
        Text::from_string(String::new(self.tables.alloc))
    }

    /// Whether the allocation is live.
    pub(crate) fn lives_at(&self, namespace: &Text, number: u64) -> bool
        ensures { result ≡ lives_at self.now (namespace.now, number) }
    {
        match self.tables.allocation(namespace, number) {
            Some(row) => row.is_live(),
            None => false,
        }
    }

    /// Whether the namespace's index is at its bound.
    pub(crate) fn is_last_index(&self, namespace: &Text) -> bool
        ensures { result ≡ is_last_index self.now namespace.now }
    {
        is_last_index(self.tables, namespace)
    }

    /// Whether the number of the last of `count` more allocations passes its bound.
    pub(crate) fn allocations_pass(&self, namespace: &Text, count: u64) -> bool
        ensures { result ≡ allocations_pass self.now namespace.now count }
    {
        allocations_pass(self.tables, namespace, count)
    }

    /// Whether the node's number of places passes its bound by `count` more.
    pub(crate) fn node_passes(&self, pool: &Text, name: &Text, count: u64) -> bool
        ensures { result ≡ node_passes self.now pool.now name.now count }
    {
        match self.tables.node(pool, name) {
            Some(node) => is_past(node.places, count),
            None => false,
        }
    }

    fn room_passes(&self, pool: &Text, offer: &Offer) -> bool
        ensures { result ≡ given_room_passes self.now (pool.now, offered_class offer.now) }
    {
        if self.wakes {
            given_room_passes(self.tables, pool, offer)
        } else {
            is_last_release(self.tables, pool)
        }
    }

    fn limits_pass(&self, quota: &Text) -> bool
        ensures { result ≡ given_limits_pass self.now quota.now }
    {
        if self.wakes {
            given_limits_pass(self.tables, quota)
        } else {
            is_last_quota_release(self.tables, quota)
        }
    }

    /// Whether a counter passes its bound by the room that the allocation leaves on its node.
    fn left_room_passes(&self, row: &Allocation) -> bool
        ensures { result ≡ left_room_passes self.now self.now row.now }
    {
        if !self.rooms {
            return false;
        }
        match self.tables.node(&row.pool, &row.node) {
            Some(node) => is_free(node) && self.room_passes(&row.pool, &node.offer),
            None => false,
        }
    }

    /// Whether a counter passes its bound by what an allocation of the namespace releases of its quota.
    fn left_quota_passes(&self, namespace: &Text) -> bool
        ensures { result ≡ left_quota_passes self.now namespace.now }
    {
        match self.tables.quota_named(namespace) {
            Some(quota) => self.limits_pass(quota),
            None => false,
        }
    }

    /// Whether a counter passes its bound by what the end of the allocation releases.
    pub fn end_passes(&self, namespace: &Text, number: u64) -> bool
        ensures { result ≡ end_passes self.now self.now (namespace.now, number) }
    {
        match self.tables.allocation(namespace, number) {
            Some(row) => self.left_room_passes(row) || self.left_quota_passes(namespace),
            None => false,
        }
    }
    /// Whether a counter passes its bound by an eviction that counts: by what the end of its allocation releases, or
    /// the index of its namespace.
    pub fn eviction_passes(&self, eviction: &Eviction) -> bool
        ensures { result ≡ eviction_passes self.now eviction.now }
    {
        self.is_last_index(&eviction.namespace)
            || self.end_passes(&eviction.namespace, eviction.number)
    }
}
