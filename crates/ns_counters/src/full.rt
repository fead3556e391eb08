//! Whether a step passes the bound of a counter. It takes no memory, so it can be decided before anything that takes memory.

ghost use Rattle.std.specs.Prelude.{◌≡◌, ◌&&◌, ◌||◌, false, nat_lt};
ghost use Rattle.std.specs.List.{list_any};
ghost use Rattle.keyed.specs.Table.{at_slot};
ghost use Rattle.ns_types.specs.State.Names.{same_key};
ghost use Rattle.ns_types.specs.State.Rows.{evaluation_at};
ghost use Rattle.ns_types.specs.Settling.Settle.{settle};
ghost use Rattle.ns_types.specs.Steps.{greatest, is_past_bound};
ghost use Rattle.ns_change.specs.Changed.{view};
ghost use Rattle.ns_release.specs.Released.{does_wake, released_rooms};
ghost use Rattle.ns_counters.specs.Bounds.{is_number_past, is_place_past, is_waking};
ghost use Rattle.ns_counters.specs.Bounds.{passes_in, places_pass, pools_pass, quota_passes, quotas_pass, room_passes};
ghost use Rattle.ns_counters.specs.Bounds.{shows_asleep, shows_awake, tenant_passes, tenants_pass, touches_asleep};
ghost use Rattle.ns_counters.specs.Bounds.{waking_passes, waking_passes_in};
ghost use Rattle.ns_tables.specs.World.{tenant_of, world_of};

use crate::at_bound::wakes_may_pass;
use crate::awake::changes_awake;
use keyed::{NameSlot, NumberSlot};
use ns_change::{Change, PoolChange, TenantChange, evaluation};
use ns_equality::{same_number, same_text};
use ns_release::{
    Question, any_job, any_row, changes_row, does_wake, releases, releases_quota, releases_room,
};
use ns_tables::{Tables, TenantRows, is_at_bound};
use ns_types::evaluation::Evaluation;
use ns_types::key::EvalKey;
use ns_types::node::{Node, Offer};
use ns_types::text::Text;

/// Whether a number has passed the bound. It can not: the bound is the greatest number of its type.
fn is_past(number: u64) -> bool
    ensures { result ≡ nat_lt greatest number }
{
    number > u64::MAX
}

/// The question which release numbers of pools and quotas are at their bound.
#[derive(Drop)]
pub(crate) struct Counters<'a> {
    pub(crate) tables: &'a Tables,
}

/// Whether the release number of the pool or of the quota is at its bound.
impl Question for Counters<'_> {
    ghost of_room = { λ c room. room_passes (world_of c.tables.now) room };

    ghost of_quota = { λ c quota. quota_passes (world_of c.tables.now) quota };

    fn is_room(&self, pool: &Text, _offer: &Offer) -> bool {
        match self.tables.pools.get(pool) {
            Some(rows) => is_at_bound(rows.release),
            None => false,
        }
    }

    fn is_quota(&self, quota: &Text) -> bool {
        match self.tables.quotas.get(quota) {
            Some(rows) => is_at_bound(rows.release),
            None => false,
        }
    }
}

// ---- evaluations that wake

/// Whether the entry's evaluation, once it has woken, is shown differently than before.
fn shows_awake(tables: &Tables, change: &Change, tenant: &TenantRows, key: &EvalKey) -> bool
    ensures { result ≡ shows_awake (tenant_of tenant.now) key.now.1
        (evaluation_at (view tables.now change.now) key.now) }
{
    match evaluation(tables, change, key.namespace(), key.number()) {
        Some(row) => changes_awake(tenant, key.number(), row),
        None => false,
    }
}

fn wakes_shown(tables: &Tables, change: &Change, tenant: &TenantRows, key: &EvalKey) -> bool
    ensures { result ≡ (does_wake (world_of tables.now) change.now key.now
        && shows_awake (tenant_of tenant.now) key.now.1
        (evaluation_at (view tables.now change.now) key.now)) }
{
    does_wake(tables, change, key) && shows_awake(tables, change, tenant, key)
}

fn waking_passes_in(tables: &Tables, change: &Change, tenant: &TenantRows, key: &EvalKey) -> bool
    ensures { result
        ≡ waking_passes_in (world_of tables.now) change.now key.now (tenant_of tenant.now) }
{
    is_at_bound(tenant.index) && wakes_shown(tables, change, tenant, key)
}

/// Whether the step wakes the entry, and by that the index of its namespace passes its bound.
fn waking_passes(tables: &Tables, change: &Change, key: &EvalKey) -> bool
    ensures { result ≡ waking_passes (world_of tables.now) change.now key.now }
{
    match tables.tenants.get(key.namespace()) {
        Some(tenant) => waking_passes_in(tables, change, tenant, key),
        None => false,
    }
}

fn slot_passes(tables: &Tables, change: &Change, slot: &NumberSlot<EvalKey>) -> bool
    ensures { result ≡ at_slot (λ e. waking_passes (world_of tables.now) change.now e.1) slot.now }
{
    match &slot.1 {
        Some(key) => waking_passes(tables, change, key),
        None => false,
    }
}

fn any_waking_passes(tables: &Tables, change: &Change, slots: &[NumberSlot<EvalKey>]) -> bool
    ensures { result
        ≡ list_any (at_slot (λ e. waking_passes (world_of tables.now) change.now e.1)) slots.now }
{
    slots.iter().any(|slot| slot_passes(tables, change, slot))
}

/// Whether an index passes its bound because the step releases something and evaluations wake.
fn released_wakings_pass(tables: &Tables, change: &Change) -> bool
    ensures { result ≡ list_any (waking_passes (world_of tables.now) change.now)
        (world_of tables.now).blocked }
{
    releases(tables, change) && any_waking_passes(tables, change, tables.blocked.slots())
}

/// Whether an index passes its bound because evaluations wake. Unless an index ever was at its bound, it goes through nothing.
fn wakings_pass(tables: &Tables, change: &Change) -> bool
    ensures { result ≡ list_any (waking_passes (world_of tables.now) change.now)
        (world_of tables.now).blocked }
{
    wakes_may_pass(tables) && released_wakings_pass(tables, change)
}

// ---- changed rows of namespaces

fn is_waking_key(
    tables: &Tables,
    change: &Change,
    namespace: &Text,
    number: u64,
    key: &EvalKey,
) -> bool
    ensures { result ≡ (same_key (namespace.now, number) key.now
        && does_wake (world_of tables.now) change.now key.now) }
{
    same_text(namespace, key.namespace())
        && same_number(number, key.number())
        && does_wake(tables, change, key)
}

fn is_waking_slot(
    tables: &Tables,
    change: &Change,
    namespace: &Text,
    number: u64,
    slot: &NumberSlot<EvalKey>,
) -> bool
    ensures { result ≡ at_slot (λ e. same_key (namespace.now, number) e.1
        && does_wake (world_of tables.now) change.now e.1) slot.now }
{
    match &slot.1 {
        Some(key) => is_waking_key(tables, change, namespace, number, key),
        None => false,
    }
}

fn any_waking_slot(
    tables: &Tables,
    change: &Change,
    namespace: &Text,
    number: u64,
    slots: &[NumberSlot<EvalKey>],
) -> bool
    ensures { result ≡ list_any (at_slot (λ e. same_key (namespace.now, number) e.1
        && does_wake (world_of tables.now) change.now e.1)) slots.now }
{
    slots.iter().any(|slot| is_waking_slot(tables, change, namespace, number, slot))
}

/// Whether the step wakes the evaluation. If it is not blocked, the list is not searched.
fn is_waking(tables: &Tables, change: &Change, namespace: &Text, number: u64) -> bool
    ensures { result ≡ is_waking (world_of tables.now) change.now (namespace.now, number) }
{
    tables.blocked.has(namespace, number)
        && any_waking_slot(tables, change, namespace, number, tables.blocked.slots())
}

/// Whether the step does not wake a changed evaluation, and replies show it differently than before.
fn shows_asleep(
    tables: &Tables,
    change: &Change,
    namespace: &Text,
    tenant: &TenantRows,
    slot: &NumberSlot<Evaluation>,
) -> bool
    ensures { result ≡ shows_asleep (world_of tables.now) change.now namespace.now
        (tenant_of tenant.now) slot.now }
{
    match &slot.1 {
        Some(row) => !is_waking(tables, change, namespace, slot.0)
            && changes_row(tenant.evaluations.rows(), slot.0, row),
        None => false,
    }
}

fn any_shows_asleep(
    tables: &Tables,
    change: &Change,
    namespace: &Text,
    tenant: &TenantRows,
    slots: &[NumberSlot<Evaluation>],
) -> bool
    ensures { result ≡ list_any (shows_asleep (world_of tables.now) change.now namespace.now
        (tenant_of tenant.now)) slots.now }
{
    slots.iter().any(|slot| shows_asleep(tables, change, namespace, tenant, slot))
}

/// Whether replies show a row of the namespace differently than before, not counting evaluations that the step wakes.
fn touches_asleep(
    tables: &Tables,
    change: &Change,
    namespace: &Text,
    tenant: &TenantRows,
    changed: &TenantChange,
) -> bool
    ensures { result ≡ touches_asleep (world_of tables.now) change.now namespace.now
        (tenant_of tenant.now) changed.now }
{
    any_job(tenant, changed.jobs.as_slice())
        || any_shows_asleep(
            tables,
            change,
            namespace,
            tenant,
            changed.evaluations.as_slice(),
        )
        || any_row(tenant.allocations.rows(), changed.allocations.as_slice())
}

fn is_number_past(changed: &TenantChange) -> bool
    ensures { result ≡ is_number_past changed.now }
{
    is_past(changed.evaluation_number) || is_past(changed.allocation_number)
}

fn passes_in(
    tables: &Tables,
    change: &Change,
    namespace: &Text,
    tenant: &TenantRows,
    changed: &TenantChange,
) -> bool
    ensures { result ≡ passes_in (world_of tables.now) change.now namespace.now changed.now
        (tenant_of tenant.now) }
{
    is_number_past(changed)
        || is_at_bound(tenant.index) && touches_asleep(tables, change, namespace, tenant, changed)
}

/// Whether an index or a number of the namespace passes its bound. Unless an index ever was at its bound, nothing is looked up.
fn tenant_passes(tables: &Tables, change: &Change, slot: &NameSlot<TenantChange>) -> bool
    ensures { result ≡ tenant_passes (world_of tables.now) change.now slot.now }
{
    let Some(changed) = &slot.1 else {
        return false;
    };
    if !is_number_past(changed) && !tables.tenants.may_be_at_bound() {
        return false;
    }
    match tables.tenants.get(&slot.0) {
        Some(tenant) => passes_in(tables, change, &slot.0, tenant, changed),
        None => false,
    }
}

fn any_tenant_passes(tables: &Tables, change: &Change, slots: &[NameSlot<TenantChange>]) -> bool
    ensures { result ≡ list_any (tenant_passes (world_of tables.now) change.now) slots.now }
{
    slots.iter().any(|slot| tenant_passes(tables, change, slot))
}

/// Whether an index or a number of a namespace passes its bound.
fn tenants_pass(tables: &Tables, change: &Change) -> bool
    ensures { result ≡ tenants_pass (world_of tables.now) change.now }
{
    any_tenant_passes(tables, change, change.tenants.as_slice()) || wakings_pass(tables, change)
}

// ---- pools

fn is_place_past(slot: &NameSlot<Node>) -> bool
    ensures { result ≡ is_place_past slot.now }
{
    match &slot.1 {
        Some(node) => is_past(node.places),
        None => false,
    }
}

fn any_place_past(slots: &[NameSlot<Node>]) -> bool
    ensures { result ≡ list_any is_place_past slots.now }
{
    slots.iter().any(|slot| is_place_past(slot))
}

fn places_pass(tables: &Tables, slot: &NameSlot<PoolChange>) -> bool
    ensures { result ≡ places_pass (world_of tables.now) slot.now }
{
    let Some(changed) = &slot.1 else {
        return false;
    };
    match tables.pools.get(&slot.0) {
        Some(_) => any_place_past(changed.nodes.as_slice()),
        None => false,
    }
}

fn any_places_pass(tables: &Tables, slots: &[NameSlot<PoolChange>]) -> bool
    ensures { result ≡ list_any (places_pass (world_of tables.now)) slots.now }
{
    slots.iter().any(|slot| places_pass(tables, slot))
}

/// Whether the release number of a pool of which a class is released passes its bound. Unless one ever was at its bound, it
/// goes through nothing.
fn rooms_pass(tables: &Tables, change: &Change) -> bool
    ensures { result ≡ list_any (room_passes (world_of tables.now))
        (released_rooms (world_of tables.now) change.now) }
{
    tables.pools.may_be_at_bound() && releases_room(&Counters { tables }, tables, change)
}

/// Whether a release number of a pool, or the number of placements on a node, passes its bound.
fn pools_pass(tables: &Tables, change: &Change) -> bool
    ensures { result ≡ pools_pass (world_of tables.now) change.now }
{
    rooms_pass(tables, change) || any_places_pass(tables, change.pools.as_slice())
}

// ---- all counters

/// Whether a release number of a quota passes its bound.
fn quotas_pass(tables: &Tables, change: &Change) -> bool
    ensures { result ≡ quotas_pass (world_of tables.now) change.now }
{
    releases_quota(&Counters { tables }, tables, change)
}

fn any_passes(tables: &Tables, change: &Change) -> bool
    ensures { result ≡ (tenants_pass (world_of tables.now) change.now
        || pools_pass (world_of tables.now) change.now
        || quotas_pass (world_of tables.now) change.now) }
{
    tenants_pass(tables, change) || pools_pass(tables, change) || quotas_pass(tables, change)
}

/// Whether some counter passes its bound by the step, once it has settled. It takes no memory. Its work grows only with what
/// the step changes, unless an index ever was at its bound: then also with the number of blocked evaluations.
pub fn is_past_bound(tables: &Tables, change: &Change) -> bool
    requires { is_past_bound (world_of tables.now) ≡ false }
    ensures { result
        ≡ is_past_bound (settle (world_of tables.now) (view tables.now change.now)) }
{
    any_passes(tables, change)
}
