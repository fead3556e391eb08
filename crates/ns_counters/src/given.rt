//! Whether a counter passes its bound by a step that only gives room on one node, or only changes the limits of one quota. It
//! takes no memory and needs no change, so a command can be refused before it takes any memory.

ghost use Rattle.std.specs.Prelude.{◌≡◌, ◌∷◌, [], List};
ghost use Rattle.std.specs.List.{list_any};
ghost use Rattle.keyed.specs.Table.{at_slot};
ghost use Rattle.ns_types.specs.declared.node.Class.{Class};
ghost use Rattle.ns_types.specs.State.Names.{Name};
ghost use Rattle.ns_types.specs.State.Rows.{evaluation_at, offered_class};
ghost use Rattle.ns_release.specs.Released.{releases_wake, releases_wake_at};
ghost use Rattle.ns_counters.specs.Bounds.{shows_awake};
ghost use Rattle.ns_counters.specs.Given.{given_limits_pass, given_room_passes, given_waking_passes};
ghost use Rattle.ns_counters.specs.Given.{given_waking_passes_in, left_quota_passes, wakes_shown};
ghost use Rattle.ns_tables.specs.World.{tenant_of, world_of};

use crate::at_bound::wakes_may_pass;
use crate::awake::changes_awake;
use crate::full::Counters;
use keyed::NumberSlot;
use ns_equality::same_text;
use ns_release::Question;
use ns_tables::{Tables, TenantRows, is_at_bound};
use ns_types::evaluation::Evaluation;
use ns_types::key::EvalKey;
use ns_types::node::Offer;
use ns_types::text::Text;

/// What a step releases, if it releases this and nothing else.
trait Given {
    /// The released room.
    ghost rooms: { Self → List (Name × Class) };
    /// The released quotas.
    ghost quotas: { Self → List Name };

    /// Whether the release wakes the evaluation.
    fn wakes(&self, tables: &Tables, evaluation: &Evaluation) -> bool
        ensures { result ≡ releases_wake (world_of tables.now) (rooms self.now) (quotas self.now)
            evaluation.now };
}

/// Room on a node with this offer in the pool.
#[derive(Drop)]
struct NodeRoom<'a> {
    pool: &'a Text,
    offer: &'a Offer,
}

impl Given for NodeRoom<'_> {
    ghost rooms = { λ r. (r.pool.now, offered_class r.offer.now) ∷ [] };

    ghost quotas = { λ _. [] };

    fn wakes(&self, _tables: &Tables, evaluation: &Evaluation) -> bool {
        evaluation.quota.is_none() && evaluation.is_room(self.pool, self.offer)
    }
}

/// New limits of the quota.
#[derive(Drop)]
struct NewLimits<'a> {
    quota: &'a Text,
}

impl Given for NewLimits<'_> {
    ghost rooms = { λ _. [] };

    ghost quotas = { λ l. l.quota.now ∷ [] };

    fn wakes(&self, tables: &Tables, evaluation: &Evaluation) -> bool {
        match &evaluation.quota {
            Some(limiting) => tables.has_quota(limiting) && same_text(limiting, self.quota),
            None => false,
        }
    }
}

// ---- which evaluations the release wakes

/// Whether the release wakes the evaluation of an entry.
fn given_wakes<G: Given>(given: &G, tables: &Tables, key: &EvalKey) -> bool
    ensures { result ≡ releases_wake_at (world_of tables.now) (G.rooms given.now)
        (G.quotas given.now) key.now }
{
    match tables.evaluation(key.namespace(), key.number()) {
        Some(row) => given.wakes(tables, row),
        None => false,
    }
}

/// Whether the evaluation of an entry, once it has woken, is shown differently than before.
fn shows_awake(tables: &Tables, tenant: &TenantRows, key: &EvalKey) -> bool
    ensures { result ≡ shows_awake (tenant_of tenant.now) key.now.1
        (evaluation_at (world_of tables.now) key.now) }
{
    match tables.evaluation(key.namespace(), key.number()) {
        Some(row) => changes_awake(tenant, key.number(), row),
        None => false,
    }
}

fn wakes_shown<G: Given>(given: &G, tables: &Tables, tenant: &TenantRows, key: &EvalKey) -> bool
    ensures { result ≡ wakes_shown (world_of tables.now) (G.rooms given.now) (G.quotas given.now)
        key.now (tenant_of tenant.now) }
{
    given_wakes(given, tables, key) && shows_awake(tables, tenant, key)
}

fn waking_passes_in<G: Given>(
    given: &G,
    tables: &Tables,
    tenant: &TenantRows,
    key: &EvalKey,
) -> bool
    ensures { result ≡ given_waking_passes_in (world_of tables.now) (G.rooms given.now)
        (G.quotas given.now) key.now (tenant_of tenant.now) }
{
    is_at_bound(tenant.index) && wakes_shown(given, tables, tenant, key)
}

/// Whether the release wakes the evaluation of an entry, and by that the index of its namespace passes its bound.
fn waking_passes<G: Given>(given: &G, tables: &Tables, key: &EvalKey) -> bool
    ensures { result ≡ given_waking_passes (world_of tables.now) (G.rooms given.now)
        (G.quotas given.now) key.now }
{
    match tables.tenants.get(key.namespace()) {
        Some(tenant) => waking_passes_in(given, tables, tenant, key),
        None => false,
    }
}

fn slot_passes<G: Given>(given: &G, tables: &Tables, slot: &NumberSlot<EvalKey>) -> bool
    ensures { result ≡ at_slot (λ e. given_waking_passes (world_of tables.now) (G.rooms given.now)
        (G.quotas given.now) e.1) slot.now }
{
    match &slot.1 {
        Some(key) => waking_passes(given, tables, key),
        None => false,
    }
}

fn any_waking_passes<G: Given>(given: &G, tables: &Tables, slots: &[NumberSlot<EvalKey>]) -> bool
    ensures { result ≡ list_any (at_slot (λ e. given_waking_passes (world_of tables.now)
        (G.rooms given.now) (G.quotas given.now) e.1)) slots.now }
{
    slots.iter().any(|slot| slot_passes(given, tables, slot))
}

/// Whether an index passes its bound because evaluations wake.
fn wakings_pass<G: Given>(given: &G, tables: &Tables) -> bool
    ensures { result ≡ list_any (given_waking_passes (world_of tables.now) (G.rooms given.now)
        (G.quotas given.now)) (world_of tables.now).blocked }
{
    wakes_may_pass(tables) && any_waking_passes(given, tables, tables.blocked.slots())
}

// ---- the release of one thing

/// Whether a counter passes its bound by a step that gives room on a node with this offer in the pool, and does nothing else.
/// It goes through nothing, unless an index ever was at its bound: then through all blocked evaluations.
pub fn given_room_passes(tables: &Tables, pool: &Text, offer: &Offer) -> bool
    ensures { result ≡ given_room_passes (world_of tables.now) (pool.now, offered_class offer.now) }
{
    Counters { tables }.is_room(pool, offer) || wakings_pass(&NodeRoom { pool, offer }, tables)
}

/// Whether a counter passes its bound by a step that changes the limits of the quota, and does nothing else. It goes through
/// nothing, unless an index ever was at its bound: then through all blocked evaluations.
pub fn given_limits_pass(tables: &Tables, quota: &Text) -> bool
    ensures { result ≡ given_limits_pass (world_of tables.now) quota.now }
{
    Counters { tables }.is_quota(quota) || wakings_pass(&NewLimits { quota }, tables)
}

/// Whether a counter passes its bound because an allocation of the namespace ends and so releases the namespace's quota, if it
/// has one.
pub fn left_quota_passes(tables: &Tables, tenant: &TenantRows) -> bool
    ensures { result ≡ left_quota_passes (world_of tables.now) (tenant_of tenant.now) }
{
    match &tenant.namespace.quota {
        Some(quota) => given_limits_pass(tables, quota),
        None => false,
    }
}
