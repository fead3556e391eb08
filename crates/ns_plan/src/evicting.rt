//! The victims of a plan's placements, each once.

ghost use Rattle.std.specs.Prelude.{◌≡◌, ◌<◌, ◌++◌, ◌&&◌, IfOk, List, OnOk, filter, length, map, not};
ghost use Rattle.std.specs.List.{list_any};
ghost use Rattle.ns_types.specs.State.Names.{Key, has_key, has_number, same_key};
ghost use Rattle.ns_types.specs.Working.Commit.{counts, node_name, victim_key, victim_keys, victims_in, victims_of};
ghost use Rattle.ns_types.proofs.Once.{once};
ghost use Rattle.ns_plan.specs.After.{after_stops, keys_of};
ghost use Rattle.ns_plan.specs.Looks.{AreVictims, IsOnFewNodes};

use crate::after::counted;
use crate::taking::node_name;
use crate::view::View;
use ns_place::marking::{Marked, Places};
use ns_types::plan::{Eviction, Placement, Plan};
use ns_types::snapshot::Snapshot;
use ns_types::text::same_text;
use std::alloc::{AllocError, Global};

/// Whether the eviction counts, after the plan's stops, on the node at that place of the snapshot. It takes no memory and costs
/// two look-ups. The one among the stops is a walk if they do not rise.
pub fn counts<V: View>(
    view: &V,
    snapshot: &Snapshot,
    stops: &Marked<'_>,
    node: u64,
    eviction: &Eviction,
) -> bool
    requires { node < length snapshot.now.nodes }
    ensures { result ≡ counts
        (after_stops (V.world view.now) snapshot.now.namespace stops.now)
        snapshot.now.pool (node_name snapshot.now node) eviction.now }
{
    let name = node_name(snapshot, node);
    counted(
        view,
        &snapshot.namespace,
        stops,
        &snapshot.pool,
        name,
        eviction,
    )
    .is_some()
}

#[tactic(auto, using(ns_types::proofs::Named::number_ties))]
fn same_allocation(a: &Eviction, b: &Eviction) -> bool
    ensures { result ≡ same_key (victim_key a.now) (victim_key b.now) }
{
    same_text(&a.namespace, &b.namespace) && a.number == b.number
}

fn is_held(held: &[&Eviction], eviction: &Eviction) -> bool
    ensures { result ≡
        list_any (λ e. same_key (victim_key eviction.now) (victim_key e.now)) held.now }
{
    held.iter().any(|e| same_allocation(eviction, e))
}

/// Whether the eviction counts on the node, and `held` does not have its allocation yet.
#[tactic(auto, using(crate::proofs::Holding::any_held))]
fn is_new<V: View>(
    view: &V,
    snapshot: &Snapshot,
    stops: &Marked<'_>,
    node: u64,
    held: &[&Eviction],
    eviction: &Eviction,
) -> bool
    requires { node < length snapshot.now.nodes }
    ensures { result ≡ (counts
        (after_stops (V.world view.now) snapshot.now.namespace stops.now)
        snapshot.now.pool (node_name snapshot.now node) eviction.now
        && not (has_key (keys_of (map (λ e. e.now) held.now)) (victim_key eviction.now))) }
{
    counts(view, snapshot, stops, node, eviction) && !is_held(held, eviction)
}

/// Adds the placement's victims to `held`, each allocation once.
fn hold<'a, V: View>(
    view: &V,
    snapshot: &Snapshot,
    stops: &Marked<'_>,
    placement: &'a Placement,
    held: &mut Vec<&'a Eviction>,
) -> Result<(), AllocError>
    requires { placement.now.node < length snapshot.now.nodes }
    ensures { (seen : List Key) → keys_of (map (λ e. e.now) held.old.items) ≡ once seen →
        OnOk result (keys_of (map (λ e. e.now) held.new.items) ≡ once (seen ++ keys_of (victims_in
        (after_stops (V.world view.now) snapshot.now.namespace stops.now)
        snapshot.now placement.now))) }
{
    for eviction in placement.evictions.as_slice() {
        if is_new(view, snapshot, stops, placement.node, held, eviction) {
            held.push(eviction)?;
        }
    }
    Ok(())
}

/// The evictions of committed nodes that count, each allocation once, in the order of the plan. Want of memory is the only
/// error. It costs two look-ups for each eviction of these nodes, and the square of the number of those that count.
pub fn victims<'a, V: View>(
    alloc: Global,
    view: &V,
    snapshot: &Snapshot,
    plan: &'a Plan,
    committed: &Places<'_>,
) -> Result<Vec<&'a Eviction>, AllocError>
    requires { IsOnFewNodes snapshot.now plan.now }
    ensures listed { IfOk result (λ v. keys_of (map (λ e. e.now) v.items) ≡ victim_keys (victims_of
        (after_stops (V.world view.now) snapshot.now.namespace plan.now.stops) snapshot.now
        (filter (λ p. has_number committed.now p.node) plan.now.placing.placements))) }
    ensures checked { IfOk result (λ v. AreVictims snapshot.now plan.now (V.world view.now)
        committed.now (keys_of (map (λ e. e.now) v.items))) }
{
    let stops = Marked::new(plan.stops.as_slice());
    let mut held = Vec::new(alloc);
    for placement in plan.placing.placements.as_slice() {
        if committed.has(placement.node) {
            hold(view, snapshot, &stops, placement, &mut held)?;
        }
    }
    Ok(held)
}
