//! What a node's victims leave of its load and of the quota's use. No list of the victims is held.

ghost use Rattle.std.specs.Prelude.{◌≡◌, ◌++◌, ◌&&◌, ◌||◌, None, List, if◌then◌else◌, not, option_copied};
ghost use Rattle.std.specs.List.{list_any};
ghost use Rattle.ns_types.specs.declared.resources.Resources.{Resources};
ghost use Rattle.ns_types.specs.State.Names.{Key, same_number};
ghost use Rattle.ns_types.specs.State.Sums.{node_load};
ghost use Rattle.ns_types.specs.Working.Commit.{part_of};
ghost use Rattle.ns_types.proofs.Once.{once};
ghost use Rattle.ns_plan.specs.After.{after_stops, counted, shares};
ghost use Rattle.ns_plan.specs.Reader.{AreElsewhere, Leaves, evictions_of, left_by, quota_left};
ghost use Rattle.ns_plan.specs.Reader.{same_eviction, with_gone};

use crate::after::{counted, shares};
use crate::view::View;
use ns_place::marking::Marked;
use ns_types::allocation::Allocation;
use ns_types::plan::{Eviction, Placement};
use ns_types::resources::{Resources, less};
use ns_types::snapshot::Snapshot;
use ns_types::text::{Text, same_text};

/// What is left of a node's load and of the quota's use.
#[derive(Clone, Copy)]
pub(crate) struct Left {
    pub(crate) load: Resources,
    pub(crate) used: Resources,
}

#[tactic(auto, using(ns_types::proofs::Named::number_ties))]
fn same_eviction(a: &Eviction, b: &Eviction) -> bool
    ensures { result ≡ same_eviction a.now b.now }
{
    same_text(&a.namespace, &b.namespace) && a.number == b.number && a.priority == b.priority
}

fn has_eviction(evictions: &[Eviction], eviction: &Eviction) -> bool
    ensures { result ≡ list_any (same_eviction eviction.now) evictions.now }
{
    evictions.iter().any(|e| same_eviction(eviction, e))
}

/// Whether the placement is on the node and has the eviction.
#[tactic(auto, using(ns_types::proofs::Named::number_ties))]
fn is_with(placement: &Placement, node: u64, eviction: &Eviction) -> bool
    ensures { result ≡ (same_number placement.now.node node
        && list_any (same_eviction eviction.now) placement.now.evictions) }
{
    placement.node == node && has_eviction(placement.evictions.as_slice(), eviction)
}

fn is_with_any(placements: &[Placement], node: u64, eviction: &Eviction) -> bool
    ensures { result ≡ list_any (λ p. same_number p.node node
        && list_any (same_eviction eviction.now) p.evictions) placements.now }
{
    placements.iter().any(|p| is_with(p, node, eviction))
}

/// Whether the eviction stands earlier in the node's part: in a placement before its own, or before it in its own.
#[tactic(auto, using(crate::proofs::Leaves::in_part))]
fn stands_earlier(
    before: &[Placement],
    node: u64,
    earlier: &[Eviction],
    eviction: &Eviction,
) -> bool
    ensures { result ≡ list_any (same_eviction eviction.now)
        (evictions_of (part_of node before.now) ++ earlier.now) }
{
    is_with_any(before, node, eviction) || has_eviction(earlier, eviction)
}

/// The allocation that the eviction evicts, if the eviction counts on the node and does not stand earlier in the node's part.
/// What stands before it is looked at only if it counts.
fn new_victim<'a, V: View>(
    view: &'a V,
    snapshot: &Snapshot,
    stops: &Marked<'_>,
    name: &Text,
    before: &[Placement],
    node: u64,
    earlier: &[Eviction],
    eviction: &Eviction,
) -> Option<&'a Allocation>
    ensures { option_copied result ≡
        (if list_any (same_eviction eviction.now)
        (evictions_of (part_of node before.now) ++ earlier.now) then None
        else counted (after_stops (V.world view.now) snapshot.now.namespace stops.now)
        snapshot.now.pool name.now eviction.now) }
{
    match counted(
        view,
        &snapshot.namespace,
        stops,
        &snapshot.pool,
        name,
        eviction,
    ) {
        Some(row) if !stands_earlier(before, node, earlier, eviction) => Some(row),
        _ => None,
    }
}

fn with_gone(left: Left, size: Resources, shared: bool) -> Left
    ensures { result ≡ with_gone left size shared }
{
    Left {
        load: less(left.load, size),
        used: if shared {
            less(left.used, size)
        } else {
            left.used
        },
    }
}

/// What is left without the placement's victims too, each of them counted once on its node.
fn without_victims<V: View>(
    view: &V,
    snapshot: &Snapshot,
    stops: &Marked<'_>,
    quota: Option<&Text>,
    name: &Text,
    before: &[Placement],
    placement: &Placement,
    left: Left,
) -> Left
    ensures { Leaves (after_stops (V.world view.now) snapshot.now.namespace stops.now)
        snapshot.now.pool name.now (option_copied quota.entry)
        (evictions_of (part_of placement.now.node before.now)) left placement.now.evictions result }
{
    let evictions = placement.evictions.as_slice();
    let mut left = left;
    for i in 0..evictions.len() {
        let eviction = &evictions[i];
        if let Some(row) = new_victim(
            view,
            snapshot,
            stops,
            name,
            before,
            placement.node,
            &evictions[..i],
            eviction,
        ) {
            left = with_gone(left, row.size, shares(view, quota, &eviction.namespace));
        }
    }
    left
}

/// What is left of the node's load and of the quota's use without the victims of the node's part of these placements. It costs
/// a walk over the placements, a look-up for each eviction of the part, and for each eviction that counts another walk over the
/// placements before it.
pub(crate) fn left_at<V: View>(
    view: &V,
    snapshot: &Snapshot,
    stops: &Marked<'_>,
    placements: &[Placement],
    quota: Option<&Text>,
    node: u64,
    name: &Text,
    whole: Left,
) -> Left
    requires { whole.load ≡ node_load (after_stops (V.world view.now) snapshot.now.namespace stops.now)
        snapshot.now.pool name.now }
    ensures { (keys : List Key) →
        AreElsewhere (after_stops (V.world view.now) snapshot.now.namespace stops.now)
        snapshot.now.pool name.now keys →
        whole.used ≡ quota_left (after_stops (V.world view.now) snapshot.now.namespace stops.now)
        (option_copied quota.entry) (once keys) →
        result ≡ left_by (after_stops (V.world view.now) snapshot.now.namespace stops.now)
        snapshot.now.pool name.now (option_copied quota.entry) keys
        (evictions_of (part_of node placements.now)) }
{
    let mut left = whole;
    for i in 0..placements.len() {
        let placement = &placements[i];
        if placement.node == node {
            left = without_victims(
                view,
                snapshot,
                stops,
                quota,
                name,
                &placements[..i],
                placement,
                left,
            );
        }
    }
    left
}
