//! Whether what a plan evicts passes the bound of a counter. It takes no memory.

ghost use Rattle.std.specs.Prelude.{◌≡◌, ◌&&◌, ◌<◌, length, nat_lt};
ghost use Rattle.std.specs.List.{list_any};
ghost use Rattle.ns_types.specs.State.Names.{has_number};
ghost use Rattle.ns_types.specs.Working.Commit.{counts, node_name};
ghost use Rattle.ns_plan.specs.After.{after_stops};
ghost use Rattle.ns_plan.specs.Looks.{IsOnFewNodes};
ghost use Rattle.ns_applier.specs.Judging.{eviction_passes, evictions_pass_at, lost_part_passes};

use crate::headroom::ending::Headroom;
use ns_place::marking::{Marked, Places};
use ns_plan::{View, counts};
use ns_types::plan::{Eviction, Placement, Plan};
use ns_types::snapshot::Snapshot;

/// Whether one of the evictions counts on that node and passes a bound. It looks whether an eviction counts only if it
/// passes one.
fn any_eviction_passes<V: View>(
    headroom: &Headroom,
    view: &V,
    snapshot: &Snapshot,
    stops: &Marked<'_>,
    node: u64,
    evictions: &[Eviction],
) -> bool
    requires { node < length snapshot.now.nodes }
    ensures { let kept = snapshot.now in
        result ≡ evictions_pass_at headroom.now
        (after_stops (V.world view.now) kept.namespace stops.now) kept node evictions.now }
{
    evictions.iter().any(
        |e|
            requires { node < length snapshot.now.nodes }
        { headroom.eviction_passes(e) && counts(view, snapshot, stops, node, e) },
    )
}

/// Whether the placement is on a committed node of the snapshot, and one of its evictions counts and passes a bound.
fn placement_passes<V: View>(
    headroom: &Headroom,
    view: &V,
    snapshot: &Snapshot,
    stops: &Marked<'_>,
    committed: &Places<'_>,
    placement: &Placement,
) -> bool
    ensures { let kept = snapshot.now in let p = placement.now in
        result ≡ (nat_lt p.node (length kept.nodes) && has_number committed.now p.node
        && evictions_pass_at headroom.now
        (after_stops (V.world view.now) kept.namespace stops.now) kept p.node p.evictions) }
{
    placement.node < snapshot.nodes.as_slice().len() as u64
        && committed.has(placement.node)
        && any_eviction_passes(
            headroom,
            view,
            snapshot,
            stops,
            placement.node,
            placement.evictions.as_slice(),
        )
}

fn any_placement_passes<V: View>(
    headroom: &Headroom,
    view: &V,
    snapshot: &Snapshot,
    stops: &Marked<'_>,
    committed: &Places<'_>,
    placements: &[Placement],
) -> bool
    ensures { let kept = snapshot.now in
        result ≡ list_any (λ p. nat_lt p.node (length kept.nodes) && has_number committed.now p.node
        && evictions_pass_at headroom.now
        (after_stops (V.world view.now) kept.namespace stops.now) kept p.node p.evictions)
        placements.now }
{
    placements.iter().any(|p| placement_passes(headroom, view, snapshot, stops, committed, p))
}

/// Whether a counter passes its bound by what the plan evicts on the committed nodes: a release, or the index of a
/// namespace that loses an allocation. It does not look whether the namespaces have numbers for the evaluations of
/// their jobs.
///
/// It costs a walk over the stops, and a look-up for each eviction of these nodes. It looks whether an eviction counts
/// only if it passes a bound.
pub fn lost_part_passes<V: View>(
    headroom: &Headroom,
    view: &V,
    snapshot: &Snapshot,
    plan: &Plan,
    committed: &Places<'_>,
) -> bool
    requires same { V.world view.now ≡ headroom.now }
    requires nodes { IsOnFewNodes snapshot.now plan.now }
    ensures { result ≡ lost_part_passes headroom.now snapshot.now plan.now committed.now }
{
    any_placement_passes(
        headroom,
        view,
        snapshot,
        &Marked::new(plan.stops.as_slice()),
        committed,
        plan.placing.placements.as_slice(),
    )
}
