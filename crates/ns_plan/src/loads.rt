//! The load of each node of a snapshot after a plan's stops, in one walk over the stops.

ghost use Rattle.std.specs.Prelude.{◌≡◌, ◌+◌, ◌<◌, ◌≤◌, ◌&&◌, IfSome, Some, length, take, true};
ghost use Rattle.ns_types.specs.State.Names.{same_name};
ghost use Rattle.ns_types.specs.State.Rows.{is_live};
ghost use Rattle.ns_types.specs.State.Sums.{node_load};
ghost use Rattle.ns_types.specs.Working.Commit.{node_name};
ghost use Rattle.ns_plan.specs.After.{after_stops, part_on, stop_keys};
ghost use Rattle.ns_plan.specs.Loads.{AreApart, AreLeft, AreLoads, IsPlaceOf, IsTaken, is_named, taken};
ghost use Rattle.ns_plan.specs.Looks.{AreCounted, IsOnFewNodes};

use crate::after::load;
use crate::taking::node_name;
use crate::view::View;
use ns_place::marking::Marked;
use ns_types::allocation::Allocation;
use ns_types::plan::Plan;
use ns_types::resources::{Resources, less, none};
use ns_types::shared::Shared;
use ns_types::snapshot::{PoolNode, Snapshot};
use ns_types::text::{Text, same_text};

/// The place of the node with that name, if the nodes are in the order of their names and have it.
fn guess(nodes: &[Shared<PoolNode>], name: &Text) -> usize {
    nodes.partition_point(|node| node.get().name < *name)
}

/// The place of the node with that name, by a walk over all nodes.
fn walk_to(nodes: &[Shared<PoolNode>], name: &Text) -> Option<usize>
    ensures { IsPlaceOf nodes.now name.now result }
{
    for place in 0..nodes.len() {
        if same_text(&nodes[place].get().name, name) {
            return Some(place);
        }
    }
    None
}

/// Whether there is a node at the place, and it has that name.
fn is_named(nodes: &[Shared<PoolNode>], name: &Text, place: usize) -> bool
    ensures { result ≡ is_named nodes.now name.now place }
{
    match nodes.get(place) {
        Some(node) => same_text(&node.get().name, name),
        None => false,
    }
}

/// The place of the node with that name, which is looked for at `near` and behind it first. Else it costs a binary search, and a
/// walk only if that fails.
fn place_of(nodes: &[Shared<PoolNode>], name: &Text, near: usize) -> Option<usize>
    ensures { IsPlaceOf nodes.now name.now result }
{
    if is_named(nodes, name, near) {
        return Some(near);
    }
    let next = near.saturating_add(1);
    if is_named(nodes, name, next) {
        return Some(next);
    }
    let place = guess(nodes, name);
    if is_named(nodes, name, place) {
        return Some(place);
    }
    walk_to(nodes, name)
}

fn is_live_in(row: &Allocation, pool: &Text) -> bool
    ensures { result ≡ (is_live row.now && same_name pool.now row.now.pool) }
{
    row.is_live() && same_text(pool, &row.pool)
}

/// The place of the allocation's node and what the allocation takes there, if the node is of the snapshot.
fn taken_by(snapshot: &Snapshot, row: &Allocation, near: usize) -> Option<(usize, Resources)>
    requires apart { AreApart snapshot.now }
    requires lives { (is_live row.now && same_name snapshot.now.pool row.now.pool) ≡ true }
    ensures { IsTaken snapshot.now
        (λ k. part_on snapshot.now.pool (node_name snapshot.now k) (Some row.now)) result }
{
    match place_of(snapshot.nodes.as_slice(), &row.node, near) {
        Some(node) => Some((node, row.size)),
        None => None,
    }
}

/// From which node of the snapshot the allocation of the stop at that place takes something, and how much. None: it takes
/// nothing from any of these nodes, or its number stands earlier too.
fn taken<V: View>(
    view: &V,
    snapshot: &Snapshot,
    stops: &Marked<'_>,
    place: usize,
    near: usize,
) -> Option<(usize, Resources)>
    requires apart { AreApart snapshot.now }
    requires inside { place < length stops.now }
    ensures { IsTaken snapshot.now (taken (V.world view.now) snapshot.now stops.now place) result }
{
    match view.allocation(&snapshot.namespace, stops.as_slice()[place]) {
        Some(row) if is_live_in(row, &snapshot.pool) && !stops.stands_earlier(place) => {
            taken_by(snapshot, row, near)
        }
        _ => None,
    }
}

/// The loads of the snapshot's nodes before the stops.
fn present_loads<V: View>(view: &V, snapshot: &Snapshot) -> [Resources; 1000]
    requires counted { AreCounted (V.world view.now) }
    requires few { length snapshot.now.nodes ≤ 1000 }
    ensures { AreLoads (V.world view.now) snapshot.now result }
{
    let mut loads = [none(); 1000];
    for node in 0..snapshot.nodes.as_slice().len() {
        loads[node] = view.load(&snapshot.pool, node_name(snapshot, node as u64));
    }
    loads
}

/// Takes the allocation of the stop at the place off the load of its node, which is looked for at `near` and behind it first:
/// allocations that were placed one after the other are often on one node, or on nodes that follow each other.
fn take_off<V: View>(
    view: &V,
    snapshot: &Snapshot,
    stops: &Marked<'_>,
    place: usize,
    near: &mut usize,
    loads: &mut [Resources; 1000],
)
    requires few { length snapshot.now.nodes ≤ 1000 }
    requires apart { AreApart snapshot.now }
    requires inside { place < length stops.now }
    requires left { let kept = snapshot.now in AreLeft (V.world view.now) kept
        (stop_keys kept.namespace (take place stops.now)) loads.old }
    ensures { let kept = snapshot.now in AreLeft (V.world view.now) kept
        (stop_keys kept.namespace (take (place + 1) stops.now)) loads.new }
{
    if let Some((node, size)) = taken(view, snapshot, stops, place, *near) {
        loads[node] = less(loads[node], size);
        *near = node;
    }
}

/// The loads of the snapshot's nodes after the stops. It costs two look-ups for each stop, and one for each node.
pub(crate) fn loads_of<V: View>(
    view: &V,
    snapshot: &Snapshot,
    plan: &Plan,
    stops: &Marked<'_>,
) -> [Resources; 1000]
    requires counted { AreCounted (V.world view.now) }
    requires fits { IsOnFewNodes snapshot.now plan.now }
    ensures { AreLoads (after_stops (V.world view.now) snapshot.now.namespace stops.now)
        snapshot.now result }
{
    let mut loads = present_loads(view, snapshot);
    let mut near = 0;
    for place in 0..stops.as_slice().len() {
        take_off(view, snapshot, stops, place, &mut near, &mut loads);
    }
    loads
}

/// The load of the node after the stops. It is looked up if the loads of all nodes were gathered; else it costs what `load`
/// does.
pub(crate) fn load_at<V: View>(
    view: &V,
    snapshot: &Snapshot,
    stops: &Marked<'_>,
    loads: Option<&[Resources; 1000]>,
    node: u64,
) -> Resources
    requires counted { AreCounted (V.world view.now) }
    requires few { length snapshot.now.nodes ≤ 1000 }
    requires inside { node < length snapshot.now.nodes }
    requires right { IfSome loads (λ loads. AreLoads
        (after_stops (V.world view.now) snapshot.now.namespace stops.now)
        snapshot.now loads.now) }
    ensures { result ≡ node_load (after_stops (V.world view.now) snapshot.now.namespace stops.now)
        snapshot.now.pool (node_name snapshot.now node) }
{
    match loads {
        Some(loads) => loads[node as usize],
        None => {
            let name = node_name(snapshot, node);
            load(view, &snapshot.namespace, stops, &snapshot.pool, name)
        }
    }
}
