//! Whether what is done of a plan passes the bound of a counter. It takes no memory.

ghost use Rattle.std.specs.Prelude.{◌≡◌, ◌&&◌, [], false, filter, length};
ghost use Rattle.std.specs.List.{list_any};
ghost use Rattle.ns_types.specs.State.Names.{has_number, same_name};
ghost use Rattle.ns_types.specs.Steps.{is_past_bound};
ghost use Rattle.ns_types.specs.Working.Commit.{node_name};
ghost use Rattle.ns_applier.specs.HeadroomApplying.{does_something, own_passes, place_passes, stop_passes};
ghost use Rattle.ns_applier.specs.Judging.{allocations_pass, committed_passes, doing, live_numbers};
ghost use Rattle.ns_types.specs.Working.Parts.{lives_at, placed_on};
ghost use Rattle.ns_applier.specs.Judging.{own_part_passes};

use crate::headroom::ending::Headroom;
use ns_place::marking::Places;
use ns_types::plan::{Placement, Plan};
use ns_types::snapshot::Snapshot;
use ns_types::text::{Text, same_text};

// ---- the plan's own namespace

fn any_placed(placements: &[Placement], committed: &Places<'_>) -> bool
    ensures { result ≡ list_any (λ p. has_number committed.now p.node) placements.now }
{
    placements.iter().any(|p| committed.has(p.node))
}

fn count_placed(placements: &[Placement], committed: &Places<'_>) -> usize
    ensures { result ≡ length (placed_on committed.now placements.now) }
{
    placements.iter().filter(|p| committed.has(p.node)).count()
}

fn any_live(headroom: &Headroom, namespace: &Text, numbers: &[u64]) -> bool
    ensures { result ≡ list_any (λ n. lives_at headroom.now (namespace.now, n)) numbers.now }
{
    numbers.iter().any(|n| headroom.lives_at(namespace, *n))
}

/// Whether the number of the last allocation passes its bound. It counts the placements only if the number of all of
/// them would pass it.
fn numbers_pass(
    headroom: &Headroom,
    namespace: &Text,
    placements: &[Placement],
    committed: &Places<'_>,
) -> bool
    ensures { result ≡ allocations_pass headroom.now namespace.now
        (length (placed_on committed.now placements.now)) }
{
    headroom.allocations_pass(namespace, placements.len() as u64)
        && headroom.allocations_pass(namespace, count_placed(placements, committed) as u64)
}

fn does_something(
    headroom: &Headroom,
    snapshot: &Snapshot,
    plan: &Plan,
    committed: &Places<'_>,
) -> bool
    ensures { result ≡ does_something (doing headroom.now snapshot.now plan.now committed.now) }
{
    any_live(headroom, &snapshot.namespace, plan.stops.as_slice())
        || any_placed(plan.placing.placements.as_slice(), committed)
}

/// Whether the number of the last allocation, or the index of the plan's namespace, passes its bound.
fn own_passes(headroom: &Headroom, snapshot: &Snapshot, plan: &Plan, committed: &Places<'_>) -> bool
    ensures { result ≡ own_passes headroom.now snapshot.now.namespace
        (doing headroom.now snapshot.now plan.now committed.now) }
{
    let placements = plan.placing.placements.as_slice();
    numbers_pass(headroom, &snapshot.namespace, placements, committed)
        || headroom.is_last_index(&snapshot.namespace)
            && does_something(headroom, snapshot, plan, committed)
}

// ---- nodes

/// The name of the node at that place of the snapshot, or an empty name.
fn node_name<'a>(snapshot: &'a Snapshot, nameless: &'a Text, place: u64) -> &'a Text
    requires { nameless.now ≡ [] }
    ensures { result.now ≡ node_name snapshot.now place }
{
    match snapshot.nodes.as_slice().get(place as usize) {
        Some(node) => &node.get().name,
        None => nameless,
    }
}

fn is_on(
    snapshot: &Snapshot,
    nameless: &Text,
    committed: &Places<'_>,
    name: &Text,
    placement: &Placement,
) -> bool
    requires { nameless.now ≡ [] }
    ensures { result ≡ (has_number committed.now placement.now.node
        && same_name name.now (node_name snapshot.now placement.now.node)) }
{
    committed.has(placement.node) && same_text(name, node_name(snapshot, nameless, placement.node))
}

/// How many placements are on the committed node of that name.
fn count_on(
    snapshot: &Snapshot,
    nameless: &Text,
    placements: &[Placement],
    committed: &Places<'_>,
    name: &Text,
) -> usize
    requires { nameless.now ≡ [] }
    ensures { result ≡ length (filter (λ p. has_number committed.now p.node
        && same_name name.now (node_name snapshot.now p.node)) placements.now) }
{
    placements
        .iter()
        .filter(|p| is_on(snapshot, nameless, committed, name, p))
        .count()
}

/// Whether the node's number of places passes its bound. It counts the placements on the node only if the number of all
/// placements would pass it.
fn node_passes(
    headroom: &Headroom,
    snapshot: &Snapshot,
    nameless: &Text,
    placements: &[Placement],
    committed: &Places<'_>,
    place: u64,
) -> bool
    requires { nameless.now ≡ [] }
    ensures { result ≡ committed_passes headroom.now snapshot.now
        (placed_on committed.now placements.now) place }
{
    let name = node_name(snapshot, nameless, place);
    headroom.node_passes(&snapshot.pool, name, placements.len() as u64)
        && headroom.node_passes(
            &snapshot.pool,
            name,
            count_on(snapshot, nameless, placements, committed, name) as u64,
        )
}

fn any_node_passes(
    headroom: &Headroom,
    snapshot: &Snapshot,
    nameless: &Text,
    placements: &[Placement],
    committed: &Places<'_>,
) -> bool
    requires { nameless.now ≡ [] }
    ensures { result ≡ list_any (committed_passes headroom.now snapshot.now
        (placed_on committed.now placements.now)) committed.now }
{
    committed.as_slice().iter().any(|place| node_passes(
        headroom,
        snapshot,
        nameless,
        placements,
        committed,
        u64::from(*place),
    ))
}

/// Whether the number of places of a committed node passes its bound.
fn places_pass(
    headroom: &Headroom,
    snapshot: &Snapshot,
    plan: &Plan,
    committed: &Places<'_>,
) -> bool
    requires { is_past_bound headroom.now ≡ false }
    ensures { let kept = snapshot.now in
        let placed = placed_on committed.now plan.now.placing.placements in
        result ≡ list_any (place_passes headroom.now kept placed) placed }
{
    let nameless = headroom.nameless();
    let placements = plan.placing.placements.as_slice();
    any_node_passes(headroom, snapshot, &nameless, placements, committed)
}

// ---- stops

fn any_stop_passes(headroom: &Headroom, namespace: &Text, numbers: &[u64]) -> bool
    ensures { result ≡ list_any (λ n. lives_at headroom.now (namespace.now, n)
        && stop_passes headroom.now namespace.now n) numbers.now }
{
    numbers.iter().any(|n| headroom.lives_at(namespace, *n) && headroom.end_passes(namespace, *n))
}

/// Whether a counter passes its bound by what one of the stops releases.
fn stops_pass(headroom: &Headroom, snapshot: &Snapshot, plan: &Plan) -> bool
    ensures { let kept = snapshot.now in
        let stops = live_numbers headroom.now kept.namespace plan.now.stops in
        result ≡ list_any (stop_passes headroom.now kept.namespace) stops }
{
    any_stop_passes(headroom, &snapshot.namespace, plan.stops.as_slice())
}

/// Whether a counter passes its bound by what the plan places on the committed nodes and by what it stops: the number
/// of the last allocation, the index of the plan's namespace, the number of places of a node, or a release.
///
/// It costs a look-up for each of the nodes and each stop. It counts the placements only if a number is so near its
/// bound that the number of all placements would pass it.
pub fn own_part_passes(
    headroom: &Headroom,
    snapshot: &Snapshot,
    plan: &Plan,
    committed: &Places<'_>,
) -> bool
    requires { is_past_bound headroom.now ≡ false }
    ensures { result ≡ own_part_passes headroom.now snapshot.now plan.now committed.now }
{
    own_passes(headroom, snapshot, plan, committed)
        || places_pass(headroom, snapshot, plan, committed)
        || stops_pass(headroom, snapshot, plan)
}
