//! Decides which nodes do their part of a plan. Each does its whole part or none of it. Nothing is written, and no memory is
//! taken.

ghost use Rattle.std.specs.Prelude.{◌≡◌, ◌<◌, ◌≤◌, IfSome, length, option_copied};
ghost use Rattle.arrayvec.specs.ArrayVec.{array_vec_len};
ghost use Rattle.ns_types.specs.State.Sums.{node_load};
ghost use Rattle.ns_types.specs.Working.Commit.{node_name, nodes_in, quota_named};
ghost use Rattle.ns_plan.specs.After.{after_stops};
ghost use Rattle.ns_plan.specs.Gathered.{AreParts, IsPart};
ghost use Rattle.ns_plan.specs.Loads.{AreLoads};
ghost use Rattle.ns_plan.specs.Looks.{AreCounted, IsOnFewNodes};
ghost use Rattle.ns_plan.specs.Reader.{Decides, IsDecided, IsUndecided, read_all};

use crate::after::use_of;
use crate::gathering::{NodePart, evicting, part_at, parts_of};
use crate::leaving::{Left, left_at};
use crate::loads::{load_at, loads_of};
use crate::taking::{node_name, takes};
use crate::view::View;
use arrayvec::ArrayVec;
use ns_place::marking::{Flags, Marked};
use ns_types::plan::Plan;
use ns_types::resources::{Amount, Resources, add, amount_of, none};
use ns_types::snapshot::Snapshot;
use ns_types::text::Text;

/// What is decided so far.
#[derive(Drop)]
pub(crate) struct SoFar {
    /// What is left of the quota's use, without the victims so far.
    pub(crate) used: Resources,
    /// What the nodes that do their part so far place.
    pub(crate) placed: Amount,
    /// Places of the nodes that do their part.
    pub(crate) committed: ArrayVec<u16, 1000>,
    /// The places of the nodes that do not.
    pub(crate) dropped: ArrayVec<u16, 1000>,
}

/// Decides whether the node, which is in neither list, does its part of the plan.
fn decide<V: View>(
    view: &V,
    snapshot: &Snapshot,
    plan: &Plan,
    stops: &Marked<'_>,
    quota: Option<&Text>,
    node: u64,
    part: NodePart,
    load: Resources,
    so_far: &mut SoFar,
)
    requires stops { stops.now ≡ plan.now.stops }
    requires quota { option_copied quota ≡
        quota_named (V.world view.now) snapshot.now.namespace }
    requires few { length snapshot.now.nodes ≤ 1000 }
    requires inside { node < length snapshot.now.nodes }
    requires part { IsPart node plan.now.placing.placements part }
    requires load { load ≡ node_load
        (after_stops (V.world view.now) snapshot.now.namespace stops.now)
        snapshot.now.pool (node_name snapshot.now node) }
    requires room { array_vec_len so_far.old.committed < 1000 }
    requires room_dropped { array_vec_len so_far.old.dropped < 1000 }
    ensures { Decides snapshot.now plan.now.placing.placements
        (after_stops (V.world view.now) snapshot.now.namespace plan.now.stops)
        (option_copied quota.entry) node so_far.old so_far.new }
{
    let placements = plan.placing.placements.as_slice();
    let run = evicting(placements, part);
    let name = node_name(snapshot, node);
    let used = so_far.used;
    let whole = Left { load, used };
    let left = left_at(view, snapshot, stops, run, quota, node, name, whole);
    if takes(view, snapshot, quota, name, left, part.size, so_far.placed) {
        so_far.used = left.used;
        so_far.placed = add(so_far.placed, part.size);
        so_far.committed.push(node as u16);
    } else {
        so_far.dropped.push(node as u16);
    }
}

/// Nothing is decided yet.
pub(crate) fn undecided() -> SoFar
    ensures { IsUndecided result }
{
    SoFar {
        used: none(),
        placed: amount_of(none()),
        committed: ArrayVec::new(),
        dropped: ArrayVec::new(),
    }
}

/// Decides for each node of the plan in turn whether it does its part, in the state after the stops.
fn decide_each<V: View>(
    view: &V,
    snapshot: &Snapshot,
    plan: &Plan,
    stops: &Marked<'_>,
    loads: Option<&[Resources; 1000]>,
    gathered: Option<&[NodePart; 1000]>,
    so_far: &mut SoFar,
)
    requires counted { AreCounted (V.world view.now) }
    requires fits { IsOnFewNodes snapshot.now plan.now }
    requires stops { stops.now ≡ plan.now.stops }
    requires loads { IfSome loads (λ loads. AreLoads
        (after_stops (V.world view.now) snapshot.now.namespace stops.now)
        snapshot.now loads.now) }
    requires right { IfSome gathered (λ parts. AreParts plan.now.placing.placements parts.now) }
    requires undecided { IsUndecided so_far.old }
    ensures { IsDecided so_far.new.committed.items so_far.new.dropped.items (read_all snapshot.now
        plan.now.placing.placements
        (after_stops (V.world view.now) snapshot.now.namespace plan.now.stops)
        (nodes_in plan.now.placing.placements)) }
{
    let quota = view.quota(&snapshot.namespace);
    let placements = plan.placing.placements.as_slice();
    so_far.used = use_of(view, &snapshot.namespace, stops, quota);
    let mut decided = Flags::new();
    for placement in placements {
        let node = placement.node;
        if !decided.has(node) {
            decided.flag(node);
            let load = load_at(view, snapshot, stops, loads, node);
            let part = part_at(gathered, placements, node);
            decide(view, snapshot, plan, stops, quota, node, part, load, so_far);
        }
    }
}

/// Decides as `decide_each` does, and first gathers the parts of all nodes. They take much stack, so this function is not
/// inlined into its caller.
#[inline(never)]
fn decide_many<V: View>(
    view: &V,
    snapshot: &Snapshot,
    plan: &Plan,
    stops: &Marked<'_>,
    loads: Option<&[Resources; 1000]>,
    so_far: &mut SoFar,
)
    requires counted { AreCounted (V.world view.now) }
    requires fits { IsOnFewNodes snapshot.now plan.now }
    requires stops { stops.now ≡ plan.now.stops }
    requires loads { IfSome loads (λ loads. AreLoads
        (after_stops (V.world view.now) snapshot.now.namespace stops.now)
        snapshot.now loads.now) }
    requires undecided { IsUndecided so_far.old }
    ensures { IsDecided so_far.new.committed.items so_far.new.dropped.items (read_all snapshot.now
        plan.now.placing.placements
        (after_stops (V.world view.now) snapshot.now.namespace plan.now.stops)
        (nodes_in plan.now.placing.placements)) }
{
    let parts = parts_of(snapshot, plan);
    decide_each(view, snapshot, plan, stops, loads, Some(&parts), so_far);
}

/// Up to this many placements are walked over once for each of their nodes. If there are more, the parts of all nodes are
/// gathered in one walk.
const FEW: usize = 16;

/// Decides as `decide_each` does, and first gathers the parts of all nodes if there are many placements.
fn decide_by_parts<V: View>(
    view: &V,
    snapshot: &Snapshot,
    plan: &Plan,
    stops: &Marked<'_>,
    loads: Option<&[Resources; 1000]>,
    so_far: &mut SoFar,
)
    requires counted { AreCounted (V.world view.now) }
    requires fits { IsOnFewNodes snapshot.now plan.now }
    requires stops { stops.now ≡ plan.now.stops }
    requires loads { IfSome loads (λ loads. AreLoads
        (after_stops (V.world view.now) snapshot.now.namespace stops.now)
        snapshot.now loads.now) }
    requires undecided { IsUndecided so_far.old }
    ensures { IsDecided so_far.new.committed.items so_far.new.dropped.items (read_all snapshot.now
        plan.now.placing.placements
        (after_stops (V.world view.now) snapshot.now.namespace plan.now.stops)
        (nodes_in plan.now.placing.placements)) }
{
    if plan.placing.placements.as_slice().len() <= FEW {
        decide_each(view, snapshot, plan, stops, loads, None, so_far);
    } else {
        decide_many(view, snapshot, plan, stops, loads, so_far);
    }
}

/// Decides as `decide_by_parts` does, and first gathers the loads of all nodes after the stops. They take much stack too.
#[inline(never)]
fn decide_loaded<V: View>(
    view: &V,
    snapshot: &Snapshot,
    plan: &Plan,
    stops: &Marked<'_>,
    so_far: &mut SoFar,
)
    requires counted { AreCounted (V.world view.now) }
    requires fits { IsOnFewNodes snapshot.now plan.now }
    requires stops { stops.now ≡ plan.now.stops }
    requires undecided { IsUndecided so_far.old }
    ensures { IsDecided so_far.new.committed.items so_far.new.dropped.items (read_all snapshot.now
        plan.now.placing.placements
        (after_stops (V.world view.now) snapshot.now.namespace plan.now.stops)
        (nodes_in plan.now.placing.placements)) }
{
    let loads = loads_of(view, snapshot, plan, stops);
    decide_by_parts(view, snapshot, plan, stops, Some(&loads), so_far);
}

/// Up to this many look-ups of stops, one for each stop and placement, are made node by node. If there would be more, the loads
/// of all nodes are gathered first.
const FEW_LOOKUPS: usize = 2_000;

/// Decides for each node of the plan whether it does its part. Nothing may be decided before.
pub(crate) fn decide_all<V: View>(view: &V, snapshot: &Snapshot, plan: &Plan, so_far: &mut SoFar)
    requires counted { AreCounted (V.world view.now) }
    requires fits { IsOnFewNodes snapshot.now plan.now }
    requires undecided { IsUndecided so_far.old }
    ensures { IsDecided so_far.new.committed.items so_far.new.dropped.items (read_all snapshot.now
        plan.now.placing.placements
        (after_stops (V.world view.now) snapshot.now.namespace plan.now.stops)
        (nodes_in plan.now.placing.placements)) }
{
    let stops = Marked::new(plan.stops.as_slice());
    let placements = plan.placing.placements.as_slice().len();
    if placements.saturating_mul(stops.as_slice().len()) <= FEW_LOOKUPS {
        decide_by_parts(view, snapshot, plan, &stops, None, so_far);
    } else {
        decide_loaded(view, snapshot, plan, &stops, so_far);
    }
}
