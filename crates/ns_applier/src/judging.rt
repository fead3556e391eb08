//! Whether what is done of a plan passes the bound of a counter. It takes no memory.

ghost use Rattle.std.specs.Prelude.{◌≡◌, false};
ghost use Rattle.ns_types.specs.Steps.{is_past_bound};
ghost use Rattle.ns_applier.specs.HeadroomApplying.{apply_passes};
ghost use Rattle.ns_applier.specs.Judging.{doing};
ghost use Rattle.ns_live_index.specs.Index.{IsRight};
ghost use Rattle.ns_plan.specs.Looks.{IsOnFewNodes};
ghost use Rattle.ns_renewal.specs.Counted.{counted_of};
ghost use Rattle.ns_renewal.specs.Losing.{numbers_pass, victims_at};
ghost use Rattle.ns_applier.specs.Losing.{is_victim};
ghost use Rattle.ns_plan.specs.After.{after_stops};
ghost use Rattle.ns_tables.specs.World.{world_of};

use crate::headroom::{Headroom, lost_part_passes, own_part_passes};
use crate::losing::Evicting;
use crate::view::Present;
use ns_live_index::Live;
use ns_place::marking::{Marked, Places};
use ns_renewal::{CountedEvictions, numbers_pass};
use ns_tables::Tables;
use ns_types::plan::Plan;
use ns_types::snapshot::Snapshot;

/// Whether a namespace has too few numbers for an evaluation of each of its jobs that lose an allocation.
fn evaluations_pass(
    tables: &Tables,
    present: &Present<'_>,
    snapshot: &Snapshot,
    plan: &Plan,
    nodes: &Places<'_>,
) -> bool
    requires same { present.now ≡ world_of tables.now }
    requires within { is_past_bound (world_of tables.now) ≡ false }
    ensures { let w = world_of tables.now in
        let stopped = after_stops w snapshot.now.namespace plan.now.stops in
        let counted = counted_of (is_victim stopped snapshot.now nodes.now) in
        result ≡ numbers_pass (victims_at w (counted plan.now.placing.placements)) w }
{
    let stops = Marked::new(plan.stops.as_slice());
    let evicting = Evicting {
        present,
        snapshot,
        stops: &stops,
        nodes,
    };
    let placements = plan.placing.placements.as_slice();
    numbers_pass(tables, CountedEvictions::new(placements, evicting))
}

/// Whether a counter passes its bound once the plan is done on the committed nodes, which `nodes` has by their places
/// in the snapshot: the number of an allocation, an evaluation, a place or a release, or an index.
pub(crate) fn passes(
    tables: &Tables,
    live: &Live,
    snapshot: &Snapshot,
    plan: &Plan,
    nodes: &Places<'_>,
) -> bool
    requires right { IsRight (world_of tables.now) live.now }
    requires within { is_past_bound (world_of tables.now) ≡ false }
    requires few { IsOnFewNodes snapshot.now plan.now }
    ensures { let w = world_of tables.now in
        result ≡ apply_passes w snapshot.now (doing w snapshot.now plan.now nodes.now) }
{
    let headroom = Headroom::new(tables, plan);
    let present = Present::new(tables, live);
    if evaluations_pass(tables, &present, snapshot, plan, nodes) {
        return true;
    }
    if own_part_passes(&headroom, snapshot, plan, nodes) {
        return true;
    }
    lost_part_passes(&headroom, &present, snapshot, plan, nodes)
}
