//! Decides which parts of a plan are done.

ghost use Rattle.std.specs.Prelude.{◌≡◌, []};
ghost use Rattle.ns_types.specs.Working.Commit.{nodes_in};
ghost use Rattle.ns_plan.specs.Looks.{AreCounted, IsChecked, IsOnFewNodes};

use crate::deciding::{SoFar, decide_all, undecided};
use crate::stops::stands;
use crate::view::View;
use arrayvec::ArrayVec;
use ns_place::marking::Flags;
use ns_types::plan::Plan;
use ns_types::snapshot::Snapshot;
use std::marker::Model;

/// What is decided of a plan. Contracts see it as a `Decision`.
#[derive(Drop)]
pub struct Outcome {
    is_refused: bool,
    decided: SoFar,
}

impl Model for Outcome {
    ghost use Rattle.ns_plan.specs.Looks;

    ghost Value = { Looks.Decision };

    ghost view = { λ o. record {
      is_refused = o.is_refused;
      committed = o.decided.committed.items;
      dropped = o.decided.dropped.items;
    } };
}

impl Outcome {
    ghost use Rattle.std.specs.Prelude.{◌≡◌};

    /// Whether the plan no longer stands: nothing of it is done, and all its nodes are dropped.
    pub fn is_refused(&self) -> bool
        ensures { result ≡ self.now.is_refused }
    {
        self.is_refused
    }

    /// Places of the nodes that do their part, in the order of first placement.
    pub fn committed(&self) -> &[u16]
        ensures { result.now ≡ self.now.committed }
    {
        self.decided.committed.as_slice()
    }

    /// Places of the nodes that do nothing of their part, in the order of first placement.
    pub fn dropped(&self) -> &[u16]
        ensures { result.now ≡ self.now.dropped }
    {
        self.decided.dropped.as_slice()
    }
}

/// Lists the places of the placements' nodes, each once, in the order of first placement.
fn list_nodes(snapshot: &Snapshot, plan: &Plan, nodes: &mut ArrayVec<u16, 1000>)
    requires fits { IsOnFewNodes snapshot.now plan.now }
    requires none { nodes.old.items ≡ [] }
    ensures { nodes.new.items ≡ nodes_in plan.now.placing.placements }
{
    let mut seen = Flags::new();
    for placement in plan.placing.placements.as_slice() {
        let node = placement.node;
        if !seen.has(node) {
            seen.flag(node);
            nodes.push(node as u16);
        }
    }
}

/// Checks the plan of the snapshot against the present state: whether it stands, and node by node whether all of its
/// part is done or none. It takes no memory and writes nothing.
///
/// The plan's stops of live allocations count, and no others (`live_stops`). `victims` lists the evictions of the nodes that do
/// their part.
///
/// It walks over the placements twice; if there are at most 16, it walks over them once, and once more for each of their nodes.
/// It looks each stop up once with its node, and reads the load of each node of the snapshot; if there are few stops and
/// placements, it looks each stop up for each node of the plan instead, and reads the load of these nodes alone. For each node
/// of the plan it walks from the node's first placement that evicts to the last one. It looks each eviction up once, and also
/// among the stops if it is of the snapshot's namespace; for each eviction that counts it walks from the node's first placement
/// that evicts to the eviction. It reads the quota's use once, with a look-up for each stop.
///
/// This holds for stops that rise, as those of a job that is gone or replaced do. For others each look-up among the stops is a
/// walk.
pub fn check<V: View>(snapshot: &Snapshot, plan: &Plan, view: &V) -> Outcome
    requires counted { AreCounted (V.world view.now) }
    requires fits { IsOnFewNodes snapshot.now plan.now }
    ensures { IsChecked snapshot.now plan.now (V.world view.now) result }
{
    let job = view.job(&snapshot.namespace, &snapshot.evaluation.job);
    let mut outcome = Outcome {
        is_refused: !stands(snapshot.job.as_ref(), job),
        decided: undecided(),
    };
    if outcome.is_refused {
        list_nodes(snapshot, plan, &mut outcome.decided.dropped);
    } else {
        decide_all(view, snapshot, plan, &mut outcome.decided);
    }
    outcome
}
