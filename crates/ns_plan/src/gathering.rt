//! What a plan does on each node, gathered in one walk over its placements.

ghost use Rattle.std.specs.Prelude.{◌≡◌, ◌+◌, ◌<◌, ◌≤◌, ◌++◌, ◌∷◌, [], ℕ, IfSome, List, length};
ghost use Rattle.ns_types.specs.declared.plan.Placement.{Placement};
ghost use Rattle.ns_types.specs.Working.Commit.{part_of};
ghost use Rattle.ns_plan.specs.Gathered.{AreParts, IsPart};
ghost use Rattle.ns_plan.specs.Looks.{IsOnFewNodes};
ghost use Rattle.ns_plan.specs.Reader.{evictions_of};

use ns_types::plan::{Placement, Plan};
use ns_types::resources::{Amount, add, amount_of, none};
use ns_types::snapshot::Snapshot;

/// The placements on one node.
#[derive(Clone, Copy)]
pub(crate) struct NodePart {
    /// What the placements take together.
    pub(crate) size: Amount,
    /// The place in the plan of the first placement that evicts something.
    pub(crate) start: usize,
    /// The place behind the last placement that evicts something.
    pub(crate) end: usize,
}

fn no_part() -> NodePart
    ensures { (k : ℕ) → IsPart k [] result }
{
    NodePart {
        size: amount_of(none()),
        start: 0,
        end: 0,
    }
}

/// The part together with the next placement, which is on the node. `end` is the place behind that placement.
fn with_next(part: NodePart, placement: &Placement, end: usize) -> NodePart
    requires { 0 < end }
    ensures { (before : List Placement) → end ≡ length before + 1 →
        IsPart placement.now.node before part →
        IsPart placement.now.node (before ++ placement.now ∷ []) result }
{
    let size = add(part.size, amount_of(placement.size));
    if placement.evictions.as_slice().is_empty() {
        NodePart { size, ..part }
    } else if part.end == 0 {
        NodePart {
            size,
            start: end - 1,
            end,
        }
    } else {
        NodePart { size, end, ..part }
    }
}

/// The part of the node, by a walk over all placements.
fn part_of(placements: &[Placement], node: u64) -> NodePart
    ensures { IsPart node placements.now result }
{
    let mut part = no_part();
    for i in 0..placements.len() {
        let placement = &placements[i];
        if placement.node == node {
            part = with_next(part, placement, i + 1);
        }
    }
    part
}

/// The part of the node. It is looked up if the parts of all nodes were gathered; else it costs a walk over all placements.
pub(crate) fn part_at(
    gathered: Option<&[NodePart; 1000]>,
    placements: &[Placement],
    node: u64,
) -> NodePart
    requires small { node < 1000 }
    requires right { IfSome gathered (λ parts. AreParts placements.now parts.now) }
    ensures { IsPart node placements.now result }
{
    match gathered {
        Some(parts) => parts[node as usize],
        None => part_of(placements, node),
    }
}

/// The part of each node, by the node's place.
pub(crate) fn parts_of(snapshot: &Snapshot, plan: &Plan) -> [NodePart; 1000]
    requires { IsOnFewNodes snapshot.now plan.now }
    ensures { AreParts plan.now.placing.placements result }
{
    let placements = plan.placing.placements.as_slice();
    let mut parts = [no_part(); 1000];
    for i in 0..placements.len() {
        let placement = &placements[i];
        let node = placement.node as usize;
        parts[node] = with_next(parts[node], placement, i + 1);
    }
    parts
}

/// The placements from the node's first one that evicts something to its last one that does.
pub(crate) fn evicting(placements: &[Placement], part: NodePart) -> &[Placement]
    requires order { part.start ≤ part.end }
    requires inside { part.end ≤ length placements.now }
    ensures { (k : ℕ) → IsPart k placements.now part →
        evictions_of (part_of k result.now) ≡ evictions_of (part_of k placements.now) }
{
    &placements[part.start..part.end]
}
