//! The placements of a plan.

ghost use Rattle.std.specs.Prelude.{◌≡◌, ◌+◌, ◌<◌, ◌^◌, IfOk, Some};
ghost use Rattle.ns_types.specs.Working.Commit.{group_name, new_allocation, node_name, place_all, place_one};
ghost use Rattle.ns_plan_result.specs.Placing.{CanPlace};
ghost use Rattle.ns_types.specs.Working.Parts.{placed_on};
ghost use Rattle.ns_change.specs.Changed.{Does, HasAllocationLeft, HasPlaceLeft, view};

use crate::committed::Committed;
use crate::looking::node_name;
use ns_change::{Change, add_allocation, count_place, node};
use ns_tables::Tables;
use ns_types::allocation::{Allocation, ClientStatus, DesiredStatus};
use ns_types::job::Job;
use ns_types::node::Node;
use ns_types::plan::Placement;
use ns_types::snapshot::Snapshot;
use ns_types::text::Text;
use std::alloc::{AllocError, Global};

fn group_name(alloc: Global, job: &Job, group: u64) -> Result<Text, AllocError>
    ensures { IfOk result (λ name. name ≡ group_name job.now group) }
{
    match job.document.get().groups.as_slice().get(group as usize) {
        Some(group) => group.name.clone(),
        None => Ok(Text::from_string(String::new(alloc))),
    }
}

/// The new allocation's row. `node` is its node as it is before the placement.
fn new_allocation(
    alloc: Global,
    snapshot: &Snapshot,
    job: &Job,
    placement: &Placement,
    name: &Text,
    node: &Node,
) -> Result<Allocation, AllocError>
    requires name { name.now ≡ node_name snapshot.now placement.now.node }
    requires place { node.now.places + 1 < 2 ^ 64 }
    ensures { IfOk result
        (λ row. row ≡ new_allocation snapshot.now job.now placement.now node.now) }
{
    Ok(Allocation {
        job: snapshot.evaluation.job.clone()?,
        group: group_name(alloc, job, placement.group)?,
        evaluation: snapshot.number,
        pool: snapshot.pool.clone()?,
        node: name.clone()?,
        place: node.places + 1,
        size: placement.size,
        priority: job.document.get().priority,
        job_modify_index: job.modify_index,
        desired: DesiredStatus::Run,
        client: ClientStatus::Pending,
        create_index: 0,
        modify_index: 0,
    })
}

fn place_one(
    tables: &Tables,
    change: &mut Change,
    snapshot: &Snapshot,
    job: &Job,
    placement: &Placement,
) -> Result<(), AllocError>
    requires job { snapshot.now.job ≡ Some job.now }
    requires number { HasAllocationLeft (view tables.now change.old) snapshot.now.namespace }
    requires place { HasPlaceLeft (view tables.now change.old)
        snapshot.now.pool (node_name snapshot.now placement.now.node) }
    ensures { Does result tables.now change.old change.new
        (λ w. place_one snapshot.now w placement.now) }
{
    let nameless = Text::from_string(String::new(tables.alloc));
    let name = node_name(snapshot, placement.node, &nameless);
    let Some(node) = node(tables, change, &snapshot.pool, name) else {
        return Ok(());
    };
    let row = new_allocation(tables.alloc, snapshot, job, placement, name, node)?;
    add_allocation(tables, change, &snapshot.namespace, row)?;
    count_place(tables, change, &snapshot.pool, name)
}

fn place_all(committed: &Committed, change: &mut Change, job: &Job) -> Result<(), AllocError>
    requires job { committed.now.snapshot.now.job ≡ Some job.now }
    requires left { let placements = committed.now.plan.now.placing.placements in
        let placed = placed_on committed.now.nodes.now placements in
        CanPlace committed.now.snapshot.now placed (view committed.now.tables.now change.old) }
    ensures { let placements = committed.now.plan.now.placing.placements in
        let placed = placed_on committed.now.nodes.now placements in
        Does result committed.now.tables.now change.old change.new
        (λ w. place_all committed.now.snapshot.now w placed) }
{
    for placement in committed.plan.placing.placements.as_slice() {
        if committed.nodes.has(placement.node) {
            place_one(committed.tables, change, committed.snapshot, job, placement)?;
        }
    }
    Ok(())
}

/// Makes the plan's placements on the nodes that do their part, in the plan's order. Each becomes a new allocation: it is
/// pending, and has the next number of the snapshot's namespace and the next place of its node. It costs a few look-ups for
/// each placement, and the copy of a node for the first placement there.
pub(crate) fn place(committed: &Committed, change: &mut Change) -> Result<(), AllocError>
    requires { let placements = committed.now.plan.now.placing.placements in
        let placed = placed_on committed.now.nodes.now placements in
        CanPlace committed.now.snapshot.now placed (view committed.now.tables.now change.old) }
    ensures { let placements = committed.now.plan.now.placing.placements in
        let placed = placed_on committed.now.nodes.now placements in
        Does result committed.now.tables.now change.old change.new
        (λ w. place_all committed.now.snapshot.now w placed) }
{
    match &committed.snapshot.job {
        Some(job) => place_all(committed, change, job),
        None => Ok(()),
    }
}
