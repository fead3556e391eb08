//! The nodes of a pool, with their live allocations. A node that did not change since it was last shown is shared. A node that
//! only gained allocations is made from what was shown of it.

ghost use Rattle.std.specs.Prelude.{◌≡◌, ◌++◌, IfOk, OnOk, Some, flat_map};
ghost use Rattle.ns_types.specs.State.Rows.{node_at};
ghost use Rattle.ns_types.specs.Working.Snapshot.{live_on, nodes_of};
ghost use Rattle.ns_live_index.specs.Index.{IsRight};
ghost use Rattle.ns_broker.specs.Seen.{AreNodesOf, IsNodeOf, IsSeenNode, node_at_slot};
ghost use Rattle.ns_tables.specs.World.{world_of};

use crate::snapshot::placed::live_on;
use keyed::NameSlot;
use ns_change::copied_node;
use ns_live_index::{Live, SeenNode};
use ns_tables::Tables;
use ns_types::node::Node;
use ns_types::rows::Rows;
use ns_types::shared::Shared;
use ns_types::snapshot::PoolNode;
use ns_types::text::Text;
use std::alloc::AllocError;

fn made_node(
    tables: &Tables,
    live: &Live,
    pool: &Text,
    name: &Text,
    row: &Node,
) -> Result<SeenNode, AllocError>
    requires { IsRight (world_of tables.now) live.now }
    ensures { IfOk result (λ seen.
        IsSeenNode (world_of tables.now) pool.now name.now row.now seen) }
{
    let copy = name.clone()?;
    let present = copied_node(row)?;
    let seen = live_on(tables, live, pool, name)?;
    seen.into_node(tables.alloc, copy, present)
}

/// The node as it was last shown. If it has changed since, it is made anew, and is the shown node from now on.
fn shared_node(
    tables: &Tables,
    live: &mut Live,
    pool: &Text,
    name: &Text,
    row: &Node,
) -> Result<Shared<PoolNode>, AllocError>
    requires right { IsRight (world_of tables.now) live.old }
    requires there { node_at (world_of tables.now) pool.now name.now ≡ Some row.now }
    ensures node { IfOk result (λ node. node ≡ record {
      name = name.now;
      row = row.now;
      live = live_on (world_of tables.now) pool.now name.now;
    }) }
    ensures right { IsRight (world_of tables.now) live.new }
{
    if let Some(node) = live.shown_at(pool, name) {
        return node.share();
    }
    let seen = made_node(tables, live, pool, name, row)?;
    let node = seen.node.share()?;
    live.show(pool, name, seen)?;
    Ok(node)
}

fn add_node(
    nodes: &mut Rows<Shared<PoolNode>>,
    tables: &Tables,
    live: &mut Live,
    pool: &Text,
    slot: &NameSlot<Node>,
) -> Result<(), AllocError>
    requires right { IsRight (world_of tables.now) live.old }
    requires there { IsNodeOf (world_of tables.now) pool.now slot.now }
    ensures nodes { OnOk result (nodes.new
        ≡ nodes.old ++ node_at_slot (world_of tables.now) pool.now slot.now) }
    ensures right { IsRight (world_of tables.now) live.new }
{
    if let Some(row) = &slot.1 {
        nodes.push(shared_node(tables, live, pool, &slot.0, row)?)?;
    }
    Ok(())
}

fn nodes_in(
    tables: &Tables,
    live: &mut Live,
    pool: &Text,
    slots: &[NameSlot<Node>],
) -> Result<Rows<Shared<PoolNode>>, AllocError>
    requires right { IsRight (world_of tables.now) live.old }
    requires there { AreNodesOf (world_of tables.now) pool.now slots.now }
    ensures nodes { IfOk result (λ nodes. nodes
        ≡ flat_map (node_at_slot (world_of tables.now) pool.now) slots.now) }
    ensures right { IsRight (world_of tables.now) live.new }
{
    let mut nodes = Rows::new(tables.alloc);
    for slot in slots {
        add_node(&mut nodes, tables, live, pool, slot)?;
    }
    Ok(nodes)
}

/// The nodes of the pool, by name; a pool that is not there has none. The premise is that the index is right for the tables,
/// and it stays right. A node that is shown already is shared, and the others are shown from now on.
pub(crate) fn nodes_of(
    tables: &Tables,
    live: &mut Live,
    pool: &Text,
) -> Result<Rows<Shared<PoolNode>>, AllocError>
    requires { IsRight (world_of tables.now) live.old }
    ensures nodes { IfOk result (λ nodes. nodes ≡ nodes_of (world_of tables.now) pool.now) }
    ensures right { IsRight (world_of tables.now) live.new }
{
    match tables.pools.get(pool) {
        Some(rows) => nodes_in(tables, live, pool, rows.nodes.as_slice()),
        None => Ok(Rows::new(tables.alloc)),
    }
}
