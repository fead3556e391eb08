//! A node that registers what it offers.

ghost use Rattle.std.specs.Prelude.{◌≡◌, ◌&&◌, false, is_none, nat_le, option_copied};
ghost use Rattle.std.specs.FinMap.{len};
ghost use Rattle.keyed.specs.Table.{rows};
ghost use Rattle.ns_types.specs.declared.step.NodeCommand.TheVariants as NodeCommand;
ghost use Rattle.ns_types.specs.Asking.Nodes.{ask_pool, most_nodes, with_offer};
ghost use Rattle.ns_types.specs.State.Sums.{node_load};
ghost use Rattle.ns_types.specs.Steps.{is_past_bound};
ghost use Rattle.ns_change.specs.Prepared.{Prepares, bounded};
ghost use Rattle.ns_tables.specs.World.{world_of};

use crate::bounds::registering_passes;
use crate::prepared::put_alone;
use keyed::NameTable;
use ns_change::{Prepared, copied_offer};
use ns_tables::Tables;
use ns_types::node::{Node, NodeStatus, Offer};
use ns_types::refusal::Refusal;
use ns_types::resources::{Resources, is_within};
use ns_types::text::Text;

/// The greatest number of nodes in a pool.
const MOST_NODES: usize = 1000;

/// The node with the offer. A new node is ready and eligible. A node that is there keeps all else.
fn with_offer(offer: Offer, old: Option<&Node>) -> Node
    ensures { result ≡ with_offer offer (option_copied old.entry) }
{
    match old {
        Some(old) => Node {
            offer,
            status: old.status,
            eligible: old.eligible,
            places: old.places,
        },
        None => Node {
            offer,
            status: NodeStatus::Ready,
            eligible: true,
            places: 0,
        },
    }
}

/// Whether the node is new, and its pool can have no more nodes.
fn is_full(nodes: &NameTable<Node>, old: Option<&Node>) -> bool
    ensures { result ≡ (is_none (option_copied old.entry)
        && nat_le most_nodes (len (rows nodes.now))) }
{
    old.is_none() && MOST_NODES <= nodes.len()
}

/// Prepares the registration of a node, for the first time or again. `load` is what the live allocations on the node take
/// together. `NotFound`: there is no such pool. `InUse`: the node offers less than the load. `Full`: the node is new, and the
/// pool has 1,000 nodes; or a counter would pass its bound, because the node gives room. In this order. Want of memory comes
/// last.
pub fn register_node(
    tables: &Tables,
    pool: &Text,
    name: &Text,
    offer: &Offer,
    load: Resources,
) -> Result<Prepared, Refusal>
    requires load { load ≡ node_load (world_of tables.now) pool.now name.now }
    requires bounds { is_past_bound (world_of tables.now) ≡ false }
    ensures { let w = world_of tables.now in
        let outcome = ask_pool pool.now (NodeCommand.PutNode name.now offer.now) w in
        Prepares (bounded w outcome) tables.now result }
{
    let Some(stored) = tables.pools.get(pool) else {
        return Err(Refusal::NotFound);
    };
    if !is_within(load, offer.capacity) {
        return Err(Refusal::InUse);
    }
    let old = stored.nodes.get(name);
    if is_full(&stored.nodes, old) {
        return Err(Refusal::Full);
    }
    if registering_passes(tables, pool, offer, old) {
        return Err(Refusal::Full);
    }
    let row = with_offer(copied_offer(offer)?, old);
    put_alone(tables, pool, name, row)
}
