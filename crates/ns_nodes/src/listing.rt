//! The nodes of a pool.

ghost use Rattle.std.specs.Prelude.{◌≡◌, ◌++◌, flat_map, IfOk, OnOk};
ghost use Rattle.ns_types.specs.declared.step.NodeCommand.TheVariants as NodeCommand;
ghost use Rattle.ns_types.specs.Asking.Nodes.{ask_pool};
ghost use Rattle.ns_types.specs.Settling.Outcome.{Changes};
ghost use Rattle.ns_types.specs.State.Rows.{World};
ghost use Rattle.ns_live_index.specs.Index.{IsRight};
ghost use Rattle.ns_nodes.specs.Listed.{LoadsFit, node_shown, shown_at};
ghost use Rattle.ns_tables.specs.World.{world_of};

use keyed::NameSlot;
use ns_change::copied_node;
use ns_live_index::Live;
use ns_tables::Tables;
use ns_types::node::Node;
use ns_types::refusal::Refusal;
use ns_types::reply::{Content, NodeShown};
use ns_types::rows::Rows;
use ns_types::text::Text;
use std::alloc::AllocError;

fn node_shown(live: &Live, pool: &Text, name: &Text, node: &Node) -> Result<NodeShown, AllocError>
    ensures { (w : World) → IsRight w live.now → LoadsFit w pool.now →
        IfOk result (λ shown. shown ≡ node_shown w pool.now (name.now, node.now)) }
{
    Ok(NodeShown {
        pool: pool.clone()?,
        name: name.clone()?,
        row: copied_node(node)?,
        used: live.load(pool, name),
    })
}

fn add_shown(
    shown: &mut Rows<NodeShown>,
    live: &Live,
    pool: &Text,
    slot: &NameSlot<Node>,
) -> Result<(), AllocError>
    ensures { (w : World) → IsRight w live.now → LoadsFit w pool.now →
        OnOk result (shown.new ≡ shown.old ++ shown_at w pool.now slot.now) }
{
    if let Some(node) = &slot.1 {
        shown.push(node_shown(live, pool, &slot.0, node)?)?;
    }
    Ok(())
}

fn add_all_shown(
    shown: &mut Rows<NodeShown>,
    live: &Live,
    pool: &Text,
    slots: &[NameSlot<Node>],
) -> Result<(), AllocError>
    ensures { (w : World) → IsRight w live.now → LoadsFit w pool.now →
        OnOk result (shown.new ≡ shown.old ++ flat_map (shown_at w pool.now) slots.now) }
{
    for slot in slots {
        add_shown(shown, live, pool, slot)?;
    }
    Ok(())
}

/// The pool's nodes, by name, each with what the live allocations on it take together. `NotFound`: there is no such pool.
/// The premises are that the index of live allocations is right, and that each node's load fits 64 bits.
pub fn list_nodes(tables: &Tables, live: &Live, pool: &Text) -> Result<Content, Refusal>
    requires right { IsRight (world_of tables.now) live.now }
    requires fits { LoadsFit (world_of tables.now) pool.now }
    ensures { let w = world_of tables.now in
        Changes (ask_pool pool.now NodeCommand.ListNodes w) w result w }
{
    let Some(stored) = tables.pools.get(pool) else {
        return Err(Refusal::NotFound);
    };
    let mut shown = Rows::new(tables.alloc);
    add_all_shown(&mut shown, live, pool, stored.nodes.as_slice())?;
    Ok(Content::Nodes(shown))
}
