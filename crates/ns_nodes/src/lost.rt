//! Allocations that are lost with their node.

ghost use Rattle.std.specs.Prelude.{◌≡◌, ◌++◌, flat_map, IfOk, OnOk};
ghost use Rattle.ns_types.specs.Asking.Nodes.{lose};
ghost use Rattle.ns_types.specs.Settling.Gone.{rows_gone};
ghost use Rattle.ns_change.specs.Changed.{Does, view};
ghost use Rattle.ns_live_index.specs.Index.{IsRight};
ghost use Rattle.ns_nodes.specs.Losing.{IsLiveSet, lost_row, slot_key, slot_keys};
ghost use Rattle.ns_tables.specs.World.{world_of};

use keyed::{NameSlot, NumberSlot, NumberTable};
use ns_change::{Change, set_client};
use ns_live_index::Live;
use ns_tables::Tables;
use ns_types::allocation::ClientStatus;
use ns_types::key::EvalKey;
use ns_types::rows::Rows;
use ns_types::text::Text;
use std::alloc::AllocError;

fn add_slot(
    keys: &mut Rows<EvalKey>,
    namespace: &Text,
    slot: &NumberSlot<()>,
) -> Result<(), AllocError>
    ensures { OnOk result (keys.new ≡ keys.old ++ slot_key namespace.now slot.now) }
{
    if slot.1.is_some() {
        keys.push(EvalKey::new(namespace.clone()?, slot.0))?;
    }
    Ok(())
}

fn add_slots(
    keys: &mut Rows<EvalKey>,
    namespace: &Text,
    slots: &[NumberSlot<()>],
) -> Result<(), AllocError>
    ensures { OnOk result (keys.new ≡ keys.old ++ flat_map (slot_key namespace.now) slots.now) }
{
    for slot in slots {
        add_slot(keys, namespace, slot)?;
    }
    Ok(())
}

fn add_namespace(
    keys: &mut Rows<EvalKey>,
    slot: &NameSlot<NumberTable<()>>,
) -> Result<(), AllocError>
    ensures { OnOk result (keys.new ≡ keys.old ++ slot_keys slot.now) }
{
    if let Some(numbers) = &slot.1 {
        add_slots(keys, &slot.0, numbers.as_slice())?;
    }
    Ok(())
}

fn add_namespaces(
    keys: &mut Rows<EvalKey>,
    slots: &[NameSlot<NumberTable<()>>],
) -> Result<(), AllocError>
    ensures { OnOk result (keys.new ≡ keys.old ++ flat_map slot_keys slots.now) }
{
    for slot in slots {
        add_namespace(keys, slot)?;
    }
    Ok(())
}

/// The keys of the live allocations on the node.
fn live_keys(
    tables: &Tables,
    live: &Live,
    pool: &Text,
    node: &Text,
) -> Result<Rows<EvalKey>, AllocError>
    requires { IsRight (world_of tables.now) live.now }
    ensures { IfOk result (λ keys. IsLiveSet (world_of tables.now) pool.now node.now keys) }
{
    let mut keys = Rows::new(tables.alloc);
    let Some(held) = live.keys_on(pool, node) else {
        return Ok(keys);
    };
    add_namespaces(&mut keys, held.as_slice())?;
    Ok(keys)
}

fn lose_each(tables: &Tables, change: &mut Change, keys: &[EvalKey]) -> Result<(), AllocError>
    ensures { Does result tables.now change.old change.new (λ w. rows_gone lost_row w keys.now) }
{
    for key in keys {
        set_client(tables, change, key, ClientStatus::Lost)?;
    }
    Ok(())
}

/// Marks the live allocations on the node as lost. The premises are that no namespace was changed before, and that the index
/// is right. Its work grows only with the number of these allocations.
pub(crate) fn lose(
    tables: &Tables,
    live: &Live,
    change: &mut Change,
    pool: &Text,
    node: &Text,
) -> Result<(), AllocError>
    requires first { (view tables.now change.old).tenants ≡ (world_of tables.now).tenants }
    requires right { IsRight (world_of tables.now) live.now }
    ensures { Does result tables.now change.old change.new (lose pool.now node.now) }
{
    let keys = live_keys(tables, live, pool, node)?;
    lose_each(tables, change, keys.as_slice())
}
