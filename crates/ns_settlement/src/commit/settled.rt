//! Puts all that a settled step changes into the tables, and into the index of live allocations beside them. The index forgets
//! what it last showed of a node that changes.

ghost use Rattle.std.specs.Prelude.{◌≡◌, OnErr, OnOk};
ghost use Rattle.ns_change.specs.Settled.{settled_world};
ghost use Rattle.ns_settlement.specs.Committed.{AreCleared, Fits, HasRoom};
ghost use Rattle.ns_settlement.specs.Indexed.{HasIndexRoom};
ghost use Rattle.ns_live_index.specs.Index.{IsRight, KeepsKeys};
ghost use Rattle.ns_live_index.specs.Shown.{KeepsShown};
ghost use Rattle.ns_tables.specs.World.{world_of};

use crate::commit::indexing::{commit_index, forget_nodes, reserve_index};
use crate::commit::lists::{clear_list, commit_list, reserve_list};
use crate::commit::owners::{clear_all, commit_all, reserve_all};
use crate::commit::pools::{commit_pools, reserve_pools};
use crate::commit::quotas::commit_quotas;
use ns_change::Settled;
use ns_live_index::Live;
use ns_tables::Tables;
use std::alloc::AllocError;

/// Makes room for all that a settled step changes. If no memory is left, it stops there.
fn reserve_parts(tables: &mut Tables, live: &mut Live, settled: &Settled) -> Result<(), AllocError>
    requires { Fits (world_of tables.old) settled.now }
    ensures world { world_of tables.new ≡ world_of tables.old }
    ensures keys { KeepsKeys live.old live.new }
    ensures shown { KeepsShown live.old live.new }
    ensures room { OnOk result (HasRoom settled.now tables.new) }
    ensures index_room { OnOk result (HasIndexRoom settled.now.tenants live.new) }
{
    reserve_index(live, &settled.tenants)?;
    reserve_all(&mut tables.tenants, &settled.tenants)?;
    reserve_pools(&mut tables.pools, &settled.pools, settled.rooms.as_slice())?;
    reserve_list(&mut tables.ready, &settled.ready)?;
    reserve_list(&mut tables.plans, &settled.plans)?;
    reserve_list(&mut tables.blocked, &settled.blocked)
}

/// Takes the vacant slots of all that was to change out again.
fn clear(tables: &mut Tables, settled: &Settled)
    ensures world { world_of tables.new ≡ world_of tables.old }
    ensures cleared { AreCleared settled.now tables.new }
{
    clear_all(&mut tables.tenants, &settled.tenants);
    clear_all(&mut tables.pools, &settled.pools);
    clear_list(&mut tables.ready, &settled.ready);
    clear_list(&mut tables.plans, &settled.plans);
    clear_list(&mut tables.blocked, &settled.blocked);
}

/// Makes room for all that a settled step changes. Want of memory is the only error: then no changed row of a namespace and no
/// changed node has a vacant slot, but room in lists and in the index may be left. The world, the index's keys and the shown
/// nodes stay as they are.
pub fn reserve(tables: &mut Tables, live: &mut Live, settled: &Settled) -> Result<(), AllocError>
    requires { Fits (world_of tables.old) settled.now }
    ensures world { world_of tables.new ≡ world_of tables.old }
    ensures keys { KeepsKeys live.old live.new }
    ensures shown { KeepsShown live.old live.new }
    ensures room { OnOk result (HasRoom settled.now tables.new) }
    ensures index_room { OnOk result (HasIndexRoom settled.now.tenants live.new) }
    ensures cleared { OnErr result (AreCleared settled.now tables.new) }
{
    if let Err(refused) = reserve_parts(tables, live, settled) {
        clear(tables, settled);
        return Err(refused);
    }
    Ok(())
}

/// Moves all that a settled step changes into the tables. An index that was right for the tables stays right. It takes no
/// memory.
pub fn commit(tables: &mut Tables, live: &mut Live, settled: Settled)
    requires room { HasRoom settled tables.old }
    requires index_room { HasIndexRoom settled.tenants live.old }
    ensures world { world_of tables.new ≡ settled_world (world_of tables.old) settled }
    ensures index { IsRight (world_of tables.old) live.old →
        IsRight (world_of tables.new) live.new }
{
    let Settled {
        tenants,
        pools,
        quotas,
        ready,
        plans,
        blocked,
        rooms,
        released,
    } = settled;
    commit_index(live, &tables.tenants, &tenants);
    forget_nodes(live, &pools);
    commit_all(&mut tables.tenants, tenants);
    commit_pools(&mut tables.pools, pools, rooms);
    commit_quotas(&mut tables.quotas, quotas, released.as_slice());
    commit_list(&mut tables.ready, ready);
    commit_list(&mut tables.plans, plans);
    commit_list(&mut tables.blocked, blocked);
    drop(released);
}
