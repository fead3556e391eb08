//! Ends a step: settles its change, and puts it into the tables.

ghost use Rattle.std.specs.Prelude.{◌≡◌, false, IfOk, OnErr, OnOk};
ghost use Rattle.ns_types.specs.Settling.Settle.{settle};
ghost use Rattle.ns_types.specs.State.Rows.{World};
ghost use Rattle.ns_types.specs.Steps.{is_past_bound};
ghost use Rattle.ns_change.specs.Changed.{view};
ghost use Rattle.ns_change.specs.Settled.{settled_world};
ghost use Rattle.ns_settlement.specs.Committed.{Fits, HasRoom};
ghost use Rattle.ns_settlement.specs.Indexed.{HasIndexRoom};
ghost use Rattle.ns_settlement.specs.Concludes.{Concludes};
ghost use Rattle.ns_live_index.specs.Index as index;
ghost use Rattle.ns_live_index.specs.Index.{KeepsKeys};
ghost use Rattle.ns_live_index.specs.Shown.{KeepsShown};
ghost use Rattle.ns_queues.specs.Turns.{BringsComing, IsRight};
ghost use Rattle.ns_tables.specs.World.{world_of};

use crate::commit::commit;
use crate::settle;
use ns_change::{Change, Settled};
use ns_counters::is_past_bound;
use ns_live_index::Live;
use ns_queues::{Coming, Turns};
use ns_tables::Tables;
use ns_types::refusal::Refusal;
use std::alloc::AllocError;

/// Makes room for all that a settled step changes, and returns what it adds to `turns`. Want of memory is the only error.
fn reserve(
    tables: &mut Tables,
    live: &mut Live,
    turns: &mut Turns,
    settled: &Settled,
) -> Result<Coming, AllocError>
    requires { Fits (world_of tables.old) settled.now }
    ensures world { world_of tables.new ≡ world_of tables.old }
    ensures keys { KeepsKeys live.old live.new }
    ensures shown { KeepsShown live.old live.new }
    ensures turns { (w : World) → IsRight w turns.old → IsRight w turns.new }
    ensures room { OnOk result (HasRoom settled.now tables.new) }
    ensures index_room { OnOk result (HasIndexRoom settled.now.tenants live.new) }
    ensures coming { IfOk result (λ coming.
        BringsComing (world_of tables.old) settled.now coming turns.new) }
{
    let coming = turns.reserve(tables, settled)?;
    crate::commit::reserve(tables, live, settled)?;
    Ok(coming)
}

/// Moves all that a settled step changes into the tables, or nothing. Want of memory is the only error.
fn apply(
    tables: &mut Tables,
    live: &mut Live,
    turns: &mut Turns,
    settled: Settled,
) -> Result<(), AllocError>
    requires { Fits (world_of tables.old) settled }
    ensures ok { OnOk result (world_of tables.new ≡ settled_world (world_of tables.old) settled) }
    ensures index { index.IsRight (world_of tables.old) live.old →
        index.IsRight (world_of tables.new) live.new }
    ensures turns { IsRight (world_of tables.old) turns.old →
        IsRight (world_of tables.new) turns.new }
    ensures err { OnErr result (world_of tables.new ≡ world_of tables.old) }
    ensures keys { OnErr result (KeepsKeys live.old live.new) }
{
    match reserve(tables, live, turns, &settled) {
        Ok(coming) => {
            turns.follow(tables, &settled, coming);
            commit(tables, live, settled);
            Ok(())
        }
        Err(refused) => {
            drop(settled);
            Err(refused)
        }
    }
}

/// Settles the change and puts all of it into the tables, or nothing. Want of memory is the only error.
fn make(
    tables: &mut Tables,
    live: &mut Live,
    turns: &mut Turns,
    change: Change,
) -> Result<(), AllocError>
    requires right { IsRight (world_of tables.old) turns.old }
    requires within { is_past_bound (settle (world_of tables.old) (view tables.old change))
        ≡ false }
    ensures ok { OnOk result (world_of tables.new
        ≡ settle (world_of tables.old) (view tables.old change)) }
    ensures index { index.IsRight (world_of tables.old) live.old →
        index.IsRight (world_of tables.new) live.new }
    ensures turns { IsRight (world_of tables.new) turns.new }
    ensures err { OnErr result (world_of tables.new ≡ world_of tables.old) }
    ensures keys { OnErr result (KeepsKeys live.old live.new) }
{
    let settled = settle(tables, turns, change)?;
    apply(tables, live, turns, settled)
}

/// Ends a step, given its own change: settles the change and puts it into the tables. An index of live allocations that was
/// right for the tables stays right, and so do the indexes of `turns`. An error changes nothing. `Full`: a counter would pass
/// its bound, which is decided without memory. `Memory` comes last: without it the step would have been made.
pub fn conclude(
    tables: &mut Tables,
    live: &mut Live,
    turns: &mut Turns,
    change: Change,
) -> Result<(), Refusal>
    requires right { IsRight (world_of tables.old) turns.old }
    requires within { is_past_bound (world_of tables.old) ≡ false }
    ensures world { Concludes (world_of tables.old) (view tables.old change) result
        (world_of tables.new) }
    ensures index { index.IsRight (world_of tables.old) live.old →
        index.IsRight (world_of tables.new) live.new }
    ensures turns { IsRight (world_of tables.new) turns.new }
    ensures keys { OnErr result (KeepsKeys live.old live.new) }
{
    if is_past_bound(tables, &change) {
        drop(change);
        return Err(Refusal::Full);
    }
    make(tables, live, turns, change)?;
    Ok(())
}
