//! Finds the places of the entries that a release wakes.

ghost use Rattle.std.specs.Prelude.{◌≡◌, ◌&&◌, OnOk, is_some};
ghost use Rattle.std.specs.List.{list_any};
ghost use Rattle.keyed.specs.Table.{row_at};
ghost use Rattle.ns_blocked.specs.Waking.{AddsPlaces, is_of_pool, is_of_quota, is_usable};

use crate::classes::is_usable;
use crate::entry::BlockedEvaluation;
use crate::groups::Groups;
use crate::releases::ReleasedPool;
use keyed::{NumberSlot, Queue};
use ns_types::node::Class;
use ns_types::text::Text;
use std::alloc::AllocError;
use std::collections::BTreeSet;

/// Adds the places of the entries that wait for the quota. Want of memory is the only error.
pub(crate) fn add_quota(
    groups: &Groups,
    quota: &Text,
    places: &mut BTreeSet<u64>,
) -> Result<(), AllocError>
    ensures { OnOk result (AddsPlaces (λ n. is_of_quota groups.now n quota.now)
        places.old.keys places.new.keys) }
{
    for slot in groups.of_quota(quota) {
        if slot.1.is_some() {
            places.insert(slot.0)?;
        }
    }
    Ok(())
}

/// Whether the slot has a place, and the entry there can use one of the classes. A vacant slot has none.
fn is_usable_at(queue: &Queue<BlockedEvaluation>, slot: &NumberSlot<()>, classes: &[Class]) -> bool
    ensures { result ≡ (is_some slot.now.1
        && is_usable classes.now (row_at queue.now.placed.rows slot.now.0)) }
{
    slot.1.is_some() && is_usable(queue.row(slot.0), classes)
}

/// Adds the places of the entries that wait for the pool and can use one of the classes. Want of memory is the only error.
pub(crate) fn add_pool(
    queue: &Queue<BlockedEvaluation>,
    groups: &Groups,
    pool: &Text,
    classes: &[Class],
    places: &mut BTreeSet<u64>,
) -> Result<(), AllocError>
    ensures { OnOk result (AddsPlaces
        (λ n. is_of_pool queue.now groups.now n pool.now classes.now)
        places.old.keys places.new.keys) }
{
    for slot in groups.of_pool(pool) {
        if is_usable_at(queue, slot, classes) {
            places.insert(slot.0)?;
        }
    }
    Ok(())
}

/// Adds the places of the entries that wait for one of the quotas. Want of memory is the only error.
pub(crate) fn add_quotas(
    groups: &Groups,
    quotas: &[Text],
    places: &mut BTreeSet<u64>,
) -> Result<(), AllocError>
    ensures { OnOk result (AddsPlaces (λ n. list_any (is_of_quota groups.now n) quotas.now)
        places.old.keys places.new.keys) }
{
    for quota in quotas {
        add_quota(groups, quota, places)?;
    }
    Ok(())
}

/// Adds the places of the entries that wait for one of the pools and can use one of its classes.
pub(crate) fn add_pools(
    queue: &Queue<BlockedEvaluation>,
    groups: &Groups,
    pools: &[ReleasedPool],
    places: &mut BTreeSet<u64>,
) -> Result<(), AllocError>
    ensures { OnOk result (AddsPlaces
        (λ n. list_any (λ p. is_of_pool queue.now groups.now n p.pool p.classes) pools.now)
        places.old.keys places.new.keys) }
{
    for released in pools {
        let classes = released.classes.as_slice();
        add_pool(queue, groups, &released.pool, classes, places)?;
    }
    Ok(())
}
