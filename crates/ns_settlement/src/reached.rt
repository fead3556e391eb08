//! Finds the evaluations that a step wakes in the list of blocked evaluations, by what they wait for.

ghost use Rattle.std.specs.Prelude.{◌≡◌, ◌∷◌, ◌&&◌, [], IfOk, filter, not};
ghost use Rattle.std.specs.FinMap.{contains_key};
ghost use Rattle.ns_release.specs.Released.{released_quotas, released_rooms, stays, woken_keys};
ghost use Rattle.ns_settlement.specs.Reached.{AreOfNames, AreOfRooms, has_room, is_room};
ghost use Rattle.ns_blocked.specs.Blocked.{entries_of};
ghost use Rattle.ns_blocked.specs.Waking.{entries_in};
ghost use Rattle.ns_types.specs.State.Names.{has_class, has_name};
ghost use Rattle.ns_tables.specs.World.{world_of};

use crate::rooms::ReleasedClass;
use ns_blocked::{BlockedList, ReleasedPool, Releases};
use ns_change::{Change, ListChange};
use ns_equality::{has_name, same_class};
use ns_release::stays;
use ns_tables::Tables;
use ns_types::key::EvalKey;
use ns_types::node::Class;
use ns_types::rows::Rows;
use ns_types::text::{Text, same_text};
use std::alloc::{AllocError, Global};

// ---- what is released

fn has_class(classes: &[Class], class: &Class) -> bool
    ensures { result ≡ has_class classes.now class.now }
{
    classes.iter().any(|other| same_class(class, other))
}

fn is_room(room: &ReleasedClass, released: &ReleasedPool) -> bool
    ensures { result ≡ is_room room.now released.now }
{
    same_text(&room.0, &released.pool) && has_class(released.classes.as_slice(), &room.1)
}

fn has_room(pools: &[ReleasedPool], room: &ReleasedClass) -> bool
    ensures { result ≡ has_room pools.now room.now }
{
    pools.iter().any(|released| is_room(room, released))
}

fn pool_of(alloc: Global, room: &ReleasedClass) -> Result<ReleasedPool, AllocError>
    ensures { IfOk result (λ p. p ≡ record { pool = room.now.0; classes = room.now.1 ∷ [] }) }
{
    let mut classes = Rows::new(alloc);
    classes.push(room.1.clone()?)?;
    Ok(ReleasedPool {
        pool: room.0.clone()?,
        classes,
    })
}

/// A released pool for each class of these rooms. A class that is there twice gets one.
fn pools_of(alloc: Global, rooms: &[ReleasedClass]) -> Result<Rows<ReleasedPool>, AllocError>
    ensures { IfOk result (λ pools. AreOfRooms rooms.now pools) }
{
    let mut pools = Rows::new(alloc);
    for room in rooms {
        if !has_room(pools.as_slice(), room) {
            pools.push(pool_of(alloc, room)?)?;
        }
    }
    Ok(pools)
}

/// Whether there is a quota of that name, and it is not yet in the list.
fn is_other(tables: &Tables, quotas: &[Text], name: &Text) -> bool
    ensures { result ≡ (contains_key (world_of tables.now).quotas name.now
        && not (has_name quotas.now name.now)) }
{
    tables.has_quota(name) && !has_name(quotas, name)
}

/// The quotas of those names that are there, each once.
fn quotas_of(tables: &Tables, names: &[Text]) -> Result<Rows<Text>, AllocError>
    ensures { IfOk result (λ quotas. AreOfNames (world_of tables.now) names.now quotas) }
{
    let mut quotas = Rows::new(tables.alloc);
    for name in names {
        if is_other(tables, quotas.as_slice(), name) {
            quotas.push(name.clone()?)?;
        }
    }
    Ok(quotas)
}

fn releases_of(
    tables: &Tables,
    rooms: &[ReleasedClass],
    names: &[Text],
) -> Result<Releases, AllocError>
    ensures rooms { IfOk result (λ releases. AreOfRooms rooms.now releases.pools) }
    ensures quotas { IfOk result
        (λ releases. AreOfNames (world_of tables.now) names.now releases.quotas) }
{
    let pools = pools_of(tables.alloc, rooms)?;
    let quotas = quotas_of(tables, names)?;
    Ok(Releases { pools, quotas })
}

// ---- the evaluations that the releases wake

/// The keys of the entries that the step's own change leaves in the list. It takes no memory.
fn still_there(list: &ListChange, keys: Rows<EvalKey>) -> Rows<EvalKey>
    ensures { result ≡ filter (stays list.now) keys }
{
    let mut keys = keys.into_vec();
    keys.retain(|key| stays(list, key));
    Rows::from_vec(keys)
}

/// The entries of `blocked`, before the step and after its own change, that its releases wake, in the list's order. It looks
/// only at entries that wait for what is released. Want of memory is the only error.
pub fn woken_through(
    tables: &Tables,
    list: &BlockedList,
    change: &Change,
    rooms: &Rows<ReleasedClass>,
    released: &Rows<Text>,
) -> Result<Rows<EvalKey>, AllocError>
    requires entries { entries_of list.now ≡ entries_in (world_of tables.now) }
    requires rooms { rooms.now ≡ released_rooms (world_of tables.now) change.now }
    requires quotas { released.now ≡ released_quotas (world_of tables.now) change.now }
    ensures { IfOk result (λ keys. keys ≡ woken_keys (world_of tables.now) change.now) }
{
    let releases = releases_of(tables, rooms.as_slice(), released.as_slice())?;
    let keys = list.woken(&releases)?;
    Ok(still_there(&change.blocked, keys))
}
