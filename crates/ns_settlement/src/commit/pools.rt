//! Puts the changes of pools into the tables: their nodes and their release numbers.

ghost use Rattle.std.specs.Prelude.{◌≡◌, ◌+◌, ◌<◌, ◌≤◌, ◌^◌, filter, length, true};
ghost use Rattle.std.specs.Prelude.{option_map, IfSome, OnOk};
ghost use Rattle.keyed.specs.Table.{row_at};
ghost use Rattle.ns_change.specs.Changed.{changed_pool};
ghost use Rattle.ns_change.specs.Settled.{classes_in};
ghost use Rattle.ns_types.specs.State.Names.{Name, same_name};
ghost use Rattle.ns_types.specs.State.Rows;
ghost use Rattle.ns_settlement.specs.Committed.{CanRise, ClassPut, HasNodeRoom, HaveClassRoom, KeepsNodes};
ghost use Rattle.ns_settlement.specs.Committed.{GainsClassRoom, HavePoolRoom, IsPoolCleared};
ghost use Rattle.ns_settlement.specs.Committed.{numbered_pools, raised_pool, releases, settled_pools};
ghost use Rattle.ns_settlement.specs.Owners.{Always, ChangesRow, owners};
ghost use Rattle.ns_tables.specs.World.{pool_of};

use crate::commit::clearing::clear_names;
use crate::commit::owners::{Owner, commit_all, reserve_all};
use crate::rooms::ReleasedClass;
use keyed::{Bounded, NameTable, OwnerTable};
use ns_change::PoolChange;
use ns_equality::{same_class, same_text};
use ns_tables::PoolRows;
use ns_types::node::Class;
use ns_types::rows::Rows;
use ns_types::text::Text;
use std::alloc::AllocError;

/// Whether a class of the pool is released.
fn has_pool(rooms: &[ReleasedClass], pool: &Text) -> bool
    ensures { result ≡ releases rooms.now pool.now }
{
    rooms.iter().any(|room| same_text(pool, &room.0))
}

// ---- room

/// How many classes of the pool are released.
fn count_classes(rooms: &[ReleasedClass], pool: &Text) -> usize
    ensures { result ≡ length (filter (λ room. same_name pool.now room.0) rooms.now) }
{
    rooms.iter().filter(|room| same_text(pool, &room.0)).count()
}

/// Makes room for each of the pool's released classes, if the pool is there.
fn reserve_classes_in(
    table: &mut OwnerTable<PoolRows>,
    name: &Text,
    rooms: &[ReleasedClass],
) -> Result<(), AllocError>
    ensures rows { ChangesRow GainsClassRoom name.now table.old table.new }
    ensures room { OnOk result (IfSome (row_at table.new name.now)
        (λ pool. length (classes_in name.now rooms.now) ≤ pool.classes.room)) }
{
    let before = table.may_be_at_bound();
    let Some(pool) = table.get_mut(name) else {
        table.note(before);
        return Ok(());
    };
    let reserved = pool.classes.reserve(count_classes(rooms, name));
    let at_bound = pool.is_at_bound();
    table.note(before | at_bound);
    reserved
}

/// Makes room for each released class.
fn reserve_classes(
    table: &mut OwnerTable<PoolRows>,
    rooms: &[ReleasedClass],
) -> Result<(), AllocError>
    ensures pools { owners pool_of table.new ≡ owners pool_of table.old }
    ensures nodes { KeepsNodes table.old table.new }
    ensures room { OnOk result (HaveClassRoom rooms.now table.new) }
{
    for (i, room) in rooms.iter().enumerate() {
        if !has_pool(&rooms[i + 1..], &room.0) {
            reserve_classes_in(table, &room.0, rooms)?;
        }
    }
    Ok(())
}

impl Owner<PoolChange> for PoolRows {
    ghost Seen = { Rows.PoolRows };

    ghost seen = { pool_of };

    ghost changed = { changed_pool };

    ghost CanChange = { Always };

    ghost HasRoom = { HasNodeRoom };

    ghost IsCleared = { IsPoolCleared };

    fn reserve(&mut self, change: &PoolChange) -> Result<(), AllocError> {
        self.nodes.reserve_all(&change.nodes)
    }

    fn clear(&mut self, change: &PoolChange) {
        clear_names(&mut self.nodes, &change.nodes);
    }

    fn commit(&mut self, change: PoolChange) {
        let PoolChange { nodes } = change;
        self.nodes.apply(nodes);
    }

    ghost carries = { λ x a b is can. can };
}

/// Makes room for the changes of all pools. If that is refused, the pools are as they were.
pub(crate) fn reserve_pools(
    table: &mut OwnerTable<PoolRows>,
    changes: &NameTable<PoolChange>,
    rooms: &[ReleasedClass],
) -> Result<(), AllocError>
    requires { CanRise (λ pool. pool.release) (releases rooms.now) table.old }
    ensures pools { owners pool_of table.new ≡ owners pool_of table.old }
    ensures room { OnOk result (HavePoolRoom changes.now rooms.now table.new) }
{
    reserve_all(table, changes)?;
    reserve_classes(table, rooms)
}

// ---- release numbers

/// Raises the pool's release number by one, if the pool is there.
fn raise_pool(table: &mut OwnerTable<PoolRows>, name: &Text)
    requires { IfSome (row_at table.old name.now) (λ pool. pool.release + 1 < 2 ^ 64) }
    ensures { ChangesRow (λ a b. b ≡ raised_pool true a) name.now table.old table.new }
{
    let before = table.may_be_at_bound();
    let Some(pool) = table.get_mut(name) else {
        table.note(before);
        return;
    };
    pool.release += 1;
    let at_bound = pool.is_at_bound();
    table.note(before | at_bound);
}

/// Raises the release number of each pool of which classes are released by one.
fn raise_pools(table: &mut OwnerTable<PoolRows>, rooms: &[ReleasedClass])
    requires { CanRise (λ pool. pool.release) (releases rooms.now) table.old }
    ensures { (name : Name) → row_at table.new name
        ≡ option_map (raised_pool (releases rooms.now name)) (row_at table.old name) }
{
    for (i, room) in rooms.iter().enumerate() {
        if !has_pool(&rooms[i + 1..], &room.0) {
            raise_pool(table, &room.0);
        }
    }
}

/// Gives the class the number of its pool's last release.
fn put_class(pool: &mut PoolRows, class: Class)
    requires { 0 < pool.old.classes.room }
    ensures { ClassPut class pool.old pool.new }
{
    let number = pool.release;
    pool.classes.retain(|entry| !same_class(&class, &entry.0));
    pool.classes.push((class, number));
}

fn put_class_in(table: &mut OwnerTable<PoolRows>, name: &Text, class: Class)
    requires { IfSome (row_at table.old name.now) (λ pool. 0 < pool.classes.room) }
    ensures { ChangesRow (ClassPut class) name.now table.old table.new }
{
    let before = table.may_be_at_bound();
    let Some(pool) = table.get_mut(name) else {
        table.note(before);
        drop(class);
        return;
    };
    put_class(pool, class);
    let at_bound = pool.is_at_bound();
    table.note(before | at_bound);
}

/// Gives each released class the number of its pool's last release.
fn put_classes(table: &mut OwnerTable<PoolRows>, rooms: Rows<ReleasedClass>)
    requires { HaveClassRoom rooms table.old }
    ensures pools { owners pool_of table.new ≡ numbered_pools rooms (owners pool_of table.old) }
    ensures nodes { KeepsNodes table.old table.new }
{
    for (name, class) in rooms.into_vec() {
        put_class_in(table, &name, class);
    }
}

/// Moves the changes of all pools in: release numbers, classes with their numbers, nodes. It takes no memory.
pub(crate) fn commit_pools(
    table: &mut OwnerTable<PoolRows>,
    changes: NameTable<PoolChange>,
    rooms: Rows<ReleasedClass>,
)
    requires { HavePoolRoom changes rooms table.old }
    ensures { owners pool_of table.new ≡ settled_pools changes rooms (owners pool_of table.old) }
{
    raise_pools(table, rooms.as_slice());
    put_classes(table, rooms);
    commit_all(table, changes);
}
