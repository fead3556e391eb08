//! The ready evaluations by priority.

ghost use Rattle.std.specs.Prelude.{◌≡◌, ◌++◌, ◌∷◌, [], ℕ, IfOk, OnOk, option_copied, true};
ghost use Rattle.ns_change.specs.Settled.{settled_world};
ghost use Rattle.ns_types.specs.State.Names.{Key};
ghost use Rattle.ns_types.specs.State.Rows.{World};
ghost use Rattle.ns_types.specs.Working.Looks.{served_ready};
ghost use Rattle.ns_types.specs.Working.Queue.{priority_at};
ghost use Rattle.ns_queues.specs.Ready.{AreArrivals, HasRoom, HoldsOnly, IsByPriority, KeepsRoom, SameKeys};
ghost use Rattle.ns_queues.specs.Ready.{group_at, keeps_priorities, keys_at, keys_of, level_at};
ghost use Rattle.ns_queues.specs.Ready.{moves_ready, priority_of};
ghost use Rattle.ns_change.specs.Changed.{without_keys};
ghost use Rattle.ns_tables.specs.World.{world_of};

use crate::after::{WatchesMoves, any_moved, evaluation_after};
use crate::levels;
use keyed::{KeyQueue, NumberTable};
use ns_change::Settled;
use ns_tables::Tables;
use ns_types::evaluation::Evaluation;
use ns_types::key::EvalKey;
use ns_types::rows::Rows;
use ns_types::text::Text;
use std::alloc::{AllocError, Global};

// ---- priorities

/// The priority of an evaluation, or 0 if there is none.
fn priority(row: Option<&Evaluation>) -> u64
    ensures { result ≡ priority_of (option_copied row.entry) }
{
    match row {
        Some(row) => row.priority,
        None => 0,
    }
}

fn priority_before(tables: &Tables, key: &EvalKey) -> u64
    ensures { result ≡ priority_at (world_of tables.now) key.now }
{
    priority(tables.evaluation(key.namespace(), key.number()))
}

fn priority_after(tables: &Tables, settled: &Settled, key: &EvalKey) -> u64
    ensures { result ≡ priority_at (settled_world (world_of tables.now) settled.now) key.now }
{
    priority(evaluation_after(tables, settled, key.namespace(), key.number()))
}

/// An evaluation of the ready queue moves when its priority changes.
impl WatchesMoves for KeyQueue {
    ghost moves = { moves_ready };

    fn moves(
        &self,
        namespace: &Text,
        number: u64,
        before: Option<&Evaluation>,
        after: Option<&Evaluation>,
    ) -> bool {
        priority(before) != priority(after) && self.has(namespace, number)
    }
}

// ---- keys that are added

/// The keys that a step adds, by the priority that each has after it.
#[derive(Drop)]
pub struct Arrivals {
    by_priority: NumberTable<Rows<EvalKey>>,
}

/// Puts a key at the end of its group.
fn put(
    groups: &mut NumberTable<Rows<EvalKey>>,
    alloc: Global,
    priority: u64,
    key: EvalKey,
) -> Result<(), AllocError>
    ensures { OnOk result ((p : ℕ) → group_at groups.new p
        ≡ group_at groups.old p ++ keys_of p priority key) }
{
    let mut keys = groups.take(priority).unwrap_or(Rows::new(alloc));
    keys.push(key)?;
    groups.reserve(priority)?;
    groups.set(priority, keys);
    Ok(())
}

/// Copies of the keys that the step adds, by the priority that each has after it.
fn find_arrivals(alloc: Global, tables: &Tables, settled: &Settled) -> Result<Arrivals, AllocError>
    ensures { let after = settled_world (world_of tables.now) settled.now in
        IfOk result (AreArrivals after settled.now.ready.added) }
{
    let mut by_priority = NumberTable::new(alloc);
    for key in settled.ready.added.as_slice() {
        let priority = priority_after(tables, settled, key);
        put(&mut by_priority, alloc, priority, key.clone()?)?;
    }
    Ok(Arrivals { by_priority })
}

// ---- keys that are taken

/// Takes those keys out of the levels of the priorities that they have in the tables. Room for the keys stays.
fn take_all(levels: &mut NumberTable<KeyQueue>, tables: &Tables, keys: &[EvalKey])
    ensures keys { (priority : ℕ) → HoldsOnly (world_of tables.now) priority
        (level_at levels.old priority) → level_at levels.new priority
        ≡ without_keys keys.now (level_at levels.old priority) }
    ensures room { KeepsRoom levels.old levels.new }
{
    for key in keys {
        levels::take_out(levels, priority_before(tables, key), key, keys);
    }
}

/// Gives the room for those keys back, and drops the levels that are left empty.
fn clear_all(levels: &mut NumberTable<KeyQueue>, tables: &Tables, keys: &[EvalKey])
    ensures { SameKeys levels.old levels.new }
{
    for (i, key) in keys.iter().enumerate() {
        levels::clear(levels, priority_before(tables, key), &keys[i..i + 1]);
    }
}

// ---- the index

/// The ready evaluations by priority, and those of one priority in the order of the ready list.
#[derive(Drop)]
pub struct ByPriority {
    levels: NumberTable<KeyQueue>,
}

impl ByPriority {
    /// No ready evaluation. It takes no memory.
    pub fn new(alloc: Global) -> ByPriority
        ensures { (priority : ℕ) → keys_at result priority ≡ [] }
    {
        ByPriority {
            levels: NumberTable::new(alloc),
        }
    }

    /// Copies the keys that the step adds, and makes room for them. Want of memory is the only error.
    pub fn reserve(
        &mut self,
        alloc: Global,
        tables: &Tables,
        settled: &Settled,
    ) -> Result<Arrivals, AllocError>
        ensures same { (priority : ℕ) → keys_at self.new priority ≡ keys_at self.old priority }
        ensures arrivals { let after = settled_world (world_of tables.now) settled.now in
            IfOk result (AreArrivals after settled.now.ready.added) }
        ensures room { IfOk result (HasRoom self.new) }
    {
        let arrivals = find_arrivals(alloc, tables, settled)?;
        levels::reserve_all(&mut self.levels, alloc, &arrivals.by_priority)?;
        Ok(arrivals)
    }

    /// Takes out the keys that the step takes, puts the arrivals at the end of their levels, and returns whether the index is
    /// still right. It is, unless a ready evaluation gets another priority. It takes no memory.
    pub fn follow(&mut self, tables: &Tables, settled: &Settled, arrivals: Arrivals) -> bool
        requires room { HasRoom self.old arrivals }
        requires arrivals { let after = settled_world (world_of tables.now) settled.now in
            AreArrivals after settled.now.ready.added arrivals }
        ensures right { let before = world_of tables.now in result ≡ true →
            IsByPriority before self.old → IsByPriority (settled_world before settled.now) self.new }
        ensures kept { let before = world_of tables.now in
            result ≡ keeps_priorities before (settled_world before settled.now) }
    {
        let taken = settled.ready.taken.as_slice();
        take_all(&mut self.levels, tables, taken);
        levels::append_all(&mut self.levels, arrivals.by_priority);
        clear_all(&mut self.levels, tables, taken);
        !any_moved(&tables.ready, tables, settled)
    }

    /// The first key of the highest priority that has one. It goes through the levels, of which there are at most as many as
    /// priorities, and not through the keys.
    pub fn first(&self) -> Option<&EvalKey>
        ensures { (w : World) → IsByPriority w self.now → option_copied result ≡ served_ready w }
    {
        levels::first(&self.levels)
    }
}
