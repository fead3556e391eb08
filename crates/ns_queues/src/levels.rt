//! Queues of keys by priority. The queue of one priority is a level.

ghost use Rattle.std.specs.Prelude.{◌≡◌, ◌++◌, ℕ, IsTrue, OnOk, is_some, option_copied};
ghost use Rattle.std.specs.FinMap.{entries};
ghost use Rattle.keyed.specs.Table.{row_at};
ghost use Rattle.ns_queues.specs.Ready.{CanAddTo, HasRoomFor, KeepsOthers, KeepsRoom, SameKeys};
ghost use Rattle.ns_queues.specs.Ready.{first_key, first_of_highest, group_at, left_of, level_at};

use keyed::{KeyQueue, NumberSlot, NumberTable};
use ns_types::key::EvalKey;
use ns_types::rows::Rows;
use std::alloc::{AllocError, Global};

/// Makes a level for the priority, unless it is there.
fn open(levels: &mut NumberTable<KeyQueue>, alloc: Global, priority: u64) -> Result<(), AllocError>
    ensures same { SameKeys levels.old levels.new }
    ensures others { KeepsOthers priority levels.old levels.new }
    ensures ok { OnOk result (IsTrue (is_some (row_at levels.new priority))) }
{
    if levels.get(priority).is_none() {
        levels.reserve(priority)?;
        levels.set(priority, KeyQueue::new(alloc));
    }
    Ok(())
}

/// Makes room for those keys in the level.
fn reserve(
    levels: &mut NumberTable<KeyQueue>,
    alloc: Global,
    priority: u64,
    keys: &[EvalKey],
) -> Result<(), AllocError>
    ensures same { SameKeys levels.old levels.new }
    ensures others { KeepsOthers priority levels.old levels.new }
    ensures ok { OnOk result (CanAddTo (row_at levels.new priority) keys.now) }
{
    open(levels, alloc, priority)?;
    if let Some(queue) = levels.get_mut(priority) {
        queue.reserve(keys)?;
    }
    Ok(())
}

/// Makes room for each group in its level. Want of memory is the only error.
pub(crate) fn reserve_all(
    levels: &mut NumberTable<KeyQueue>,
    alloc: Global,
    groups: &NumberTable<Rows<EvalKey>>,
) -> Result<(), AllocError>
    ensures same { SameKeys levels.old levels.new }
    ensures ok { OnOk result (HasRoomFor groups.now levels.new) }
{
    for slot in groups.as_slice() {
        if let Some(keys) = &slot.1 {
            reserve(levels, alloc, slot.0, keys.as_slice())?;
        }
    }
    Ok(())
}

/// Puts those keys at the end of the level. It takes no memory.
fn append(levels: &mut NumberTable<KeyQueue>, priority: u64, keys: Rows<EvalKey>)
    requires { CanAddTo (row_at levels.old priority) keys }
    ensures others { KeepsOthers priority levels.old levels.new }
    ensures here { level_at levels.new priority ≡ level_at levels.old priority ++ keys }
{
    if let Some(queue) = levels.get_mut(priority) {
        queue.append(keys);
    }
}

/// Puts each group at the end of its level. It takes no memory.
pub(crate) fn append_all(levels: &mut NumberTable<KeyQueue>, groups: NumberTable<Rows<EvalKey>>)
    requires { HasRoomFor groups levels.old }
    ensures { (priority : ℕ) → level_at levels.new priority
        ≡ level_at levels.old priority ++ group_at groups priority }
{
    for (priority, slot) in groups.into_slots() {
        if let Some(keys) = slot {
            append(levels, priority, keys);
        }
    }
}

/// Takes those keys out of the level, if `key` is in it. Room for them stays. It takes no memory.
pub(crate) fn take_out(
    levels: &mut NumberTable<KeyQueue>,
    priority: u64,
    key: &EvalKey,
    keys: &[EvalKey],
)
    ensures others { KeepsOthers priority levels.old levels.new }
    ensures here { level_at levels.new priority
        ≡ left_of key.now keys.now (level_at levels.old priority) }
    ensures room { KeepsRoom levels.old levels.new }
{
    if let Some(queue) = levels.get_mut(priority) {
        if queue.has(key.namespace(), key.number()) {
            queue.take_out(keys);
        }
    }
}

/// Gives the room for those keys back, and drops the level if it is empty.
pub(crate) fn clear(levels: &mut NumberTable<KeyQueue>, priority: u64, keys: &[EvalKey])
    ensures { SameKeys levels.old levels.new }
{
    let Some(queue) = levels.get_mut(priority) else {
        return;
    };
    queue.clear_room(keys);
    if queue.is_empty() {
        levels.remove(priority);
    }
}

/// The first key of a level.
fn first_of(slot: &NumberSlot<KeyQueue>) -> Option<&EvalKey>
    ensures { option_copied result ≡ first_key slot.now.1 }
{
    match &slot.1 {
        Some(queue) => queue.first(),
        None => None,
    }
}

/// The first key of the highest level that has one.
pub(crate) fn first(levels: &NumberTable<KeyQueue>) -> Option<&EvalKey>
    ensures { option_copied result ≡ first_of_highest (entries levels.now) }
{
    let mut first = None;
    for slot in levels.as_slice() {
        first = first_of(slot).or(first);
    }
    first
}
