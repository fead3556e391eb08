//! Which evaluation of a list is next.

ghost use Rattle.std.specs.Prelude.{◌≡◌, option_copied};
ghost use Rattle.ns_types.specs.Working.Queue.{priority_at, served};
ghost use Rattle.ns_broker.specs.Serving.{preferred_at};
ghost use Rattle.ns_tables.specs.World.{world_of};

use keyed::{KeyQueue, NumberSlot};
use ns_tables::Tables;
use ns_types::key::EvalKey;

/// The priority of an evaluation, or 0 if there is no such evaluation.
fn priority(tables: &Tables, key: &EvalKey) -> u64
    ensures { result ≡ priority_at (world_of tables.now) key.now }
{
    match tables.evaluation(key.namespace(), key.number()) {
        Some(row) => row.priority,
        None => 0,
    }
}

/// The better of the first key so far and the key of this slot: the later one only if its priority is greater.
fn preferred<'a>(
    tables: &Tables,
    first: Option<&'a EvalKey>,
    slot: &'a NumberSlot<EvalKey>,
) -> Option<&'a EvalKey>
    ensures { option_copied result
        ≡ preferred_at (priority_at (world_of tables.now)) (option_copied first.entry) slot.now }
{
    let Some(later) = &slot.1 else {
        return first;
    };
    match first {
        Some(first) if priority(tables, later) <= priority(tables, first) => Some(first),
        _ => Some(later),
    }
}

/// The first evaluation in the list among those of the highest priority. It goes through the list. It takes no memory.
pub fn served<'a>(tables: &Tables, queue: &'a KeyQueue) -> Option<&'a EvalKey>
    ensures { option_copied result ≡ served (world_of tables.now) queue.now.items }
{
    let mut first = None;
    for slot in queue.slots() {
        first = preferred(tables, first, slot);
    }
    first
}
