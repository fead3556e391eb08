//! The fewest victims of one node that make room.

ghost use Rattle.std.specs.Prelude.{◌≡◌, MatchOption, None};
ghost use Rattle.ns_types.specs.Placing.Preemption.{victims};
ghost use Rattle.ns_preempt.specs.Fewest.{IsFewest};

use ns_place::Candidate;
use ns_types::resources::{Resources, is_within, plus};

/// How many of the allocations that the job may evict on the node have to go, from the first on, so that the size has room.
/// None where the job may not use the node, or where the size would have no room even without all of them. It takes no memory.
pub fn victims(candidate: &Candidate<'_>, size: Resources) -> Option<usize>
    ensures { MatchOption result
        (victims size candidate.now ≡ None)
        (IsFewest size candidate.now) }
{
    if !candidate.is_feasible() {
        return None;
    }
    let evictable = candidate.evictable();
    let mut freed = candidate.left();
    for i in 0..evictable.len() {
        if is_within(size, freed) {
            return Some(i);
        }
        freed = plus(freed, evictable[i].size);
    }
    if is_within(size, freed) {
        Some(evictable.len())
    } else {
        None
    }
}
