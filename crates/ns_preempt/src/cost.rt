//! What the victims on a node cost. Nomad's page "Preemption".

ghost use Rattle.std.specs.Prelude.{◌≡◌, map};
ghost use Rattle.ns_types.specs.Placing.Preemption.{highest_priority};
ghost use Rattle.ns_preempt.specs.Cost.{cost_of};

use crate::prefix::victims;
use ns_place::Candidate;
use ns_types::resources::Resources;
use ns_types::snapshot::LiveAllocation;

/// The highest priority among the victims on a node, and how many they are. The lesser cost is the cheaper one.
#[derive(Clone, Copy, PartialEq, Eq, PartialOrd, Ord)]
pub(crate) struct Cost {
    highest_priority: u64,
    victims: usize,
}

fn highest_priority(allocations: &[&LiveAllocation]) -> u64
    ensures { result ≡ highest_priority (map (λ a. a.now) allocations.now) }
{
    let mut highest = 0u64;
    for allocation in allocations {
        highest = highest.max(allocation.priority);
    }
    highest
}

/// What the victims on the node cost. None where it has no victims. It takes no memory.
pub(crate) fn cost_of(candidate: &Candidate<'_>, size: Resources) -> Option<Cost>
    ensures { result ≡ cost_of size candidate.now }
{
    let victims = victims(candidate, size)?;
    Some(Cost {
        highest_priority: highest_priority(&candidate.evictable()[..victims]),
        victims,
    })
}
