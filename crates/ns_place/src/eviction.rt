//! What evictions mean for the plan, for the node and for the quota.

ghost use Rattle.std.specs.Prelude.{◌≡◌, ◌≤◌, IfOk, IsTrue, filter, length, map, take};
ghost use Rattle.ns_types.specs.Placing.Planning.{counts_for, eviction_of, placed_on};
ghost use Rattle.ns_types.specs.Placing.Preemption.{makes_room};
ghost use Rattle.ns_types.specs.State.Resources.{IsCounted, minus, plus, total};

use crate::candidate::Candidate;
use ns_types::plan::Eviction;
use ns_types::resources::{Resources, less, plus};
use ns_types::rows::Rows;
use ns_types::snapshot::{LiveAllocation, QuotaSeen};
use std::alloc::{AllocError, Global};

fn evictions(alloc: Global, victims: &[&LiveAllocation]) -> Result<Rows<Eviction>, AllocError>
    ensures { IfOk result (λ rows. rows ≡ map eviction_of (map (λ a. a.now) victims.now)) }
{
    let mut rows = Rows::new(alloc);
    for a in victims {
        rows.push(Eviction {
            namespace: a.namespace.get().clone()?,
            number: a.number,
            priority: a.priority,
        })?;
    }
    Ok(rows)
}

fn counts_for(quota: &QuotaSeen, allocation: &LiveAllocation) -> bool
    ensures { result ≡ counts_for quota.now allocation.now }
{
    let namespace = allocation.namespace.get();
    let namespaces = quota.namespaces.as_slice();
    namespaces.iter().any(|n| *n == *namespace)
}

/// What the quota has in use once the victims that count for it are gone.
fn used_without(used: Resources, quota: &QuotaSeen, victims: &[&LiveAllocation]) -> Resources
    ensures { result ≡ minus used
        (total (λ a. a.size) (filter (counts_for quota.now) (map (λ a. a.now) victims.now))) }
{
    let mut left = used;
    for a in victims {
        if counts_for(quota, a) {
            left = less(left, a.size);
        }
    }
    left
}

/// The plan's evictions, and what the quota has in use with the size and without the victims.
#[derive(Drop)]
pub struct GivenWay {
    pub evictions: Rows<Eviction>,
    pub used: Resources,
}

/// Evicts the first `victims` of the allocations that the job may evict on the node, and places the size there. It returns the
/// plan's evictions and what the quota then has in use. Want of memory is the only error.
pub fn give_way(
    alloc: Global,
    candidate: &mut Candidate<'_>,
    quota: &QuotaSeen,
    used: Resources,
    size: Resources,
    victims: usize,
) -> Result<GivenWay, AllocError>
    requires few { victims ≤ length candidate.old.evictable }
    requires room { IsTrue (makes_room size candidate.old (take victims candidate.old.evictable)) }
    requires counted { IsCounted (plus used size) }
    ensures evictions { IfOk result (λ w. w.evictions
        ≡ map eviction_of (take victims candidate.old.evictable)) }
    ensures used { IfOk result (λ w. let gone = take victims candidate.old.evictable in
        w.used ≡ minus (plus used size)
        (total (λ a. a.size) (filter (counts_for quota.now) gone))) }
    ensures placed { IfOk result (λ _. candidate.new
        ≡ placed_on size (take victims candidate.old.evictable) candidate.old) }
{
    let (gone, _) = candidate.evictable().split_at(victims);
    let evictions = evictions(alloc, gone)?;
    let used = used_without(plus(used, size), quota, gone);
    candidate.place(size, victims);
    Ok(GivenWay { evictions, used })
}
