//! The allocations that a job may evict on a node, in the order in which they are evicted.

ghost use Rattle.std.specs.Prelude.{◌≡◌, ◌-◌, IfOk, filter, map, nat_lt, reverse};
ghost use Rattle.ns_types.specs.Placing.Preemption.{evictable};

use ns_types::live_rows::LiveRows;
use ns_types::snapshot::LiveAllocation;
use std::alloc::{AllocError, Global};

/// The allocations whose priority is lower than the job's by 10 or more, the last placed first.
fn lower<'a>(
    alloc: Global,
    live: &'a [LiveAllocation],
    priority: u64,
) -> Result<Vec<&'a LiveAllocation>, AllocError>
    ensures { IfOk result (λ v. map (λ a. a.now) v.items
        ≡ filter (λ a. nat_lt a.priority (priority - 9)) (reverse live.now)) }
{
    let mut lower = Vec::new(alloc);
    for allocation in live.iter().rev() {
        if allocation.priority < priority.saturating_sub(9) {
            lower.push(allocation)?;
        }
    }
    Ok(lower)
}

/// The allocations whose priority is lower than the job's by 10 or more: lowest priority first, then the last placed first.
/// Where none has so low a priority, it looks at none of them. Want of memory is the only error.
pub fn evictable<'a>(
    alloc: Global,
    live: &'a LiveRows,
    priority: u64,
) -> Result<Vec<&'a LiveAllocation>, AllocError>
    ensures { IfOk result (λ v. map (λ a. a.now) v.items ≡ evictable priority live.now) }
{
    if live.least_priority() >= priority.saturating_sub(9) {
        return Ok(Vec::new(alloc));
    }
    let mut order = lower(alloc, live.as_slice(), priority)?;
    order.sort_by_key(|a| a.priority)?;
    Ok(order)
}
