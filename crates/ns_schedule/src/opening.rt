//! The nodes as the job sees them, without the allocations that stop.

ghost use Rattle.std.specs.Prelude.{◌≡◌, IfOk, map};
ghost use Rattle.std.specs.List.{All};
ghost use Rattle.ns_types.specs.Placing.Plan.{candidate_of, staying, stays};
ghost use Rattle.ns_types.specs.State.Resources.{IsCounted, minus, plus, total};
ghost use Rattle.ns_types.specs.Validity.{seen_load};

use crate::stops::Stops;
use ns_place::{Candidate, feasible};
use ns_preempt::evictable;
use ns_types::job::Job;
use ns_types::live_rows::LiveRows;
use ns_types::resources::{Resources, less};
use ns_types::shared::Shared;
use ns_types::snapshot::{LiveAllocation, OwnAllocation, PoolNode};
use ns_types::text::Text;
use std::alloc::{AllocError, Global};

/// Whether the allocation is not one of the stops. Its number is looked at first: most plans stop nothing, and then no name has
/// to be compared.
fn stays(namespace: &Text, stops: &Stops<'_>, allocation: &LiveAllocation) -> bool
    ensures { result ≡ stays namespace.now stops.now allocation.now }
{
    !(stops.has(allocation.number) && *allocation.namespace.get() == *namespace)
}

/// What the allocations that stay leave of the capacity, by a look at each.
fn left_by_each(
    capacity: Resources,
    namespace: &Text,
    stops: &Stops<'_>,
    live: &[LiveAllocation],
) -> Resources
    ensures { result ≡ minus capacity
        (total (λ a. a.size) (staying namespace.now stops.now live.now)) }
{
    let mut left = capacity;
    for a in live {
        if stays(namespace, stops, a) {
            left = less(left, a.size);
        }
    }
    left
}

/// What the allocations that stay leave of the capacity. Where nothing stops and the load is known, it looks at none of them.
fn left_of(capacity: Resources, namespace: &Text, stops: &Stops<'_>, live: &LiveRows) -> Resources
    ensures { result ≡ minus capacity
        (total (λ a. a.size) (staying namespace.now stops.now live.now)) }
{
    match live.load() {
        Some(load) if stops.as_slice().is_empty() => less(capacity, load),
        _ => left_by_each(capacity, namespace, stops, live.as_slice()),
    }
}

fn staying<'a>(
    alloc: Global,
    namespace: &Text,
    stops: &Stops<'_>,
    order: &[&'a LiveAllocation],
) -> Result<Vec<&'a LiveAllocation>, AllocError>
    ensures { IfOk result (λ v. map (λ a. a.now) v.items
        ≡ staying namespace.now stops.now (map (λ a. a.now) order.now)) }
{
    let mut left = Vec::new(alloc);
    for a in order {
        if stays(namespace, stops, a) {
            left.push(*a)?;
        }
    }
    Ok(left)
}

fn candidate<'a>(
    alloc: Global,
    job: &Job,
    namespace: &Text,
    stops: &Stops<'_>,
    node: &'a PoolNode,
) -> Result<Candidate<'a>, AllocError>
    requires { IsCounted (plus node.now.row.offer.capacity (seen_load node.now)) }
    ensures { IfOk result (λ c. c
        ≡ candidate_of job.now namespace.now stops.now node.now) }
{
    let document = job.document.get();
    let live = &node.live;
    let order = evictable(alloc, live, document.priority)?;
    let evictable = staying(alloc, namespace, stops, &order)?;
    let left = left_of(node.row.offer.capacity, namespace, stops, live);
    let constraints = document.constraints.as_slice();
    let feasible = feasible(constraints, &node.name, &node.row);
    Ok(Candidate::new(&node.name, feasible, left, evictable))
}

/// The nodes of a snapshot as the job sees them, without the allocations that stop.
pub(crate) fn candidates<'a>(
    alloc: Global,
    job: &Job,
    namespace: &Text,
    stops: &Stops<'_>,
    nodes: &'a [Shared<PoolNode>],
) -> Result<Vec<Candidate<'a>>, AllocError>
    requires { All (λ n. IsCounted (plus n.row.offer.capacity (seen_load n))) nodes.now }
    ensures { IfOk result (λ v. v.items
        ≡ map (candidate_of job.now namespace.now stops.now) nodes.now) }
{
    let mut candidates = Vec::with_capacity(alloc, nodes.len())?;
    for node in nodes {
        candidates.push(candidate(alloc, job, namespace, stops, node.get())?)?;
    }
    Ok(candidates)
}

/// What the quota has in use without the allocations that stop.
pub(crate) fn used_without(used: Resources, stops: &[&OwnAllocation]) -> Resources
    ensures { result ≡ minus used (total (λ a. a.row.size) (map (λ a. a.now) stops.now)) }
{
    let mut left = used;
    for a in stops {
        left = less(left, a.row.size);
    }
    left
}
