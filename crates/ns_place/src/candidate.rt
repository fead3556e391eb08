//! A node as a plan sees it. Nomad's pages "How Nomad job placement works" and "Preemption".

ghost use Rattle.std.specs.Prelude.{◌≡◌, ◌≤◌, IsTrue, length, map, take};
ghost use Rattle.ns_types.specs.Placing.Planning.{placed_on};
ghost use Rattle.ns_types.specs.Placing.Preemption.{makes_room};
ghost use Rattle.ns_place.specs.Amounts.{IsCountedFreed};

use crate::amounts::total;
use ns_types::resources::{Resources, minus, plus};
use ns_types::snapshot::LiveAllocation;
use ns_types::text::Text;
use std::marker::Model;

/// Whether the job may use the node, what the plan so far leaves of it, and the allocations that the job may evict there, in
/// the order in which they are evicted. Contracts see it as the model's `Candidate`.
#[derive(Drop)]
pub struct Candidate<'a> {
    name: &'a Text,
    feasible: bool,
    left: Resources,
    evictable: Vec<&'a LiveAllocation>,
    /// How many of `evictable`, from the first on, the plan has evicted.
    evicted: usize,
}

impl<'a> Model for Candidate<'a> {
    ghost use Rattle.std.specs.Prelude.{◌≤◌, drop, length, map};
    ghost use Rattle.ns_types.specs.Placing.Placement;
    ghost use Rattle.ns_place.specs.Amounts.{IsCountedFreed};

    ghost Value = { Placement.Candidate };

    ghost view = { λ c. record {
      name = c.name.now;
      feasible = c.feasible;
      left = c.left;
      evictable = drop c.evicted (map (λ a. a.now) c.evictable.items);
    } };

    ghost invariant = { λ c. (c.evicted ≤ length c.evictable.items)
        × IsCountedFreed c.left (drop c.evicted (map (λ a. a.now) c.evictable.items)) };
}

impl<'a> Candidate<'a> {
    /// The node before the plan has placed anything. `evictable` has the allocations that the job may evict, in the order in
    /// which they are evicted.
    pub fn new(
        name: &'a Text,
        feasible: bool,
        left: Resources,
        evictable: Vec<&'a LiveAllocation>,
    ) -> Candidate<'a>
        requires { IsCountedFreed left (map (λ a. a.now) evictable.items) }
        ensures name { result.name ≡ name.now }
        ensures feasible { result.feasible ≡ feasible }
        ensures left { result.left ≡ left }
        ensures evictable { result.evictable ≡ map (λ a. a.now) evictable.entry.items }
    {
        Candidate {
            name,
            feasible,
            left,
            evictable,
            evicted: 0,
        }
    }

    /// The node's name. Of two nodes with as much left, or whose victims cost the same, the one with the lesser name is taken.
    pub fn name(&self) -> &'a Text
        ensures { result.now ≡ self.now.name }
    {
        self.name
    }

    /// Whether the job may use the node.
    pub fn is_feasible(&self) -> bool
        ensures { result ≡ self.now.feasible }
    {
        self.feasible
    }

    /// What the plan so far leaves of the node.
    pub fn left(&self) -> Resources
        ensures { result ≡ self.now.left }
    {
        self.left
    }

    /// The allocations that the job may evict and that the plan has not evicted yet, in the order in which they are evicted.
    pub fn evictable(&self) -> &[&'a LiveAllocation]
        ensures all { map (λ a. a.now) result.now ≡ self.now.evictable }
        ensures counted { IsCountedFreed self.now.left self.now.evictable }
    {
        let (_, rest) = self.evictable.as_slice().split_at(self.evicted);
        rest
    }

    /// Evicts the first `victims` of the allocations that the job may evict, and places the size on the node.
    pub fn place(&mut self, size: Resources, victims: usize)
        requires few { victims ≤ length self.old.evictable }
        requires room { IsTrue (makes_room size self.old (take victims self.old.evictable)) }
        ensures { self.new ≡ placed_on size (take victims self.old.evictable) self.old }
    {
        let (gone, _) = self.evictable().split_at(victims);
        let freed = total(gone);
        self.left = minus(plus(self.left, freed), size);
        self.evicted += victims;
    }
}
