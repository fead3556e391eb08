//! The order in which the nodes with room take allocations of one size. Demands of one size go down this order, so that not
//! every node has to be looked at for each of them.

ghost use Rattle.std.specs.Prelude.{◌≡◌, ◌≤◌, ◌<◌, ◌++◌, ◌∷◌, [], true, drop, length, slice_index};
ghost use Rattle.std.specs.Prelude.{IfOk, MatchOption, OnErr, OnOk};
ghost use Rattle.std.specs.List.{HoldsAt};
ghost use Rattle.ns_types.specs.Placing.Placement.{best_fit, fits};
ghost use Rattle.ns_place.specs.Order.{AreRanks, IsNextNode, IsOrder, compare_ranks, nodes, walk};

use crate::candidate::Candidate;
use crate::choice::fits;
use ns_types::resources::{self, Resources, minus};
use ns_types::text::Text;
use std::alloc::{AllocError, Global};
use std::cmp::Ordering;
use std::marker::Model;

/// What a size would leave of a node, the node's name and its place.
#[derive(Drop)]
struct Rank<'a> {
    left: Resources,
    name: &'a Text,
    node: usize,
}

fn compare(a: &Rank<'_>, b: &Rank<'_>) -> Ordering
    ensures { result ≡ compare_ranks a.now b.now }
{
    match resources::compare(a.left, b.left) {
        Ordering::Equal => a.name.cmp(b.name).then(a.node.cmp(&b.node)),
        by_left => by_left,
    }
}

/// The ranks of the nodes with room, in the order of the nodes.
fn ranks<'a>(
    alloc: Global,
    candidates: &[Candidate<'a>],
    size: Resources,
) -> Result<Vec<Rank<'a>>, AllocError>
    ensures { IfOk result (λ v. AreRanks size candidates.now (length candidates.now) v.items) }
{
    let mut ranks = Vec::with_capacity(alloc, candidates.len())?;
    for i in 0..candidates.len() {
        let candidate = &candidates[i];
        if fits(candidate, size) {
            ranks.push(Rank {
                left: minus(candidate.left(), size),
                name: candidate.name(),
                node: i,
            })?;
        }
    }
    Ok(ranks)
}

/// The places of the ranks.
fn nodes_of(alloc: Global, ranks: &[Rank<'_>]) -> Result<Vec<usize>, AllocError>
    ensures { IfOk result (λ v. v.items ≡ nodes ranks.now) }
{
    ranks.iter().map(|r| r.node).collect(alloc)
}

/// The nodes with room, the best first.
fn in_order(
    alloc: Global,
    candidates: &[Candidate<'_>],
    size: Resources,
) -> Result<Vec<usize>, AllocError>
    ensures { IfOk result (λ v. IsOrder (walk size v.items) candidates.now) }
{
    let mut ranks = ranks(alloc, candidates, size)?;
    ranks.sort_unstable_by(|a, b| compare(a, b));
    nodes_of(alloc, &ranks)
}

/// The first index from `from` on whose node has room, or the end of `nodes`.
fn skip(candidates: &[Candidate<'_>], nodes: &[usize], from: usize, size: Resources) -> usize
    requires within { from ≤ length nodes.now }
    requires order { IsOrder (walk size (drop from nodes.now)) candidates.now }
    ensures within { result ≤ length nodes.now }
    ensures order { IsOrder (walk size (drop result nodes.now)) candidates.now }
    ensures room { result < length nodes.now →
        HoldsAt (λ c. fits size c ≡ true) candidates.now (slice_index nodes.now result) }
{
    for i in from..nodes.len() {
        if fits(&candidates[nodes[i]], size) {
            return i;
        }
    }
    nodes.len()
}

/// The nodes that are left to try for allocations of one size, the best first. It is right for the candidates that it
/// was made for, as placements change them (`IsOrder`). Contracts see the size and those nodes.
#[derive(Drop)]
pub struct Order {
    size: Resources,
    nodes: Vec<usize>,
    at: usize,
}

impl Model for Order {
    ghost use Rattle.std.specs.Prelude.{◌≤◌, drop, length};
    ghost use Rattle.ns_place.specs.Order.{Walk, walk};

    ghost Value = { Walk };

    ghost view = { λ o. walk o.size (drop o.at o.nodes.items) };

    ghost invariant = { λ o. o.at ≤ length o.nodes.items };
}

impl Order {
    /// The order of all nodes that have room for the size. Want of memory is the only error.
    pub fn new(
        alloc: Global,
        candidates: &[Candidate<'_>],
        size: Resources,
    ) -> Result<Order, AllocError>
        ensures { IfOk result (λ o. (o.size ≡ size) × IsOrder o candidates.now) }
    {
        let nodes = in_order(alloc, candidates, size)?;
        Ok(Order { size, nodes, at: 0 })
    }

    /// Makes the order one for allocations of `size`. If that is another size than before, it begins anew with all nodes that
    /// have room. Want of memory is the only error, and leaves the order as it was.
    pub fn turn_to(
        &mut self,
        alloc: Global,
        candidates: &[Candidate<'_>],
        size: Resources,
    ) -> Result<(), AllocError>
        requires { IsOrder self.old candidates.now }
        ensures size { OnOk result (self.new.size ≡ size) }
        ensures order { IsOrder self.new candidates.now }
        ensures err { OnErr result (self.new ≡ self.old) }
    {
        if self.size == size {
            return Ok(());
        }
        self.nodes = in_order(alloc, candidates, size)?;
        self.at = 0;
        self.size = size;
        Ok(())
    }

    /// The best node with room. It stays the next one while it has room. None only where no node has room. It takes no memory.
    pub fn next(&mut self, candidates: &[Candidate<'_>]) -> Option<usize>
        requires { IsOrder self.old candidates.now }
        ensures size { self.new.size ≡ self.old.size }
        ensures order { IsOrder self.new candidates.now }
        ensures best { result ≡ best_fit self.old.size candidates.now }
        ensures first { MatchOption result
            (self.new.rest ≡ [])
            (IsNextNode self.new candidates.now) }
    {
        self.at = skip(candidates, &self.nodes, self.at, self.size);
        if self.at < self.nodes.len() {
            Some(self.nodes[self.at])
        } else {
            None
        }
    }

    /// Adds the node, to be tried after the others. Want of memory is the only error, and leaves the order as it was.
    pub fn add(&mut self, node: usize) -> Result<(), AllocError>
        ensures ok { OnOk result (self.new ≡ walk self.old.size (self.old.rest ++ node ∷ [])) }
        ensures err { OnErr result (self.new ≡ self.old) }
    {
        self.nodes.push(node)?;
        Ok(())
    }
}
