//! The nodes with victims, ranked by what the victims cost. Demands of one size take the first node of the ranking, so that not
//! every node has to be looked at for each of them.

ghost use Rattle.std.specs.Prelude.{◌≡◌, ◌<◌, ◌↔◌, List, None, Some, length};
ghost use Rattle.std.specs.Prelude.{IfOk, IsTrue, MatchOption, OnOk};
ghost use Rattle.ns_types.specs.Placing.Placement.{Candidate};
ghost use Rattle.ns_types.specs.Placing.Preemption.{best_victims};
ghost use Rattle.ns_preempt.specs.Cost.{cost_of};
ghost use Rattle.ns_preempt.specs.Ranking.{Adds, AreRanked, AreRankedBut, IsRank, IsRankOf};
ghost use Rattle.ns_preempt.specs.Ranking.{IsRanking, IsRankingBut};

use crate::cost::{Cost, cost_of};
use ns_place::Candidate;
use ns_types::resources::{Resources, same_resources};
use ns_types::text::Text;
use std::alloc::{AllocError, Global};
use std::collections::BTreeSet;

/// What the victims on a node cost, its name and its place. Ranks are compared in this order.
#[derive(Clone, Copy, PartialEq, Eq, PartialOrd, Ord)]
struct Rank<'a> {
    cost: Cost,
    name: &'a Text,
    node: usize,
}

/// The rank of the node, as it is now. None where it has no victims.
fn rank_of<'a>(candidate: &Candidate<'a>, node: usize, size: Resources) -> Option<Rank<'a>>
    ensures { MatchOption result (cost_of size candidate.now ≡ None)
        (λ rank. (rank.node ≡ node) × IsRank size rank candidate.now) }
{
    let cost = cost_of(candidate, size)?;
    Some(Rank {
        cost,
        name: candidate.name(),
        node,
    })
}

/// Whether the rank is still right for the node at its place.
fn is_current(rank: &Rank<'_>, candidates: &[Candidate<'_>], size: Resources) -> bool
    ensures yes { IsTrue result → IsRankOf size candidates.now rank.now }
    ensures no { IsRankOf size candidates.now rank.now → IsTrue result }
{
    if rank.node >= candidates.len() {
        return false;
    }
    match rank_of(&candidates[rank.node], rank.node, size) {
        Some(now) => rank.cmp(&now).is_eq(),
        None => false,
    }
}

/// Ranks the node as it is now. Ranks that were there stay.
fn add<'a>(
    ranks: &mut BTreeSet<Rank<'a>>,
    candidate: &Candidate<'a>,
    node: usize,
    size: Resources,
) -> Result<(), AllocError>
    ensures { OnOk result (Adds size node candidate.now ranks.old ranks.new) }
{
    if let Some(rank) = rank_of(candidate, node, size) {
        ranks.insert(rank)?;
    }
    Ok(())
}

/// Ranks each node as it is now.
fn add_all<'a>(
    ranks: &mut BTreeSet<Rank<'a>>,
    candidates: &[Candidate<'a>],
    size: Resources,
) -> Result<(), AllocError>
    ensures { OnOk result (AreRanked size candidates.now ranks.new) }
{
    for i in 0..candidates.len() {
        add(ranks, &candidates[i], i, size)?;
    }
    Ok(())
}

/// Takes out the first rank that is still right for its node, and all ranks before it. It returns that node's place, or None
/// where no node has victims.
fn take_first<'a>(
    ranks: &mut BTreeSet<Rank<'a>>,
    candidates: &[Candidate<'a>],
    size: Resources,
) -> Option<usize>
    requires { AreRanked size candidates.now ranks.old }
    ensures best { result ≡ best_victims size candidates.now }
    ensures others { MatchOption result
        (AreRanked size candidates.now ranks.new)
        (λ k. AreRankedBut k size candidates.now ranks.new) }
{
    while let Some(rank) = ranks.pop_first() {
        if is_current(&rank, candidates, size) {
            return Some(rank.node);
        }
    }
    None
}

/// The nodes with victims for allocations of one size, the node with the cheapest victims first. It is right for the candidates
/// that it was made for, as placements change them, if each node where something was placed is added again (`IsRanking`).
#[derive(Drop)]
pub struct Ranking<'a> {
    /// The size that it is for. None: nothing was asked of it yet.
    size: Option<Resources>,
    /// A rank that is no longer right for its node is passed over.
    ranks: BTreeSet<Rank<'a>>,
}

impl<'a> Ranking<'a> {
    /// A ranking for no size yet. It takes no memory.
    pub fn new(alloc: Global) -> Ranking<'a>
        ensures { (cs : List Candidate) → IsRanking result cs }
    {
        Ranking {
            size: None,
            ranks: BTreeSet::new(alloc),
        }
    }

    fn is_for(&self, size: Resources) -> bool
        ensures { IsTrue result ↔ self.now.size ≡ Some size }
    {
        match self.size {
            Some(own) => same_resources(own, size),
            None => false,
        }
    }

    /// Makes the ranking one for allocations of `size`. If that is another size than before, all nodes are ranked anew.
    fn turn_to(&mut self, candidates: &[Candidate<'a>], size: Resources) -> Result<(), AllocError>
        requires { IsRanking self.old candidates.now }
        ensures size { OnOk result (self.new.size ≡ Some size) }
        ensures ranking { IsRanking self.new candidates.now }
    {
        if self.is_for(size) {
            return Ok(());
        }
        self.size = None;
        self.ranks.clear();
        add_all(&mut self.ranks, candidates, size)?;
        self.size = Some(size);
        Ok(())
    }

    /// Takes out the node whose victims cost least: by the highest priority among them, then by their number, then by the
    /// node's name. None only where no node has victims. Until the node is added again, all nodes but this one are ranked. Want
    /// of memory is the only error.
    pub fn take_best(
        &mut self,
        candidates: &[Candidate<'a>],
        size: Resources,
    ) -> Result<Option<usize>, AllocError>
        requires { IsRanking self.old candidates.now }
        ensures best { IfOk result (λ best. best ≡ best_victims size candidates.now) }
        ensures others { IfOk result (λ best. MatchOption best
            (IsRanking self.new candidates.now)
            (λ k. IsRankingBut k self.new candidates.now)) }
    {
        self.turn_to(candidates, size)?;
        Ok(take_first(&mut self.ranks, candidates, size))
    }

    /// Ranks the node as it is now. No other node is looked at. Want of memory is the only error.
    pub fn add(&mut self, candidates: &[Candidate<'a>], node: usize) -> Result<(), AllocError>
        requires inside { node < length candidates.now }
        requires others { IsRankingBut node self.old candidates.now }
        ensures { OnOk result (IsRanking self.new candidates.now) }
    {
        match self.size {
            Some(size) => add(&mut self.ranks, &candidates[node], node, size),
            None => Ok(()),
        }
    }
}
