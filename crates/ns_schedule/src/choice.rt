//! The choice of a node and of victims where no node has room.

ghost use Rattle.std.specs.Prelude.{◌≡◌, ◌<◌, length, IfOk, MatchOption, None};
ghost use Rattle.std.specs.List.{HoldsAt};
ghost use Rattle.ns_types.specs.Placing.Placement.{best_fit};
ghost use Rattle.ns_types.specs.Placing.Planning.{choice};
ghost use Rattle.ns_preempt.specs.Ranking.{IsRanking, IsRankingBut};
ghost use Rattle.ns_schedule.specs.Chosen.{IsChosen};

use ns_place::Candidate;
use ns_preempt::{Ranking, victims};
use ns_types::resources::Resources;
use std::alloc::AllocError;

/// A node, and how many of the allocations that the job may evict there are evicted.
#[derive(Clone, Copy)]
pub(crate) struct Chosen {
    pub node: usize,
    pub victims: usize,
}

/// The node whose victims are cheapest, with their number. None where no node has victims. Until the node is added to the
/// ranking again, all nodes but this one are ranked.
pub(crate) fn choose_with_victims<'a>(
    candidates: &[Candidate<'a>],
    ranking: &mut Ranking<'a>,
    size: Resources,
) -> Result<Option<Chosen>, AllocError>
    requires full { best_fit size candidates.now ≡ None }
    requires ranking { IsRanking ranking.old candidates.now }
    ensures chosen { IfOk result (λ chosen. MatchOption chosen (choice size candidates.now ≡ None)
        (λ ch. (ch.node < length candidates.now)
        × HoldsAt (IsChosen size candidates.now ch.node ch.victims) candidates.now ch.node)) }
    ensures ranking { IfOk result (λ chosen. MatchOption chosen
        (IsRanking ranking.new candidates.now)
        (λ ch. IsRankingBut ch.node ranking.new candidates.now)) }
{
    let Some(node) = ranking.take_best(candidates, size)? else {
        return Ok(None);
    };
    match victims(&candidates[node], size) {
        Some(victims) => Ok(Some(Chosen { node, victims })),
        None => Ok(None),
    }
}
