//! Places the missing allocations one by one, each in the state that those before it leave.

ghost use Rattle.std.specs.Prelude.{◌≡◌, ◌<◌, ◌↔◌, IfOk, IsTrue, None, Some, length, take};
ghost use Rattle.std.specs.List.{HoldsAt};
ghost use Rattle.ns_types.specs.Placing.Planning.{place, placed_on, placed_one, update};
ghost use Rattle.ns_types.specs.State.Resources.{IsCounted, plus, total};
ghost use Rattle.ns_place.specs.Order.{IsOrder};
ghost use Rattle.ns_preempt.specs.Ranking.{IsRanking, IsRankingBut};
ghost use Rattle.ns_schedule.specs.Chosen.{IsChosen, IsNext, IsRefused, IsWithin, site};

use crate::choice::{Chosen, choose_with_victims};
use ns_place::{Candidate, Order, give_way};
use ns_preempt::Ranking;
use ns_types::plan::{Demand, Placement, Placing};
use ns_types::resources::{Resources, limits_allow, plus, same_resources};
use ns_types::rows::Rows;
use ns_types::snapshot::QuotaSeen;
use std::alloc::{AllocError, Global};

/// Places the demand on the chosen node, and ranks that node as it is afterwards.
fn place_at<'a>(
    alloc: Global,
    candidates: &mut Vec<Candidate<'a>>,
    ranking: &mut Ranking<'a>,
    used: &mut Resources,
    quota: &QuotaSeen,
    demand: Demand,
    chosen: Chosen,
) -> Result<Placement, AllocError>
    requires inside { chosen.node < length candidates.old.items }
    requires chosen { HoldsAt
        (IsChosen demand.size candidates.old.items chosen.node chosen.victims)
        candidates.old.items chosen.node }
    requires ranking { IsRankingBut chosen.node ranking.old candidates.old.items }
    requires counted { IsCounted (plus used.old demand.size) }
    ensures placed { IfOk result (λ p.
        placed_one quota.now demand (site candidates.old.items used.old)
        ≡ Some (p, site candidates.new.items used.new)) }
    ensures within { IfOk result (λ _. IsWithin used.new (plus used.old demand.size)) }
    ensures changed { IfOk result (λ _. HoldsAt (λ c. candidates.new.items
        ≡ update chosen.node (placed_on demand.size (take chosen.victims c.evictable))
        candidates.old.items) candidates.old.items chosen.node) }
    ensures ranking { IfOk result (λ _. IsRanking ranking.new candidates.new.items) }
{
    let candidate = &mut candidates[chosen.node];
    let given_way = give_way(alloc, candidate, quota, *used, demand.size, chosen.victims)?;
    *used = given_way.used;
    ranking.add(candidates.as_slice(), chosen.node)?;
    Ok(Placement {
        group: demand.group,
        node: chosen.node as u64,
        size: demand.size,
        evictions: given_way.evictions,
    })
}

/// Places the demand on the next node of the order. If there is none, it places it on the node whose victims are cheapest, and
/// adds that node to the order, as afterwards no other can have room. None where no node has victims either.
fn place_next<'a>(
    alloc: Global,
    candidates: &mut Vec<Candidate<'a>>,
    order: &mut Order,
    ranking: &mut Ranking<'a>,
    used: &mut Resources,
    quota: &QuotaSeen,
    demand: Demand,
) -> Result<Option<Placement>, AllocError>
    requires size { order.old.size ≡ demand.size }
    requires order { IsOrder order.old candidates.old.items }
    requires ranking { IsRanking ranking.old candidates.old.items }
    requires counted { IsCounted (plus used.old demand.size) }
    ensures next { IfOk result (IsNext quota.now demand
        (site candidates.old.items used.old) (site candidates.new.items used.new)) }
    ensures within { IfOk result (λ _. IsWithin used.new (plus used.old demand.size)) }
    ensures order { IfOk result (λ _. IsOrder order.new candidates.new.items) }
    ensures ranking { IfOk result (λ _. IsRanking ranking.new candidates.new.items) }
{
    if let Some(node) = order.next(candidates.as_slice()) {
        let chosen = Chosen { node, victims: 0 };
        let placement = place_at(alloc, candidates, ranking, used, quota, demand, chosen)?;
        return Ok(Some(placement));
    }
    let Some(chosen) = choose_with_victims(candidates.as_slice(), ranking, demand.size)? else {
        return Ok(None);
    };
    let placement = place_at(alloc, candidates, ranking, used, quota, demand, chosen)?;
    order.add(chosen.node)?;
    Ok(Some(placement))
}

fn is_for(refused: Option<Resources>, size: Resources) -> bool
    ensures { IsTrue result ↔ refused ≡ Some size }
{
    match refused {
        Some(other) => same_resources(other, size),
        None => false,
    }
}

/// Places the demand, or leaves it: at once, if its size was the last refused and nothing was placed since.
fn place_or_leave<'a>(
    alloc: Global,
    candidates: &mut Vec<Candidate<'a>>,
    order: &mut Order,
    ranking: &mut Ranking<'a>,
    refused: &mut Option<Resources>,
    used: &mut Resources,
    quota: &QuotaSeen,
    demand: Demand,
) -> Result<Option<Placement>, AllocError>
    requires order { IsOrder order.old candidates.old.items }
    requires ranking { IsRanking ranking.old candidates.old.items }
    requires refused { IsRefused refused.old candidates.old.items }
    requires counted { IsCounted (plus used.old demand.size) }
    ensures next { IfOk result (IsNext quota.now demand
        (site candidates.old.items used.old) (site candidates.new.items used.new)) }
    ensures within { IfOk result (λ _. IsWithin used.new (plus used.old demand.size)) }
    ensures order { IfOk result (λ _. IsOrder order.new candidates.new.items) }
    ensures ranking { IfOk result (λ _. IsRanking ranking.new candidates.new.items) }
    ensures refused { IfOk result (λ _. IsRefused refused.new candidates.new.items) }
{
    if is_for(*refused, demand.size) {
        return Ok(None);
    }
    order.turn_to(alloc, candidates.as_slice(), demand.size)?;
    match place_next(alloc, candidates, order, ranking, used, quota, demand)? {
        Some(placement) => {
            *refused = None;
            Ok(Some(placement))
        }
        None => {
            *refused = Some(demand.size);
            Ok(None)
        }
    }
}

/// Places the demands in their order. For each the quota is checked first, and if it allows no more, placing ends. Then a node
/// is chosen. A demand without a node is left, and the next one follows.
pub(crate) fn place_in_order<'a>(
    alloc: Global,
    candidates: &mut Vec<Candidate<'a>>,
    order: &mut Order,
    used: Resources,
    quota: &QuotaSeen,
    demands: &[Demand],
) -> Result<Placing, AllocError>
    requires order { IsOrder order.old candidates.old.items }
    requires counted { IsCounted (plus used (total (λ d. d.size) demands.now)) }
    ensures { IfOk result (λ placing. placing
        ≡ place quota.now demands.now (site candidates.old.items used)) }
{
    let mut used = used;
    let mut refused = None;
    let mut ranking = Ranking::new(alloc);
    let mut placements = Rows::new(alloc);
    let mut class_limited = false;
    for d in demands {
        if !limits_allow(quota.limits, plus(used, d.size)) {
            return Ok(Placing {
                placements,
                quota_limited: true,
                class_limited: false,
            });
        }
        match place_or_leave(
            alloc,
            candidates,
            order,
            &mut ranking,
            &mut refused,
            &mut used,
            quota,
            *d,
        )? {
            Some(placement) => placements.push(placement)?,
            None => class_limited = true,
        }
    }
    Ok(Placing {
        placements,
        quota_limited: false,
        class_limited,
    })
}
