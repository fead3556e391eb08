//! The evictions of placements that count.

ghost use Rattle.std.specs.Prelude.{◌≡◌, ◌∷◌, [], Bool, MatchOption, filter};
ghost use Rattle.ns_types.specs.declared.plan.Eviction.{Eviction};
ghost use Rattle.ns_types.specs.declared.plan.Placement.{Placement};
ghost use Rattle.ns_renewal.specs.Counted.{counted_of, first_evictions, left_of};

use crate::evictions::Evictions;
use ns_types::plan::{Eviction, Placement};

/// A test of which evictions of a placement count. It takes no memory.
pub trait CountsEviction: Copy {
    /// Whether this eviction of the placement counts.
    ghost passes: { Self → Placement → Eviction → Bool };

    /// Whether this eviction of the placement counts.
    fn counts(&self, placement: &Placement, eviction: &Eviction) -> bool
        ensures { result ≡ passes self.now placement.now eviction.now };
}

/// The evictions of placements that count, in the order of the placements.
#[derive(Clone, Copy)]
pub struct CountedEvictions<'a, C> {
    /// The placements that are left, of which the first is being gone through.
    placements: &'a [Placement],
    /// The evictions that are left of the first placement.
    evictions: &'a [Eviction],
    of: C,
}

fn first_evictions(placements: &[Placement]) -> &[Eviction]
    ensures { result.now ≡ first_evictions placements.now }
{
    match placements {
        [first, ..] => first.evictions.as_slice(),
        [] => &[],
    }
}

/// The first eviction that counts, and the evictions behind it.
fn split_counted<'a, C: CountsEviction>(
    of: C,
    placement: &Placement,
    evictions: &'a [Eviction],
) -> Option<(&'a Eviction, &'a [Eviction])>
    ensures { let counted = filter (C.passes of placement.now) in
        MatchOption result (counted evictions.now ≡ [])
        (λ split. counted evictions.now ≡ split.0.now ∷ counted split.1.now) }
{
    let mut rest = evictions;
    while let Some((eviction, others)) = rest.split_first() {
        if of.counts(placement, eviction) {
            return Some((eviction, others));
        }
        rest = others;
    }
    None
}

impl<'a, C: CountsEviction> CountedEvictions<'a, C> {
    /// The evictions of the placements that count. It takes no memory.
    pub fn new(placements: &'a [Placement], of: C) -> CountedEvictions<'a, C>
        ensures { left_of (C.passes result.of) result.placements.now result.evictions.now
            ≡ counted_of (C.passes of) placements.now }
    {
        CountedEvictions {
            placements,
            evictions: first_evictions(placements),
            of,
        }
    }
}

impl<'a, C: CountsEviction> Evictions for CountedEvictions<'a, C> {
    ghost list = { λ c. left_of (C.passes c.of) c.placements.now c.evictions.now };

    fn split_first(&self) -> Option<(&Eviction, Self)> {
        let of = self.of;
        let mut placements = self.placements;
        let mut evictions = self.evictions;
        while let Some((placement, others)) = placements.split_first() {
            if let Some((eviction, later)) = split_counted(of, placement, evictions) {
                let rest = CountedEvictions {
                    placements,
                    evictions: later,
                    of,
                };
                return Some((eviction, rest));
            }
            placements = others;
            evictions = first_evictions(others);
        }
        None
    }
}
