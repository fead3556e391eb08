//! Laws of counters, each the contract of a function that does nothing.

ghost use Rattle.ns_applier.specs.HeadroomApplying.{PassesByApply};
ghost use Rattle.ns_applier.specs.Passing.{PassesByEnds};
ghost use Rattle.ns_applier.specs.Raising.{PassesByCounts};
ghost use Rattle.ns_applier.specs.Shown.{EndedIsShown};

/// A step that releases something only by the allocations that it ends passes a bound by what it counts itself, or by
/// what one of these allocations releases.
pub fn passes_by_ends()
    ensures { PassesByEnds }
{}

/// If such a step otherwise only counts, the state before it and the counts decide whether it passes a bound.
pub fn passes_by_counts()
    ensures { PassesByCounts }
{}

/// An Apply passes a bound by the numbers that it gives, by the indexes of the namespaces in which it ends or places
/// something, or by what one of its stops and evictions releases.
pub fn passes_by_apply()
    ensures { PassesByApply }
{}

/// An allocation that ends is shown differently than before.
pub fn ended_is_shown()
    ensures { EndedIsShown }
{}
