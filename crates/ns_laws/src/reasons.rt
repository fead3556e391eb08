//! Laws of refusals: for which reasons each request is refused, and which reason comes first.

ghost use Rattle.ns_laws.specs.Reasons.{
  FirstRefusal,
  RefusesForReason,
  NotFoundIsMissing,
  PastBoundIsFull,
  JobsAreAThousand,
};

/// If there is a reason to refuse a step (`HasReason`), it is refused with such a reason, and no other one that holds
/// comes before it.
pub fn first_refusal()
    ensures { FirstRefusal }
{}

/// If a step is refused, it is for such a reason; or with `full`, where a counter would pass its bound.
pub fn refuses_for_reason()
    ensures { RefusesForReason }
{}

/// With the right to a step, it is refused `not found` exactly where what it names is not there.
pub fn not_found_is_missing()
    ensures { NotFoundIsMissing }
{}

/// With the right to a step that would bring a counter past its bound, it is refused `full`.
pub fn past_bound_is_full()
    ensures { PastBoundIsFull }
{}

/// A namespace that has 1000 jobs is full: the registration of a new one is refused `full`, if nothing comes before that.
pub fn jobs_are_a_thousand()
    ensures { JobsAreAThousand }
{}
