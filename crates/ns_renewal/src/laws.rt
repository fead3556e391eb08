//! Laws of the words that the contracts use. Each is the contract of a function that does nothing.

ghost use Rattle.ns_renewal.specs.Laws.{NumbersSuffice, OnceIsEnough, OnceNeedsNoMore, RowsBeforeStops};

/// If no namespace's number would pass its bound, each namespace has the numbers for its evaluations.
pub fn numbers_suffice()
    ensures { NumbersSuffice }
{}

/// Evictions that name each allocation once make the same evaluations as evictions that name some of them again.
pub fn once_is_enough()
    ensures { OnceIsEnough }
{}

/// Evictions that name each allocation once need no more numbers than evictions that name some of them again.
pub fn once_needs_no_more()
    ensures { OnceNeedsNoMore }
{}

/// The evictions that count after some stops are of allocations whose rows are as they were before the stops.
pub fn rows_before_stops()
    ensures { RowsBeforeStops }
{}
