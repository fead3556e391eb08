//! The keeper of the segments that the applier gives out.

ghost use Rattle.std.specs.Prelude.{◌≡◌, IfSome};
ghost use Rattle.ns_log.specs.Segments.{Given};

use ns_log::segments::Segment;
use std::alloc::Global;

/// Takes segments of a log, one after the other. No lock is held meanwhile.
pub trait Keep {
    /// The keeper before and after it takes a segment.
    ghost takes: { Self → Given → Self → Type 0 };

    /// Takes a segment, and gives it back if it does not need it any more.
    fn keep(&mut self, alloc: Global, segment: Segment) -> Option<Segment>
        ensures takes { takes self.old segment self.new }
        ensures back { IfSome result (λ back. back ≡ segment) };
}

/// A keeper that gives each segment back at once.
#[derive(Clone, Copy)]
pub struct KeepsNothing;

impl Keep for KeepsNothing {
    ghost takes = { λ _ _ _. Unit {0} };

    fn keep(&mut self, _alloc: Global, segment: Segment) -> Option<Segment> {
        Some(segment)
    }
}
