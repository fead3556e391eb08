//! A round of a driven worker.

ghost use Rattle.std.specs.Prelude.{List};
ghost use Rattle.ns_types.specs.declared.step.Step.{Step};
ghost use Rattle.ns_types.specs.Steps.{Answer};
ghost use Rattle.ns_driver.specs.Driving.{Drives};
ghost use Rattle.ns_driver.specs.Kept.{seen_of};

use crate::kept::Kept;
use crate::stopping::Stop;
use crate::turn::turn;
use crate::works::Works;
use std::alloc::Global;

/// The most steps of one round.
const MOST_STEPS: u64 = 10_000;

/// One round of worker 0: it dequeues evaluations, plans them, has the plans applied and finishes the evaluations. It stops
/// when nothing is ready, when the round has made 10,000 steps, or when a step cannot be made, and returns which of these it
/// was. Its last snapshot is kept for the next round, which goes on where this one stopped.
pub fn drive<W: Works>(alloc: Global, works: &mut W, kept: &mut Kept) -> Stop
    ensures { (steps : List Step) × (answers : List Answer)
        × Drives W.state W.notes W.lacks works.old (seen_of kept.old) steps answers
        works.new (seen_of kept.new) result }
{
    for _ in 0..MOST_STEPS {
        if let Err(stop) = turn(alloc, works, kept) {
            return stop;
        }
    }
    Stop::Limit
}
