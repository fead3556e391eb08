//! Laws of the lists of evaluations: which evaluation comes next, which ones wake, and which one waits first.

ghost use Rattle.ns_laws.specs.Queue.{
  ServedIsFirst,
  FirstIsServed,
  NoneServedOfNone,
  FirstWaitingIsLeast,
  NoneWaitsOfNone,
  WokenInOrder,
  WokenAreCalled,
  WokenWereBlocked,
};

/// The next evaluation of a list, to be dequeued or to have its plan applied, is the first of those with the greatest priority.
pub fn served_is_first()
    ensures { ServedIsFirst }
{}

/// Conversely, the first of those with the greatest priority is the next one.
pub fn first_is_served()
    ensures { FirstIsServed }
{}

/// If a list has no next evaluation, it is empty.
pub fn none_served_of_none()
    ensures { NoneServedOfNone }
{}

/// If a job has a first waiting evaluation, it is the job's pending evaluation with the least number: the one that was made
/// first.
pub fn first_waiting_is_least()
    ensures { FirstWaitingIsLeast }
{}

/// If a job has no first waiting evaluation, none of its evaluations is pending.
pub fn none_waits_of_none()
    ensures { NoneWaitsOfNone }
{}

/// Blocked evaluations wake in the order in which they stand in the list of blocked ones.
pub fn woken_in_order()
    ensures { WokenInOrder }
{}

/// Exactly those evaluations wake that were blocked before the step, are still blocked after its own change, and that one of
/// its releases wakes.
pub fn woken_are_called()
    ensures { WokenAreCalled }
{}

/// In a valid state, each evaluation that wakes had the status `blocked` before the step.
pub fn woken_were_blocked()
    ensures { WokenWereBlocked }
{}
