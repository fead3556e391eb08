//! The applier.

ghost use Rattle.std.specs.Prelude.{◌≡◌, IsFalse, IsNone, IsTrue, false, true};
ghost use Rattle.ns_workers.specs.Growing.{Grows, IsApply, IsApplyOf};
ghost use Rattle.ns_workers.specs.Halting.{is_over, course_of};
ghost use Rattle.ns_workers.specs.Keeping.{TakesSome};

use crate::keep::Keep;
use crate::pausing::pause;
use ns_log::segments::Segment;
use ns_types::refusal::Refusal;
use ns_types::reply::Reply;
use ns_work_lock::{ApplierView, Moment, Planner, Retention, Role, Seat, Shared, WaitsFor};
use std::alloc::Global;
use std::rt::Clock;
use std::sync::Wait;
use std::sync::ledger::Ledger;

/// What the applier does after it applied a plan.
#[derive(Clone, Copy, PartialEq, Eq)]
enum Course {
    GoesOn,
    /// It tries again after a pause.
    Pauses,
    /// The log is full. If the log is rotated, the applier tries again after a pause; otherwise it closes the server, and ends.
    Full,
    /// It closes the server, and ends.
    Ends,
}

fn course_after(answer: Result<Reply, Refusal>) -> Course
    ensures { result ≡ course_of answer }
{
    match answer {
        Ok(_) | Err(Refusal::NotEnabled) => Course::GoesOn,
        Err(Refusal::Memory) => Course::Pauses,
        Err(Refusal::LogFull) => Course::Full,
        Err(_) => Course::Ends,
    }
}

/// If the log is rotated, pauses. Otherwise the log stays full, and it closes the server. Returns whether the applier goes on.
fn outlasts_full<L: Ledger, R: Wait + Clock>(rt: &R, shared: &Shared<L>) -> bool
    ensures { IsNone shared.now.rotates_at → IsFalse result }
{
    if shared.rotates_at.is_none() {
        shared.close(rt);
        return false;
    }
    pause(rt);
    true
}

/// Applies the plan. Returns whether the applier goes on.
fn apply<L: Ledger, R: Wait + Clock, M: Retention>(
    rt: &R,
    alloc: Global,
    shared: &Shared<L>,
    seat: &mut Seat<L, M>,
    planner: &Planner,
) -> bool
    ensures { Grows (IsApplyOf planner.now) seat.old seat.new }
{
    let answer = shared.apply(rt, alloc, seat, planner.worker, &planner.namespace);
    match course_after(answer) {
        Course::GoesOn => true,
        Course::Pauses => {
            pause(rt);
            true
        }
        Course::Full => outlasts_full(rt, shared),
        Course::Ends => {
            shared.close(rt);
            false
        }
    }
}

/// Whether no plan comes any more: a worker that enters once the server is closed hands none in.
fn is_over(seen: Moment) -> bool
    ensures { result ≡ is_over seen }
{
    seen.is_closed && seen.workers == 0
}

/// Waits for a plan, if one may still come. Returns whether one may.
fn await_plan<L: Ledger, R: Wait>(rt: &R, shared: &Shared<L>, seen: Moment) -> bool
    ensures over { is_over seen ≡ true → IsFalse result }
    ensures awaits { is_over seen ≡ false → IsTrue result }
{
    if is_over(seen) {
        return false;
    }
    shared.wait_past(rt, WaitsFor::Plans, seen);
    true
}

/// Hands the segment to the keeper. If the keeper gives it back, its entries are spent.
fn hand_over<L: Ledger, K: Keep, R: Wait>(
    rt: &R,
    alloc: Global,
    shared: &Shared<L>,
    keeper: &mut K,
    segment: Segment,
)
    ensures { K.takes keeper.old segment keeper.new }
{
    if let Some(back) = keeper.keep(alloc, segment) {
        shared.spend(rt, back);
    }
}

/// Rotates the log if that is due, and hands the segment to the keeper with no lock held. False: no memory was left, so it has
/// to be tried again.
fn rotate<L: Ledger, K: Keep, R: Wait>(
    rt: &R,
    alloc: Global,
    shared: &Shared<L>,
    keeper: &mut K,
    is_due: bool,
) -> bool
    ensures takes { TakesSome K.takes keeper.old keeper.new }
    ensures never { IsFalse is_due → IsTrue result × (keeper.new ≡ keeper.old) }
{
    if !is_due {
        return true;
    }
    match shared.rotate(rt, alloc) {
        Ok(segment) => {
            hand_over(rt, alloc, shared, keeper, segment);
            true
        }
        Err(_) => false,
    }
}

/// Applies the next plan, or waits for one. Returns whether the applier goes on.
fn apply_next<L: Ledger, R: Wait + Clock, M: Retention>(
    rt: &R,
    alloc: Global,
    shared: &Shared<L>,
    seat: &mut Seat<L, M>,
    view: &ApplierView,
) -> bool
    ensures { Grows IsApply seat.old seat.new }
{
    match &view.planner {
        Some(planner) => apply(rt, alloc, shared, seat, planner),
        None => await_plan(rt, shared, view.seen),
    }
}

/// Rotates the log if that is due, and then applies the next plan, or waits for one. Returns whether the applier goes on. It
/// looks at the server at one moment, so a wait past that moment misses no change.
fn step<L: Ledger, K: Keep, R: Wait + Clock, M: Retention>(
    rt: &R,
    alloc: Global,
    shared: &Shared<L>,
    keeper: &mut K,
    seat: &mut Seat<L, M>,
) -> bool
    ensures grows { Grows IsApply seat.old seat.new }
    ensures takes { TakesSome K.takes keeper.old keeper.new }
    ensures never { IsNone shared.now.rotates_at → keeper.new ≡ keeper.old }
{
    let Ok(view) = shared.applier_view(rt) else {
        pause(rt);
        return true;
    };
    if !rotate(rt, alloc, shared, keeper, view.is_due) {
        pause(rt);
        return true;
    }
    apply_next(rt, alloc, shared, seat, &view)
}

/// Applies one plan after another. Before a plan it rotates the log, if the log has at least as many entries as it is rotated
/// at, or more bytes of text than it is rotated past; the keeper takes the segments. If no memory is left, it tries again after
/// a pause. If a counter is full, or the log is full and is not rotated, it closes the server and ends. It ends as well once
/// the server is closed, no plan waits and no worker is left.
///
/// It has to run beside the workers: a worker waits until its plan was applied, or the applier has ended.
pub fn applier<L: Ledger, K: Keep, R: Wait + Clock, M: Retention>(
    rt: &R,
    alloc: Global,
    shared: &Shared<L>,
    keeper: &mut K,
    seat: &mut Seat<L, M>,
)
    ensures grows { Grows IsApply seat.old seat.new }
    ensures takes { TakesSome K.takes keeper.old keeper.new }
    ensures never { IsNone shared.now.rotates_at → keeper.new ≡ keeper.old }
{
    shared.enter(rt, Role::Applier);
    for _ in rt.forever() {
        if !step(rt, alloc, shared, keeper, seat) {
            break;
        }
    }
    shared.leave(rt, Role::Applier);
}
