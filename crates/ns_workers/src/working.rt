//! Workers.

ghost use Rattle.std.specs.Prelude.{◌≡◌, IsFalse, IsNone, IsTrue};
ghost use Rattle.ns_workers.specs.declared.halt.Halt.TheVariants as Halt;
ghost use Rattle.ns_workers.specs.Growing.{Grows, IsOfWorker};

use crate::gate::Gate;
use crate::halt::Halt;
use crate::pausing::pause;
use crate::turn::Post;
use ns_driver::Kept;
use ns_work_lock::{Retention, Role, Seat, Shared};
use std::alloc::Global;
use std::rt::Clock;
use std::sync::Wait;
use std::sync::ledger::Ledger;

/// Pauses if the log is rotated and the applier, which rotates it, has not ended. Returns whether the worker goes on.
fn await_rotation<L: Ledger, G: Gate, R: Wait + Clock>(post: &Post<'_, L, G, R>) -> bool
    ensures { IsNone post.now.shared.now.rotates_at → IsFalse result }
{
    if post.shared.rotates_at.is_none() || post.shared.now(post.rt).applier_left {
        return false;
    }
    pause(post.rt);
    true
}

/// Gives the evaluation back, and pauses. Returns whether the worker goes on: not if a counter is full, or if the log is full
/// and stays so.
fn goes_on_later<L: Ledger, G: Gate, R: Wait + Clock, M: Retention>(
    post: &Post<'_, L, G, R>,
    seat: &mut Seat<L, M>,
    kept: &mut Kept,
) -> bool
    ensures { Grows (IsOfWorker post.now.number) seat.old seat.new }
{
    match post.give_back(seat, kept) {
        Err(Halt::Ends) => false,
        Err(Halt::Full) => await_rotation(post),
        _ => {
            pause(post.rt);
            true
        }
    }
}

/// Gives the evaluation back if that is due. Returns whether the worker goes on.
fn goes_on<L: Ledger, G: Gate, R: Wait + Clock, M: Retention>(
    post: &Post<'_, L, G, R>,
    seat: &mut Seat<L, M>,
    kept: &mut Kept,
    halt: Halt,
) -> bool
    ensures grows { Grows (IsOfWorker post.now.number) seat.old seat.new }
    ensures late { halt ≡ Halt.Late → IsTrue result }
    ensures full { halt ≡ Halt.Full → IsNone post.now.shared.now.rotates_at → IsFalse result }
    ensures leaves { halt ≡ Halt.Leaves → IsFalse result }
    ensures ends { halt ≡ Halt.Ends → IsFalse result }
{
    match halt {
        Halt::Late => true,
        Halt::Memory => goes_on_later(post, seat, kept),
        Halt::Full => await_rotation(post),
        Halt::Leaves => {
            // What may not be given back stays with the worker.
            let _ = post.give_back(seat, kept);
            false
        }
        Halt::Ends => false,
    }
}

/// Makes one turn. Returns whether the worker goes on.
fn step<L: Ledger, G: Gate, R: Wait + Clock, M: Retention>(
    post: &Post<'_, L, G, R>,
    seat: &mut Seat<L, M>,
    kept: &mut Kept,
) -> bool
    ensures { Grows (IsOfWorker post.now.number) seat.old seat.new }
{
    match post.turn(seat, kept) {
        Ok(()) => true,
        Err(halt) => goes_on(post, seat, kept, halt),
    }
}

/// Dequeues one evaluation after another, plans it with no lock held, and finishes it once its plan was applied. If no memory
/// is left, it gives its evaluation back, and pauses before it tries again. If the log is full and is rotated, it pauses until
/// it was rotated. It ends if a counter is full, if the log is full and stays so, if the gate stops it, if its plan waits and
/// the applier has ended, and if it is idle once the server is closed.
///
/// Each worker has a number of its own, below 64: a worker with another number ends at once. A worker that enters once the
/// server is closed dequeues nothing, so the applier may end before all workers have entered.
pub fn worker<L: Ledger, G: Gate, R: Wait + Clock, M: Retention>(
    rt: &R,
    alloc: Global,
    shared: &Shared<L>,
    gate: &G,
    number: u64,
    seat: &mut Seat<L, M>,
)
    ensures { Grows (IsOfWorker number) seat.old seat.new }
{
    let post = Post {
        rt,
        alloc,
        shared,
        gate,
        number,
    };
    let mut kept = Kept::Nothing;
    shared.enter(rt, Role::Worker);
    for _ in rt.forever() {
        if !step(&post, seat, &mut kept) {
            break;
        }
    }
    shared.leave(rt, Role::Worker);
}
