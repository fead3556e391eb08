//! Gives each thread its duty and its seat.

ghost use Rattle.std.specs.Prelude.{◌≡◌, [], IfOk, map};
ghost use Rattle.ns_listener.specs.Duties.{duties_of};

use crate::duty::Duty;
use ns_work_lock::{Retention, Seat, Shared};
use std::alloc::{AllocError, Global};
use std::sync::Wait;
use std::sync::ledger::Ledger;

/// A thread's duty, with its seat.
pub type ThreadJob<L, D, M> = (Duty<D>, Seat<L, M>);

/// The duties: a connection thread for each drawer, then `workers` workers.
pub fn duties<D: Drop>(
    alloc: Global,
    workers: u64,
    draws: Vec<D>,
) -> Result<Vec<Duty<D>>, AllocError>
    ensures { IfOk result (λ duties. duties.items ≡ duties_of draws.items workers) }
{
    let mut duties: Vec<Duty<D>> = draws.into_iter().map(Duty::Connections).collect(alloc)?;
    for number in 0..workers {
        duties.push(Duty::Worker(number))?;
    }
    Ok(duties)
}

/// Each duty with a seat that has no receipts.
pub fn seated<L: Ledger, R: Wait, D: Drop, M: Retention>(
    rt: &R,
    alloc: Global,
    shared: &Shared<L>,
    duties: Vec<Duty<D>>,
) -> Result<Vec<ThreadJob<L, D, M>>, AllocError>
    ensures { IfOk result (λ jobs. jobs.items ≡ map (λ duty. (duty, [])) duties.items) }
{
    let mut jobs = Vec::new(alloc);
    for duty in duties {
        let seat = shared.seat(rt, alloc).ok_or(AllocError)?;
        jobs.push((duty, seat))?;
    }
    Ok(jobs)
}
