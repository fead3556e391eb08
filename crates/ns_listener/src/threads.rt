//! The threads of a server.

ghost use denote.Param.Send.{IsSend, IsSync};
ghost use Rattle.std.specs.Prelude.{◌≡◌, ◌≢◌, ◌+◌, IfOk, IsNone, IsTrue, OnOk, Some, vec_len};
ghost use Rattle.ns_workers.specs.Keeping.{TakesSome};
ghost use Rattle.ns_listener.specs.declared.fault.HostFault.TheVariants as HostFault;

use crate::Listener;
use crate::accept_limit::AcceptLimit;
use crate::connection_threads::ConnectionThreads;
use crate::context::Context;
use crate::duty::perform;
use crate::fault::HostFault;
use crate::seating::{ThreadJob, duties, seated};
use crate::service::Service;
use crate::start::Start;
use ns_endpoints::Draws;
use ns_work_lock::{Retention, Seat, Shared};
use ns_workers::{Keep, applier};
use std::alloc::{AllocError, Global};
use std::rt::Clock;
use std::sync::Wait;
use std::sync::ledger::Ledger;
use std::thread;
use std::thread::{JoinHandle, Threads};

/// A running thread, which returns its seat.
type Running<L, M> = JoinHandle<Result<Seat<L, M>, HostFault>>;

/// Keeps the seat that a thread returned.
fn keep<L: Ledger, M: Retention>(
    seats: &mut Vec<Seat<L, M>>,
    ended: Result<Seat<L, M>, HostFault>,
) -> Result<(), HostFault>
    ensures { OnOk result (vec_len seats.new ≡ vec_len seats.old + 1) }
{
    match seats.push(ended?) {
        Ok(()) => Ok(()),
        Err(_) => Err(HostFault::Memory),
    }
}

/// The fault to report, of an earlier one and the next: want of memory if either is that, otherwise the next.
fn worse_of(before: Option<HostFault>, next: HostFault) -> HostFault
    ensures memory { before ≡ Some HostFault.Memory → result ≡ HostFault.Memory }
    ensures next { before ≢ Some HostFault.Memory → result ≡ next }
{
    match before {
        Some(HostFault::Memory) => HostFault::Memory,
        _ => next,
    }
}

/// Joins the threads, and returns their seats in their order.
fn join<L: Ledger, R: Threads + Wait, M: Retention>(
    rt: &R,
    alloc: Global,
    running: Vec<Running<L, M>>,
) -> Result<Vec<Seat<L, M>>, HostFault>
    ensures { IfOk result (λ seats. vec_len seats ≡ vec_len running) }
{
    let mut seats = Vec::new(alloc);
    let mut fault = None;
    for handle in running {
        if let Err(next) = keep(&mut seats, handle.join(rt)) {
            fault = Some(worse_of(fault, next));
        }
    }
    match fault {
        Some(fault) => Err(fault),
        None => Ok(seats),
    }
}

/// Joins the threads, and returns their seats in their order, with the applier's seat last. It fails where a thread could not
/// be made.
fn gather<L: Ledger, R: Threads + Wait, M: Retention>(
    rt: &R,
    alloc: Global,
    running: Vec<Running<L, M>>,
    is_full: bool,
    seat: Seat<L, M>,
) -> Result<Vec<Seat<L, M>>, HostFault>
    ensures full { OnOk result (IsTrue is_full) }
    ensures seats { IfOk result (λ seats. vec_len seats ≡ vec_len running + 1) }
{
    let mut seats = join(rt, alloc, running)?;
    if !is_full {
        return Err(HostFault::Memory);
    }
    match seats.push(seat) {
        Ok(()) => Ok(seats),
        Err(_) => Err(HostFault::Memory),
    }
}

/// Runs the applier beside the threads, unless one could not be made, and then joins them.
fn apply_beside<L: Ledger, K: Keep + Drop, R: Threads + Wait + Clock, M: Retention>(
    rt: &R,
    alloc: Global,
    shared: &Shared<L>,
    running: Vec<Running<L, M>>,
    is_full: bool,
    mut seat: Seat<L, M>,
    mut keeper: K,
) -> (Result<Vec<Seat<L, M>>, HostFault>, K)
    ensures full { OnOk result.0 (IsTrue is_full) }
    ensures seats { IfOk result.0 (λ seats. vec_len seats ≡ vec_len running + 1) }
    ensures takes { TakesSome K.takes keeper result.1 }
    ensures never { IsNone shared.now.rotates_at → result.1 ≡ keeper }
{
    if is_full {
        applier(rt, alloc, shared, &mut keeper, &mut seat);
    }
    (gather(rt, alloc, running, is_full, seat), keeper)
}

/// Runs a thread for each job beside the applier, and returns the seats, with the applier's seat last. Where a thread cannot be
/// made, none begins.
fn run<
    L: Ledger + Send + Sync,
    R: Threads + Wait + Clock + Sync,
    D: Draws + Drop + Send,
    K: Keep + Drop,
    M: Retention + Send,
>(
    rt: &R,
    alloc: Global,
    context: &Context<L>,
    jobs: Vec<ThreadJob<L, D, M>>,
    seat: Seat<L, M>,
    keeper: K,
) -> (Result<Vec<Seat<L, M>>, HostFault>, K)
    ensures seats { IfOk result.0 (λ seats. vec_len seats ≡ vec_len jobs + 1) }
    ensures takes { TakesSome K.takes keeper result.1 }
    ensures never { IsNone context.now.shared.now.rotates_at → result.1 ≡ keeper }
{
    thread::scope(
        thread::scope_env(),
        rt,
        move |scope| -> (Result<Vec<Seat<L, M>>, HostFault>, K)
            requires { IsSync R.row × IsSend D.row × IsSend M.row }
            ensures { IfOk result.0 (λ seats. vec_len seats ≡ vec_len jobs + 1)
                × TakesSome K.takes keeper result.1
                × (IsNone context.entry.now.shared.now.rotates_at → result.1 ≡ keeper) }
        {
            let Ok(mut running) = Vec::with_capacity(alloc, jobs.len()) else {
                return (Err(HostFault::Memory), keeper);
            };
            let mut is_full = true;
            for (duty, seat) in jobs {
                match scope.spawn(move || perform(rt, alloc, context, duty, seat)) {
                    Ok(handle) => is_full &= running.push(handle).is_ok(),
                    Err(_) => is_full = false,
                }
            }
            context.start.set(rt, is_full);
            apply_beside(rt, alloc, context.shared, running, is_full, seat, keeper)
        },
    )
}

/// Each thread's duty with a seat, and a seat for the applier.
fn prepare<L: Ledger, R: Wait, D: Draws + Drop, M: Retention>(
    rt: &R,
    alloc: Global,
    shared: &Shared<L>,
    workers: u64,
    draws: Vec<D>,
) -> Result<(Vec<ThreadJob<L, D, M>>, Seat<L, M>), AllocError>
    ensures { IfOk result (λ made. vec_len made.0 ≡ vec_len draws + workers) }
{
    let duties = duties(alloc, workers, draws)?;
    let jobs = seated(rt, alloc, shared, duties)?;
    let seat = shared.seat(rt, alloc).ok_or(AllocError)?;
    Ok((jobs, seat))
}

/// Serves connections of a shared server: one thread for each drawer, beside the workers of the service and the applier.
/// Returns a seat for each thread and for the applier. The keeper takes the segments that are given out meanwhile.
pub fn host<
    'a,
    L: Ledger + Send + Sync,
    R: Threads + Wait + Clock + Sync,
    D: Draws + Drop + Send,
    K: Keep + Drop,
    M: Retention + Send,
>(
    rt: &R,
    alloc: Global,
    shared: &'a Shared<L>,
    listener: &'a Listener,
    service: &Service,
    draws: Vec<D>,
    keeper: K,
) -> (Result<Vec<Seat<L, M>>, HostFault>, K)
    ensures seats { IfOk result.0
        (λ seats. vec_len seats ≡ vec_len draws + service.now.workers + 1) }
    ensures takes { TakesSome K.takes keeper result.1 }
    ensures never { IsNone shared.now.rotates_at → result.1 ≡ keeper }
{
    let context = Context {
        shared,
        listener,
        accept_limit: AcceptLimit::new(service.accept),
        connection_threads: ConnectionThreads::new(draws.len() as u64),
        start: Start::new(),
        idle: service.idle,
    };
    match prepare(rt, alloc, shared, service.workers, draws) {
        Ok((jobs, seat)) => run(rt, alloc, &context, jobs, seat, keeper),
        Err(_) => (Err(HostFault::Memory), keeper),
    }
}
