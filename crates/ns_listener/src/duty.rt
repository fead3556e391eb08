//! What each thread does.

ghost use Rattle.std.specs.Prelude.{IfOk, IsErr, IsNone};
ghost use Rattle.ns_workers.specs.Growing.{Grows};
ghost use Rattle.ns_listener.specs.Duties.{IsDue, IsRequested};

use crate::clients::SharedSeat;
use crate::connections::serve_connections;
use crate::context::Context;
use crate::fault::HostFault;
use ns_api::{Api, NoFollower};
use ns_endpoints::Draws;
use ns_work_lock::{Retention, Seat};
use ns_workers::{Open, worker};
use std::alloc::Global;
use std::rt::Clock;
use std::sync::Wait;
use std::sync::ledger::Ledger;

/// What a thread does.
#[derive(Drop)]
pub enum Duty<D> {
    /// Serves connections, and draws random bits from this drawer.
    Connections(D),
    /// Is the worker with this number.
    Worker(u64),
}

/// Serves connections, and returns the seat. Without a limit of connections it never does: it fails where none can be accepted.
fn attend<L: Ledger, R: Wait + Clock, D: Draws + Drop, M: Retention>(
    rt: &R,
    alloc: Global,
    context: &Context<L>,
    drawer: D,
    seat: Seat<L, M>,
) -> Result<Seat<L, M>, HostFault>
    ensures grows { IfOk result (Grows (IsRequested D.draws) seat) }
    ensures endless { IsNone context.now.accept_limit.left → IsErr result }
{
    let shared = context.shared;
    let mut client = Api::new(alloc, SharedSeat { rt, shared, seat }, drawer, NoFollower)?;
    match serve_connections(rt, alloc, context, &mut client) {
        Ok(()) => Ok(client.into_taker().seat),
        Err(_) => Err(HostFault::Accept),
    }
}

/// Does a thread's duty once all threads are made, and returns its seat. After a fault no thread accepts another connection.
/// The last connection thread to end closes the server, so that the workers and the applier end too.
pub fn perform<L: Ledger, R: Wait + Clock, D: Draws + Drop, M: Retention>(
    rt: &R,
    alloc: Global,
    context: &Context<L>,
    duty: Duty<D>,
    mut seat: Seat<L, M>,
) -> Result<Seat<L, M>, HostFault>
    ensures { IfOk result (Grows (IsDue D.draws duty) seat) }
{
    if !context.start.wait(rt) {
        return Ok(seat);
    }
    match duty {
        Duty::Connections(drawer) => {
            let ended = attend(rt, alloc, context, drawer, seat);
            if ended.is_err() {
                context.listener.shut();
            }
            if context.connection_threads.leave() {
                context.shared.close(rt);
            }
            ended
        }
        Duty::Worker(number) => {
            worker(rt, alloc, context.shared, &Open, number, &mut seat);
            Ok(seat)
        }
    }
}
