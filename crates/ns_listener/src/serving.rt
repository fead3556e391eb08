//! A server on a TCP port.

ghost use Rattle.std.specs.Prelude.{◌≡◌, ◌≢◌, ◌+◌, ◌&&◌, Err, IfOk, IsErr, IsErrOf, IsNone, IsOkAnd, IsTrue};
ghost use Rattle.std.specs.Prelude.{None, OnOk, Some};
ghost use Rattle.std.specs.Prelude.{is_none, is_some, not, vec_len};
ghost use Rattle.ns_http.specs.declared.engine.ConnFault.{ConnFault};
ghost use Rattle.ns_http.specs.declared.engine.ConnFault.TheVariants as ConnFaults;
ghost use Rattle.ns_faults.specs.Lines.{line_of, mismatch_line, status_of};
ghost use Rattle.ns_listener.specs.Closing.{HasWritten, IsClosing, IsLeftBy};
ghost use Rattle.ns_listener.specs.Opening.{begun_by};
ghost use Rattle.ns_listener.specs.Ending.{EndsInPart, EndsSettled, EndsUnsettled, IsEnd, IsLastLine};
ghost use Rattle.ns_log.specs.Segments.{joined};
ghost use Rattle.ns_log.specs.Settling.{Settles};
ghost use Rattle.ns_work_lock.specs.Ending.{held_of};
ghost use Rattle.ns_listener.specs.Faults.{host_fault};
ghost use Rattle.ns_listener.specs.Printing.{HasMismatch, IsRunOf};
ghost use Rattle.ns_listener.specs.declared.fault.HostFault.{HostFault};
ghost use Rattle.ns_listener.specs.declared.fault.ServeFault.TheVariants as ServeFault;

use crate::closing::{Closing, conclude, settle};
use crate::fault::{HostFault, ServeFault};
use crate::keeper::Keeper;
use crate::opening::{Opened, open};
use crate::service::Service;
use crate::threads::host;
use ns_endpoints::Draws;
use ns_faults::status::{MISMATCH, SERVED, WRITE_FAULT};
use ns_faults::{print_fault, print_text};
use ns_http::{ConnFault, Counted};
use ns_work_lock::{Ended, Forgets, Retains, Retention, Seat, Shared};
use std::alloc::Global;
use std::io::Write;
use std::net::{Net, TcpListener, TcpStream};
use std::rt::Clock;
use std::sync::Wait;
use std::sync::ledger::{Blank, Ledger};
use std::thread::Threads;

/// Whether the log is settled at the end. It is not where the server runs for ever and its log is rotated.
fn is_settled(service: &Service) -> bool
    ensures { let s = service.now in result ≡ not (is_none s.accept && is_some s.rotate) }
{
    service.accept.is_some() || service.rotate.is_none()
}

/// What a server leaves once its threads have ended.
struct Left<L: Ledger, W, M: Retention> {
    /// A seat for each thread, unless a thread could not do its duty.
    seats: Result<Vec<Seat<L, M>>, HostFault>,
    ended: Ended<L>,
    keeper: Keeper<W>,
}

/// Serves connections and writes the segments that are given out meanwhile, until the threads have ended.
fn run_threads<
    L: Ledger + Send + Sync,
    R: Threads + Wait + Clock + Sync,
    D: Draws + Drop + Send,
    W: Write + Drop,
    M: Retention + Send,
>(
    rt: &R,
    alloc: Global,
    service: &Service,
    opened: Opened,
    draws: Vec<D>,
    blank: Blank,
    writer: Counted<W>,
) -> Left<L, W, M>
    requires begun { opened.held ≡ begun_by opened.secret service.now.log_limit }
    requires name { blank.name ≡ L.name }
    requires parts { (blank.parts ≡ L.parts) × (L.parts ≡ 18446744073709551615) }
    ensures written { HasWritten W.contents opened.secret writer result.keeper }
    ensures unrotated { IsNone service.now.rotate
        → (result.keeper.fault ≡ None) × (result.keeper.writer ≡ writer) }
{
    let Opened {
        listener,
        secret,
        held,
        ..
    } = opened;
    let shared = Shared::<L>::new(held, blank, service.rotate, service.rotate_bytes);
    let keeper = Keeper::new(alloc, secret, writer, M::retains());
    let (seats, keeper) = host::<L, R, D, _, M>(
        rt, alloc, &shared, &listener, service, draws, keeper,
    );
    Left {
        seats,
        ended: shared.end(),
        keeper,
    }
}

/// Settles the log with the receipts of all threads, unless a thread could not do its duty.
fn settled<L: Ledger, W: Drop>(alloc: Global, left: Left<L, W, Retains>) -> Closing<W>
    requires { L.parts ≡ 18446744073709551615 }
    ensures kept { IsLeftBy left.keeper result }
    ensures run { IfOk result.settled
        (IsRunOf left.keeper.secret left.keeper.segments.items) }
    ensures log { IfOk result.settled (λ settled. settled.log
        ≡ joined left.keeper.segments.items (held_of left.ended).log) }
    ensures receipts { OnOk result.settled (IsOkAnd left.seats (λ seats. Settles
        (joined left.keeper.segments.items (held_of left.ended).log) seats.items)) }
    ensures whole { OnOk result.settled (IsTrue left.keeper.is_whole) }
    ensures mismatch { IsErrOf result.settled ServeFault.Mismatch
        → let keeper = left.keeper in IsOkAnd left.seats (λ seats. HasMismatch
        keeper.secret keeper.segments.items (held_of left.ended) seats.items) }
    ensures fault { (fault : HostFault) → IsErrOf left.seats fault
        → result.settled ≡ Err (host_fault fault) }
    ensures no_write { result.settled ≢ Err (ServeFault.Conn ConnFaults.Write) }
{
    let Left {
        seats,
        ended,
        keeper,
    } = left;
    let Keeper {
        secret,
        writer,
        fault,
        segments,
        is_whole,
        ..
    } = keeper;
    let settled = match seats {
        Ok(seats) => settle(alloc, ended, seats, &secret, segments, is_whole),
        Err(fault) => Err(fault.into()),
    };
    Closing {
        settled,
        fault,
        secret,
        writer,
    }
}

/// Settles nothing: the server was to run for ever, and neither its segments nor its receipts are in memory.
fn unsettled<L: Ledger, W: Drop>(left: Left<L, W, Forgets>) -> Closing<W>
    ensures kept { IsLeftBy left.keeper result }
    ensures none { IsErr result.settled }
    ensures fault { (fault : HostFault) → IsErrOf left.seats fault
        → result.settled ≡ Err (host_fault fault) }
    ensures no_mismatch { result.settled ≢ Err ServeFault.Mismatch }
    ensures no_write { result.settled ≢ Err (ServeFault.Conn ConnFaults.Write) }
{
    let Left {
        seats,
        ended: _ended,
        keeper,
    } = left;
    let Keeper {
        secret,
        writer,
        fault,
        ..
    } = keeper;
    let unsettled = match seats {
        Ok(_) => ServeFault::Conn(ConnFault::Memory),
        Err(fault) => fault.into(),
    };
    Closing {
        settled: Err(unsettled),
        fault,
        secret,
        writer,
    }
}

/// Serves connections and writes the segments that are given out meanwhile, until the threads have ended. Then it settles the
/// log, if `is_settled` says so.
fn serve_opened<
    L: Ledger + Send + Sync,
    R: Threads + Wait + Clock + Sync,
    D: Draws + Drop + Send,
    W: Write + Drop,
>(
    rt: &R,
    alloc: Global,
    service: &Service,
    opened: Opened,
    draws: Vec<D>,
    blank: Blank,
    writer: Counted<W>,
) -> Closing<W>
    requires begun { opened.held ≡ begun_by opened.secret service.now.log_limit }
    requires name { blank.name ≡ L.name }
    requires parts { (blank.parts ≡ L.parts) × (L.parts ≡ 18446744073709551615) }
    ensures closing { IsClosing W.contents opened.secret writer result }
    ensures secret { result.secret ≡ opened.secret }
    ensures unrotated { IsNone service.now.rotate → (result.fault ≡ None) × (result.writer ≡ writer) }
    ensures no_write { result.settled ≢ Err (ServeFault.Conn ConnFaults.Write) }
    ensures no_read { result.fault ≢ Some ConnFaults.Read }
{
    if is_settled(service) {
        let kept = run_threads::<L, R, D, W, Retains>(
            rt, alloc, service, opened, draws, blank, writer,
        );
        settled(alloc, kept)
    } else {
        let left = run_threads::<L, R, D, W, Forgets>(
            rt, alloc, service, opened, draws, blank, writer,
        );
        unsettled(left)
    }
}

/// Serves connections until `service.accept` of them were served, and returns the exit status and the writer. Where the log is
/// rotated, its segments are written meanwhile. At the end the log has to settle with the receipts of all threads, and its rest
/// is printed. Each fault is printed as a line, after the lines that say where the server listens and which secret was drawn.
/// The line of a segment that could not be written comes last. The last drawer draws the secret. Each other drawer has a thread
/// that serves one connection after another.
pub fn serve<
    L: Ledger + Send + Sync,
    R: Threads + Wait + Clock + Sync + Net<Listener = TcpListener, Stream = TcpStream>,
    D: Draws + Drop + Send,
    W: Write + Drop,
    E: Write,
>(
    rt: &R,
    alloc: Global,
    service: &Service,
    draws: Vec<D>,
    blank: Blank,
    writer: Counted<W>,
    errors: &mut Counted<E>,
) -> (u8, Counted<W>)
    requires drawers { vec_len draws ≡ service.now.connections + 1 }
    requires name { blank.name ≡ L.name }
    requires parts { (blank.parts ≡ L.parts) × (L.parts ≡ 18446744073709551615) }
    ensures status { IsEnd result.0 }
    ensures settled { result.0 ≡ SERVED → EndsSettled D.draws W.contents E.contents
        service.now draws.items writer result.1 errors.old errors.new }
    ensures write_fault { result.0 ≡ WRITE_FAULT → EndsInPart D.draws W.contents E.contents
        service.now draws.items writer result.1 }
    ensures unsettled { result.0 ≢ SERVED → result.0 ≢ WRITE_FAULT
        → EndsUnsettled D.draws W.contents E.contents
        service.now draws.items writer result.1 }
    ensures unprinted { IsNone service.now.rotate → result.0 ≢ SERVED → result.0 ≢ WRITE_FAULT
        → result.1 ≡ writer }
    ensures fault_line { (fault : ConnFault) → result.0 ≡ status_of fault
        → IsLastLine D.draws W.contents E.contents
        service.now draws.items errors.old errors.new (line_of fault) }
    ensures mismatch { result.0 ≡ MISMATCH → IsLastLine D.draws W.contents E.contents
        service.now draws.items errors.old errors.new mismatch_line }
{
    let mut draws = draws;
    let Some(mut drawer) = draws.pop() else {
        unreachable!()
    };
    let opened = match open(rt, alloc, service, &mut drawer) {
        Ok(opened) => opened,
        Err(fault) => return (print_fault(fault, errors), writer),
    };
    print_text(errors, opened.lines.as_str().as_bytes());
    let closing = serve_opened::<L, _, _, _>(rt, alloc, service, opened, draws, blank, writer);
    conclude(alloc, closing, errors)
}
