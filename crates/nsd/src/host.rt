//! The server over TCP, in the threads of this process.

ghost use Rattle.std.specs.Prelude.{◌≡◌, ◌≤◌};
ghost use Rattle.ns_pipe.specs.Ending.{uncounted};
ghost use Rattle.nsd.specs.Hosting.{EndsHosted};
ghost use Rattle.ns_command_line.specs.Outcome.{IfServe, MatchOutcome};

use ns_command_line::RunEnd;
use ns_endpoints::Draws;
use ns_entropy::{Random, generators};
use ns_faults::print_fault;
use ns_http::Counted;
use ns_listener::{Service, serve};
use ns_pipe::{EndedRun, Nowhere};
use ns_work_lock::PARTS;
use rand::rngs::StdRng;
use std::alloc::Global;
use std::io::Write;
use std::marker::Brand;
use std::net::{Net, TcpListener, TcpStream};
use std::random::RandomSource;
use std::rt::Clock;
use std::sync::Wait;
use std::sync::ledger::{Blank, Ledger};
use std::thread::Threads;

/// Runs a server with these settings, with a random generator for each connection thread and one for the secret. Returns the
/// exit status and the writer.
fn host<
    R: Threads
        + Wait
        + Clock
        + Sync
        + RandomSource
        + Net<Listener = TcpListener, Stream = TcpStream>,
    W: Write + Drop,
    E: Write,
>(
    rt: &R,
    alloc: Global,
    service: &Service,
    writer: Counted<W>,
    errors: &mut Counted<E>,
) -> (u8, Counted<W>)
    requires { service.now.connections ≤ 64 }
    ensures { let draws = ⟦<Random<StdRng> as Draws>⟧.draws in
        EndsHosted draws W.contents E.contents
        service.now result.0 writer result.1 errors.old errors.new }
{
    let draws = match generators(rt, alloc, service.connections + 1) {
        Ok(draws) => draws,
        Err(fault) => return (print_fault(fault, errors), writer),
    };
    let blank = Blank::new(PARTS);
    serve::<Brand, _, _, _, _>(rt, alloc, service, draws, blank, writer, errors)
}

/// Finishes what the command line asks for: runs the server, if it asks for one. Returns how that ended. A server reads no
/// input.
pub fn conclude<
    T: Threads
        + Wait
        + Clock
        + Sync
        + RandomSource
        + Net<Listener = TcpListener, Stream = TcpStream>,
    R: Drop,
    W: Write + Drop,
    E: Write,
>(rt: &T, alloc: Global, outcome: RunEnd<R, W>, errors: &mut Counted<E>) -> EndedRun<R, W>
    requires { IfServe outcome (λ service. service.connections ≤ 64) }
    ensures { let draws = ⟦<Random<StdRng> as Draws>⟧.draws in MatchOutcome outcome
        (λ ended. (result ≡ ended) × (errors.new ≡ errors.old))
        (λ service reader writer. (result.reader ≡ uncounted reader)
        × EndsHosted draws W.contents E.contents service
        result.status (uncounted writer) result.writer errors.old errors.new) }
{
    match outcome {
        RunEnd::Ended(ended) => ended,
        RunEnd::Serve(service, reader, writer) => {
            let (status, writer) = host(rt, alloc, &service, Counted::new(writer), errors);
            EndedRun {
                status,
                reader: Counted::new(reader),
                writer,
                unprinted: Counted::new(Nowhere),
            }
        }
    }
}
