//! One connection with a new server.

ghost use Rattle.std.specs.Prelude.{◌≡◌, IsTrue};
ghost use Rattle.ns_http.specs.Counts.{IsOpen};
ghost use Rattle.ns_pipe.specs.Ending.{EndsByReader, EndsByWriter, EndsServed, IsEnd, ReadsWithin};
ghost use Rattle.ns_pipe.specs.Ending.{StopsInTime, opened};
ghost use Rattle.ns_faults.specs.Lines.{TriesToWrite, line_of, status_of};

use ns_api::{Driven, close, open, serve};
use ns_endpoints::Draws;
use ns_faults::print_fault;
use ns_faults::status::{OUT_OF_MEMORY, READ_FAULT, SERVED, WRITE_FAULT};
use ns_http::{ConnFault, Counted};
use ns_types::name::Secret;
use std::alloc::Global;
use std::io::{Read, Write};

/// Serves one connection with a new server, which drives the worker that `driven` names after each request. Returns the exit
/// status. The steps of the requests, and those that follow each, are one run.
pub fn pipe<D: Draws + Drop, R: Read, W: Write, E: Write>(
    alloc: Global,
    bootstrap: &Secret,
    draws: D,
    driven: Driven,
    reader: &mut Counted<R>,
    writer: &mut Counted<W>,
    errors: &mut Counted<E>,
) -> u8
    ensures status { IsEnd result }
    ensures served { result ≡ SERVED → EndsServed D.draws R.remaining W.contents
        (opened bootstrap.now draws driven) reader.old reader.new writer.old writer.new }
    ensures read_fault { result ≡ READ_FAULT → EndsByReader D.draws R.remaining W.contents
        (opened bootstrap.now draws driven) reader.old reader.new writer.old writer.new }
    ensures write_fault { result ≡ WRITE_FAULT → EndsByWriter D.draws R.remaining W.contents
        (opened bootstrap.now draws driven) reader.old reader.new writer.old writer.new }
    ensures out_of_memory { result ≡ OUT_OF_MEMORY
        → (reader.new ≡ reader.old) × (writer.new ≡ writer.old) }
    ensures reads { ReadsWithin reader.old.counts reader.new.counts }
    ensures writes { StopsInTime writer.old.counts writer.new.counts }
    ensures broken { IsOpen reader.old.counts → IsTrue reader.new.counts.broken
        → result ≡ READ_FAULT }
    ensures write_broken { IsOpen writer.old.counts → IsTrue writer.new.counts.broken
        → result ≡ WRITE_FAULT }
    ensures silent { result ≡ SERVED → errors.new ≡ errors.old }
    ensures fault_line { (fault : ConnFault) → result ≡ status_of fault
        → TriesToWrite E.contents errors.old errors.new (line_of fault) }
{
    let Ok(mut api) = open(alloc, bootstrap, draws, driven) else {
        return print_fault(ConnFault::Memory, errors);
    };
    let ended = serve(alloc, reader, writer, &mut api);
    close(api);
    match ended {
        Ok(_) => SERVED,
        Err(fault) => print_fault(fault, errors),
    }
}
