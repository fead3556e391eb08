//! One connection with a new server, whose log is written in place of its replies.

ghost use Rattle.std.specs.Prelude.{◌≡◌, ◌≢◌, ◌⊎◌, Err, IsErrOf, OnOk};
ghost use Rattle.ns_json.specs.Logs.{log_text};
ghost use Rattle.ns_api.specs.Serving.{holding};
ghost use Rattle.ns_http.specs.Output.{WritesAll};
ghost use Rattle.ns_pipe.specs.Ending.{IsEnd, ReadsWithin, StopsInTime};
ghost use Rattle.ns_faults.specs.Lines.{FailsToWrite, TriesToWrite, line_of, status_of};
ghost use Rattle.ns_pipe.specs.Logging.{LogsInPart, LogsNothing, LogsServed, LogsToReadFault, opened_log};
ghost use Rattle.ns_pipe.specs.Readable.{AreAsRead, IsReadBack};

use crate::written::readable_text;
use ns_api::{Api, Driven, Driver, close_held, open_held, serve};
use ns_endpoints::Draws;
use ns_faults::print_fault;
use ns_faults::status::{OUT_OF_MEMORY, READ_FAULT, SERVED, WRITE_FAULT};
use ns_http::{ConnFault, Counted, write_all};
use ns_types::name::Secret;
use ns_work_log::Held;
use ns_work_log::laws::chain_is_noted;
use std::alloc::Global;
use std::io::{Read, Write};

/// The most entries that the log of a connection has.
pub const LOG_LIMIT: u64 = 1_000_000;

/// Writes the text of the log, which is read back as that log.
fn write_log<W: Write>(
    alloc: Global,
    bootstrap: &Secret,
    held: &Held,
    writer: &mut Counted<W>,
) -> Result<(), ConnFault>
    ensures written { OnOk result (WritesAll W.contents writer.old writer.new
        (log_text bootstrap.now held.now.log)) }
    ensures read_back { OnOk result
        (AreAsRead held.now.log → IsReadBack bootstrap.now held.now.log) }
    ensures failed { IsErrOf result ConnFault.Write → FailsToWrite W.contents writer.old writer.new
        (log_text bootstrap.now held.now.log) }
    ensures memory { IsErrOf result ConnFault.Memory → writer.new ≡ writer.old }
    ensures no_read { result ≢ Err ConnFault.Read }
{
    let Ok(text) = readable_text(alloc, bootstrap, held.log()) else {
        return Err(ConnFault::Memory);
    };
    match write_all(writer, text.as_str().as_bytes()) {
        Ok(()) => Ok(()),
        Err(_) => Err(ConnFault::Write),
    }
}

/// Serves the connection, and then writes the log of all that the server did, also after a fault of the reader.
fn serve_and_log<D: Draws, R: Read, W: Write, V: Write>(
    alloc: Global,
    bootstrap: &Secret,
    api: &mut Api<Held, D, Driver>,
    reader: &mut Counted<R>,
    replies: &mut Counted<V>,
    writer: &mut Counted<W>,
) -> Result<(), ConnFault>
    ensures served { OnOk result (LogsServed D.draws R.remaining W.contents V.contents
        (holding api.old) reader.old reader.new replies.old replies.new
        bootstrap.now writer.old writer.new) }
    ensures read { IsErrOf result ConnFault.Read
        → LogsToReadFault D.draws R.remaining W.contents V.contents
        (holding api.old) reader.old reader.new replies.old replies.new
        bootstrap.now writer.old writer.new }
    ensures write { IsErrOf result ConnFault.Write
        → LogsInPart D.draws R.remaining W.contents V.contents
        (holding api.old) reader.old reader.new replies.old replies.new
        bootstrap.now writer.old writer.new
        ⊎ LogsNothing replies.old replies.new writer.old writer.new }
    ensures memory { IsErrOf result ConnFault.Memory → writer.new ≡ writer.old }
    ensures reads { ReadsWithin reader.old.counts reader.new.counts }
    ensures writes { StopsInTime replies.old.counts replies.new.counts }
{
    chain_is_noted();
    match serve(alloc, reader, replies, api) {
        Ok(_) => write_log(alloc, bootstrap, api.taker(), writer),
        Err(ConnFault::Read) => {
            write_log(alloc, bootstrap, api.taker(), writer)?;
            Err(ConnFault::Read)
        }
        Err(fault) => Err(fault),
    }
}

/// Serves one connection with a new server, which drives the worker that `driven` names after each request, and then writes the
/// log of all that the server did, also after a fault of the reader. The replies go to `replies`. Returns the exit status.
pub fn pipe_log<D: Draws + Drop, R: Read, W: Write, V: Write, E: Write>(
    alloc: Global,
    bootstrap: &Secret,
    draws: D,
    driven: Driven,
    reader: &mut Counted<R>,
    replies: &mut Counted<V>,
    writer: &mut Counted<W>,
    errors: &mut Counted<E>,
) -> u8
    ensures status { IsEnd result }
    ensures served { result ≡ SERVED → LogsServed D.draws R.remaining W.contents V.contents
        (opened_log bootstrap.now draws driven) reader.old reader.new replies.old replies.new
        bootstrap.now writer.old writer.new }
    ensures read_fault { result ≡ READ_FAULT
        → LogsToReadFault D.draws R.remaining W.contents V.contents
        (opened_log bootstrap.now draws driven) reader.old reader.new replies.old replies.new
        bootstrap.now writer.old writer.new }
    ensures write_fault { result ≡ WRITE_FAULT
        → LogsInPart D.draws R.remaining W.contents V.contents
        (opened_log bootstrap.now draws driven) reader.old reader.new replies.old replies.new
        bootstrap.now writer.old writer.new
        ⊎ LogsNothing replies.old replies.new writer.old writer.new }
    ensures out_of_memory { result ≡ OUT_OF_MEMORY → writer.new ≡ writer.old }
    ensures reads { ReadsWithin reader.old.counts reader.new.counts }
    ensures writes { StopsInTime replies.old.counts replies.new.counts }
    ensures silent { result ≡ SERVED → errors.new ≡ errors.old }
    ensures fault_line { (fault : ConnFault) → result ≡ status_of fault
        → TriesToWrite E.contents errors.old errors.new (line_of fault) }
{
    let Ok(mut api) = open_held(alloc, bootstrap, draws, driven, LOG_LIMIT) else {
        return print_fault(ConnFault::Memory, errors);
    };
    let ended = serve_and_log(alloc, bootstrap, &mut api, reader, replies, writer);
    close_held(api);
    match ended {
        Ok(()) => SERVED,
        Err(fault) => print_fault(fault, errors),
    }
}
