//! Replays a log from an input to an output.

ghost use Rattle.std.specs.Prelude.{◌≡◌, ◌+◌, ◌<◌, ◌≤◌};
ghost use Rattle.ns_http.specs.Whole.{FailsToRead};
ghost use Rattle.ns_faults.specs.Lines.{TriesToWrite, line_of, status_of};
ghost use Rattle.ns_pipe.specs.ReplayPrinting.{Prints, PrintsPart};

use crate::replay::outcome::printout_of;
use crate::replay::replay::Replay;
use ns_faults::print_fault;
use ns_faults::status::{OUT_OF_MEMORY, READ_FAULT, WRITE_FAULT};
use ns_http::{ConnFault, Counted, READ_LIMIT, read_to_end, write_all};
use std::alloc::Global;
use std::io::{Read, Write};

/// Reads a log to the end of the input, replays it for the namespace alone, and writes the result.
/// Returns the exit status.
///
/// Nothing is written before all of the text is there: after a fault of the reader, or if no memory
/// is left, nothing is written at all.
pub fn print_replay<R: Read, W: Write, E: Write>(
    alloc: Global,
    replay: &Replay,
    reader: &mut Counted<R>,
    writer: &mut Counted<W>,
    errors: &mut Counted<E>,
) -> u8
    ensures status { result ≤ OUT_OF_MEMORY }
    ensures printed { result < READ_FAULT → Prints R.remaining W.contents
        replay.now reader.old reader.new writer.old writer.new result }
    ensures read_fault { result ≡ READ_FAULT → FailsToRead reader.old.counts reader.new.counts }
    ensures write_fault { result ≡ WRITE_FAULT → PrintsPart R.remaining W.contents
        replay.now reader.old reader.new writer.old writer.new }

    // With the other faults nothing is written.
    ensures unread { result ≡ READ_FAULT → writer.new ≡ writer.old }
    ensures out_of_memory { result ≡ OUT_OF_MEMORY → writer.new ≡ writer.old }

    ensures silent { result < READ_FAULT → errors.new ≡ errors.old }
    ensures fault_line { (fault : ConnFault) → result ≡ status_of fault
        → TriesToWrite E.contents errors.old errors.new (line_of fault) }
    ensures reads { reader.new.counts.calls ≤ reader.old.counts.calls + READ_LIMIT }
{
    let bytes = match read_to_end(alloc, reader) {
        Ok(bytes) => bytes,
        Err(fault) => return print_fault(fault, errors),
    };
    let Ok(printout) = printout_of(alloc, bytes.as_slice(), replay) else {
        return print_fault(ConnFault::Memory, errors);
    };
    match write_all(writer, printout.text.as_str().as_bytes()) {
        Ok(()) => printout.status,
        Err(_) => print_fault(ConnFault::Write, errors),
    }
}
