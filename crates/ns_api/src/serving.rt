//! Answers one connection, over what takes the steps.

ghost use Rattle.std.specs.Prelude.{◌≡◌, ◌+◌, ◌≤◌, min, length, IfOk, IsErrOf, IsTrue, false, Err};
ghost use Rattle.ns_types.specs.Wire.Http.{End};
ghost use Rattle.ns_http.specs.Conversation.{streams_between, Conversation, CutShort, EndsWell, IsReadFault};
ghost use Rattle.ns_http.specs.Counts.{IsOpen, IsWriteFault};
ghost use Rattle.ns_api.specs.Answering.{Answers};
ghost use Rattle.ns_api.specs.Serving.{holding};

use crate::answering::{Api, Takes};
use crate::following::Follows;
use ns_endpoints::Draws;
use ns_http::{ConnFault, Counted, READ_LIMIT, READ_ROOM};
use std::alloc::Allocator;
use std::io::{Read, Write};

/// Answers the requests of a connection, one after the other, each with what follows it, and returns how many it answered. Over
/// a server the steps that they made are a chain, and so a run. The errors are those of `ns_http::serve`.
pub fn serve<A: Allocator + Copy, R: Read, W: Write, T: Takes, D: Draws, F: Follows<T>>(
    alloc: A,
    reader: &mut Counted<R>,
    writer: &mut Counted<W>,
    api: &mut Api<T, D, F>,
) -> Result<u64, ConnFault>
    ensures ok { IfOk result (λ count. (end : End)
        × (c : Conversation (Answers T.takes D.draws F.follows) (holding api.old) (holding api.new)
        (streams_between R.remaining W.contents reader.old reader.new writer.old writer.new) end)
        × EndsWell end (R.remaining reader.new.inner) reader.new.counts
        × (count ≡ length c.exchanges)) }
    ensures read { IsErrOf result ConnFault.Read → (end : End)
        × Conversation (Answers T.takes D.draws F.follows) (holding api.old) (holding api.new)
        (streams_between R.remaining W.contents reader.old reader.new writer.old writer.new) end
        × IsReadFault end (R.remaining reader.new.inner) reader.old.counts reader.new.counts }
    ensures write { IsErrOf result ConnFault.Write
        → CutShort (Answers T.takes D.draws F.follows) (holding api.old) (holding api.new)
        (streams_between R.remaining W.contents reader.old reader.new writer.old writer.new)
        × IsWriteFault writer.old.counts writer.new.counts }
    ensures memory { IsErrOf result ConnFault.Memory
        → (reader.new ≡ reader.old) × (writer.new ≡ writer.old) × (api.new ≡ api.old) }
    // No read follows one that found the end, or that failed otherwise than by interruption, and
    // no write one that failed so.
    ensures stops { IsOpen reader.old.counts → reader.new.counts.went_on ≡ false }
    ensures write_stops { IsOpen writer.old.counts → writer.new.counts.went_on ≡ false }
    // After such a failure the error is that fault.
    ensures broken { IsOpen reader.old.counts → IsTrue reader.new.counts.broken
        → result ≡ Err ConnFault.Read }
    ensures write_broken { IsOpen writer.old.counts → IsTrue writer.new.counts.broken
        → result ≡ Err ConnFault.Write }
    ensures reads { reader.new.counts.calls ≤ reader.old.counts.calls + READ_LIMIT }
    // Each read has room for at least `READ_ROOM` bytes.
    ensures room { min reader.old.counts.least_room READ_ROOM ≤ reader.new.counts.least_room }
{
    ns_http::serve(alloc, reader, writer, api)
}
