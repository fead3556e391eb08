//! Answers one connection over a seat, which gains the receipts.

ghost use Rattle.std.specs.Prelude.{◌≡◌, ◌+◌, ◌≤◌, min, length, IfOk, IsErrOf, IsTrue, false, Err};
ghost use Rattle.ns_types.specs.Wire.Http.{End};
ghost use Rattle.ns_http.specs.Conversation.{streams_between, EndsWell, IsReadFault};
ghost use Rattle.ns_http.specs.Counts.{IsOpen, IsWriteFault};
ghost use Rattle.ns_api.specs.Serving.{holding};
ghost use Rattle.ns_listener.specs.Answering.{ServedBySeat, ServedBySeatInPart};

use crate::clients::shared_seat::SharedSeat;
use ns_api::{Api, NoFollower};
use ns_endpoints::Draws;
use ns_http::{ConnFault, Counted, READ_LIMIT, READ_ROOM};
use ns_work_lock::Retention;
use std::alloc::Allocator;
use std::io::{Read, Write};
use std::sync::Wait;
use std::sync::ledger::Ledger;

/// Answers requests by steps of a server that threads share.
pub type Client<'a, L, R, D, M> = Api<SharedSeat<'a, L, R, M>, D, NoFollower>;

/// Answers the requests of a connection, one after the other, and returns how many there were. The seat gains the receipts of
/// the steps that the requests made, in their order.
pub fn serve<A: Allocator + Copy, I: Read, W: Write, L: Ledger, R: Wait, D: Draws, M: Retention>(
    alloc: A,
    reader: &mut Counted<I>,
    writer: &mut Counted<W>,
    client: &mut Client<'_, L, R, D, M>,
) -> Result<u64, ConnFault>
    ensures ok { IfOk result (λ count. (end : End)
        × (c : ServedBySeat (holding client.old) (holding client.new) (λ s. s.seat) D.draws
        (streams_between I.remaining W.contents reader.old reader.new writer.old writer.new) end)
        × EndsWell end (I.remaining reader.new.inner) reader.new.counts
        × (count ≡ length c.conversation.exchanges)) }
    ensures read { IsErrOf result ConnFault.Read → (end : End)
        × ServedBySeat (holding client.old) (holding client.new) (λ s. s.seat) D.draws
        (streams_between I.remaining W.contents reader.old reader.new writer.old writer.new) end
        × IsReadFault end (I.remaining reader.new.inner) reader.old.counts reader.new.counts }
    ensures write { IsErrOf result ConnFault.Write
        → ServedBySeatInPart (holding client.old) (holding client.new) (λ s. s.seat) D.draws
        (streams_between I.remaining W.contents reader.old reader.new writer.old writer.new)
        × IsWriteFault writer.old.counts writer.new.counts }
    ensures memory { IsErrOf result ConnFault.Memory
        → (reader.new ≡ reader.old) × (writer.new ≡ writer.old) × (client.new ≡ client.old) }
    // No read follows one that found the end, or one that failed otherwise than by interruption. No
    // write follows one that failed so.
    ensures stops { IsOpen reader.old.counts → reader.new.counts.went_on ≡ false }
    ensures write_stops { IsOpen writer.old.counts → writer.new.counts.went_on ≡ false }
    // Such a failure is the fault that is returned.
    ensures broken { IsOpen reader.old.counts → IsTrue reader.new.counts.broken
        → result ≡ Err ConnFault.Read }
    ensures write_broken { IsOpen writer.old.counts → IsTrue writer.new.counts.broken
        → result ≡ Err ConnFault.Write }
    ensures reads { reader.new.counts.calls ≤ reader.old.counts.calls + READ_LIMIT }
    // Each read has room for at least `READ_ROOM` bytes.
    ensures room { min reader.old.counts.least_room READ_ROOM ≤ reader.new.counts.least_room }
{
    ns_api::serve(alloc, reader, writer, client)
}
