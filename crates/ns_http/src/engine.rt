//! One connection, from its first byte to its end.
ghost use Rattle.std.specs.Prelude.{◌≡◌, ◌+◌, ◌-◌, ◌^◌, ◌<◌, ◌≤◌, min, [], length, IfOk, OnOk, OnErr, IsErrOf, IsTrue, false};
ghost use Rattle.ns_types.specs.Wire.Http.{End};
ghost use Rattle.ns_http.specs.Conversation.{streams_between, Conversation, CutShort, EndsWell, IsReadFault};
ghost use Rattle.ns_http.specs.Counts.{HasGrown, IsOpen, IsWriteFault};

use crate::counting::{Counted, is_interruption};
use crate::head::{Front, MAX_HEADERS, Request, read_front};
use crate::input::{Input, READ_ROOM};
use crate::output::{Output, WriteFault};
use crate::response::Outgoing;
use httparse::spans::{EMPTY_HEADER_SPAN, HeaderSpan};
use ns_types::reply::Response;
use std::alloc::{AllocError, Allocator};
use std::io::{Read, Write};
use thiserror::Error;

/// How many reads one connection may make.
pub const READ_LIMIT: u64 = 16_777_216;

/// Why a connection was given up.
#[derive(Clone, Copy, Debug, PartialEq, Eq, Error)]
pub enum ConnFault {
    /// The reader failed, ended inside a request or may not be read further, or there are no random
    /// bits.
    #[error("read fault")]
    Read,
    /// The writer failed, took none of the bytes, or was interrupted too often.
    #[error("write fault")]
    Write,
    /// No memory was left. From `serve` it is the memory for the buffers, and nothing was read,
    /// answered or written.
    #[error("out of memory")]
    Memory,
}

impl From<AllocError> for ConnFault {
    ghost use Rattle.std.specs.Prelude.{◌≡◌};
    ghost use Rattle.ns_http.specs.declared.engine.ConnFault.TheVariants.{Memory};

    ghost from_gives = { λ _ fault. fault ≡ Memory };

    fn from(_: AllocError) -> ConnFault {
        ConnFault::Memory
    }
}

impl From<WriteFault> for ConnFault {
    ghost use Rattle.std.specs.Prelude.{◌≡◌};
    ghost use Rattle.ns_http.specs.declared.engine.ConnFault.TheVariants.{Write};

    ghost from_gives = { λ _ fault. fault ≡ Write };

    fn from(_: WriteFault) -> ConnFault {
        ConnFault::Write
    }
}

/// What answers requests: a state, and a relation between a request, its reply and the states before
/// and after.
pub trait Answer {
    ghost use Rattle.ns_types.specs.Wire.Http.{Asked};
    ghost use Rattle.ns_types.specs.declared.reply.Rendered.{Rendered};
    ghost use Rattle.ns_types.specs.Wire.Responses.{rendered_of};
    ghost use Rattle.ns_http.specs.Head.{asked};

    // From the first state, the reply answers the request and leaves the second state.
    ghost answers: { Self → Asked → Rendered → Self → Type 0 };

    /// The allocator of the replies' texts.
    type A: Allocator;

    /// Answers one request. The request lends the connection's buffer.
    fn answer(&mut self, request: &Request<'_>) -> Response<Self::A>
        ensures { answers self.old (asked request.now) (rendered_of result) self.new };
}

/// What one step did.
#[derive(Clone, Copy)]
enum Progress {
    /// A request was answered, and the next may follow.
    Answered,
    /// A request was answered, and the connection closes.
    Closed,
    /// No request is whole yet, and none will be before there are this many bytes.
    Waits(usize),
}

/// The buffers of a connection, and how many requests it has answered.
#[derive(Drop)]
struct Connection<A: Allocator> {
    input: Input<A>,
    output: Output<A>,
    /// Where the headers of the last head are.
    headers: [HeaderSpan; MAX_HEADERS],
    answered: u64,
}

impl<A: Allocator> Connection<A> {
    ghost use Rattle.ns_http.specs.Input.{unread};
    ghost use Rattle.ns_http.specs.Waiting.{waiting};
    ghost use Rattle.ns_http.specs.Connection.{MakesStep, CutsStepShort, AnswersAll, CutsAnswersShort};

    /// Answers the request at the front, if it is whole.
    fn step<W: Write, H: Answer>(
        &mut self,
        writer: &mut Counted<W>,
        handler: &mut H,
    ) -> Result<Progress, WriteFault>
        requires { self.old.answered + length (unread self.old.input) < 2 ^ 64 - 1 }
        ensures ok { IfOk result (λ step. MakesStep H.answers W.contents
            handler.old handler.new writer.old writer.new self.old self.new step) }
        ensures err { OnErr result
            (CutsStepShort H.answers W.contents handler.old handler.new
            writer.old writer.new self.old) }
        ensures failed { OnErr result (IsWriteFault writer.old.counts writer.new.counts) }
        ensures grows { HasGrown writer.old.counts writer.new.counts }
        ensures open { OnOk result (IsOpen writer.old.counts → IsOpen writer.new.counts) }
        ensures stops { IsOpen writer.old.counts → writer.new.counts.went_on ≡ false }
    {
        match read_front(self.input.unread(), &mut self.headers) {
            Front::Partial(wanted) => Ok(Progress::Waits(wanted)),
            Front::Refused(fault) => {
                self.output.send(writer, &Outgoing::fault(fault), true)?;
                self.answered += 1;
                Ok(Progress::Closed)
            }
            Front::Whole {
                request,
                len,
                close,
            } => {
                let response = handler.answer(&request);
                self.output.send(writer, &Outgoing::of(&response), close)?;
                self.input.consume(len);
                self.answered += 1;
                if close {
                    return Ok(Progress::Closed);
                }
                Ok(Progress::Answered)
            }
        }
    }

    /// Answers each whole request that was read, and sends the replies. Returns how many bytes the
    /// next request takes at least, or none once the connection closes.
    fn advance<W: Write, H: Answer>(
        &mut self,
        writer: &mut Counted<W>,
        handler: &mut H,
    ) -> Result<Option<usize>, WriteFault>
        requires count { self.old.answered + length (unread self.old.input) < 2 ^ 64 - 1 }
        requires sent { waiting self.old.output ≡ [] }
        ensures sent { OnOk result (waiting self.new.output ≡ []) }
        ensures ok { IfOk result (λ wanted. AnswersAll H.answers W.contents
            handler.old handler.new writer.old writer.new self.old self.new wanted) }
        ensures err { OnErr result
            (CutsAnswersShort H.answers W.contents handler.old handler.new
            writer.old writer.new self.old) }
        ensures failed { OnErr result (IsWriteFault writer.old.counts writer.new.counts) }
        ensures grows { HasGrown writer.old.counts writer.new.counts }
        ensures open { OnOk result (IsOpen writer.old.counts → IsOpen writer.new.counts) }
        ensures stops { IsOpen writer.old.counts → writer.new.counts.went_on ≡ false }
    {
        loop {
            match self.step(writer, handler)? {
                Progress::Answered => {}
                Progress::Closed => {
                    self.output.flush(writer)?;
                    return Ok(None);
                }
                Progress::Waits(wanted) => {
                    self.output.flush(writer)?;
                    return Ok(Some(wanted));
                }
            }
        }
    }
}

/// Answers the requests of a connection, one after the other and in order, and returns how many it
/// answered.
///
/// It reads at most `READ_LIMIT` times, with room for `READ_ROOM` bytes each time, and takes memory
/// only before the first read. It ends well where the input ends between two requests, or after a
/// request that closes the connection. It answers refused heads itself. An interrupted read is made
/// again, and so are `INTERRUPTION_LIMIT` interrupted writes of one text.
///
/// # Errors
///
/// `Read` where the reader failed, the input ended inside a request, or the reads ran out: the
/// whole requests before it are answered. `Write` where the writer failed, or was interrupted more
/// than `INTERRUPTION_LIMIT` times: a first part of the replies is written. `Memory` where there is
/// no memory for the buffers. A call that was interrupted did not fail.
pub fn serve<A: Allocator + Copy, R: Read, W: Write, H: Answer>(
    alloc: A,
    reader: &mut Counted<R>,
    writer: &mut Counted<W>,
    handler: &mut H,
) -> Result<u64, ConnFault>
    ensures ok { IfOk result (λ count. (end : End)
        × (c : Conversation H.answers handler.old handler.new
        (streams_between R.remaining W.contents reader.old reader.new writer.old writer.new) end)
        × EndsWell end (R.remaining reader.new.inner) reader.new.counts
        × (count ≡ length c.exchanges)) }
    ensures read { IsErrOf result ConnFault.Read → (end : End)
        × Conversation H.answers handler.old handler.new
        (streams_between R.remaining W.contents reader.old reader.new writer.old writer.new) end
        × IsReadFault end (R.remaining reader.new.inner) reader.old.counts reader.new.counts }
    ensures write { IsErrOf result ConnFault.Write
        → CutShort H.answers handler.old handler.new
        (streams_between R.remaining W.contents reader.old reader.new writer.old writer.new)
        × IsWriteFault writer.old.counts writer.new.counts }
    ensures memory { IsErrOf result ConnFault.Memory
        → (reader.new ≡ reader.old) × (writer.new ≡ writer.old) × (handler.new ≡ handler.old) }
    // No read follows one that found the end, or that failed otherwise than by interruption, and
    // no write one that failed so.
    ensures stops { IsOpen reader.old.counts → reader.new.counts.went_on ≡ false }
    ensures write_stops { IsOpen writer.old.counts → writer.new.counts.went_on ≡ false }
    // After such a failure the error is that fault.
    ensures broken { IsOpen reader.old.counts → IsTrue reader.new.counts.broken
        → result ≡ Err ConnFault.Read }
    ensures write_broken { IsOpen writer.old.counts → IsTrue writer.new.counts.broken
        → result ≡ Err ConnFault.Write }
    ensures reads { reader.new.counts.calls ≤ reader.old.counts.calls + READ_LIMIT }
    ensures room { min reader.old.counts.least_room READ_ROOM ≤ reader.new.counts.least_room }
{
    let mut connection = Connection {
        input: Input::new(alloc)?,
        output: Output::new(alloc)?,
        headers: [EMPTY_HEADER_SPAN; MAX_HEADERS],
        answered: 0,
    };
    let mut wanted = 0;
    for _ in 0..READ_LIMIT {
        let count = match connection.input.fill(reader) {
            Ok(count) => count,
            Err(error) if is_interruption(&error) => continue,
            Err(_) => return Err(ConnFault::Read),
        };
        if count == 0 {
            if connection.input.unread().is_empty() {
                return Ok(connection.answered);
            }
            return Err(ConnFault::Read);
        }
        if connection.input.unread().len() < wanted {
            continue;
        }
        match connection.advance(writer, handler)? {
            Some(next) => wanted = next,
            None => return Ok(connection.answered),
        }
    }
    Err(ConnFault::Read)
}
