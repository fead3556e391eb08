//! Writes responses as bytes.
ghost use Rattle.std.specs.Prelude.{◌≡◌, ◌<◌, ◌≤◌, ◌+◌, [], ◌++◌, length, IfOk, OnOk, OnErr, vec_len, vec_capacity, false};
ghost use Rattle.ns_types.specs.Wire.Responses.{response_head};
ghost use Rattle.ns_http.specs.Counts.{HasGrown, IsOpen, IsWriteFault};
ghost use Rattle.ns_http.specs.Output.{wire_of, WritesAll, WritesPart};

use crate::counting::{Counted, is_interruption};
use crate::head_text::{HeadText, MAX_RESPONSE_HEAD, put_head};
use crate::response::Outgoing;
use std::alloc::{AllocError, Allocator};
use std::io::Write;

/// Room for the longest head of a response, and for a short body behind it.
pub(crate) const OUTPUT_LEN: usize = 65_536;

/// How many interrupted writes of one text are made again.
pub const INTERRUPTION_LIMIT: u64 = 65_536;

/// Writes all the bytes. An interrupted write is made again, at most `INTERRUPTION_LIMIT` times.
pub fn write_all<W: Write>(writer: &mut Counted<W>, bytes: &[u8]) -> Result<(), WriteFault>
    ensures ok { OnOk result (WritesAll W.contents writer.old writer.new bytes.now) }
    ensures err { OnErr result (WritesPart W.contents writer.old writer.new bytes.now) }
    ensures failed { OnErr result (IsWriteFault writer.old.counts writer.new.counts) }
    ensures grows { HasGrown writer.old.counts writer.new.counts }
    ensures open { OnOk result (IsOpen writer.old.counts → IsOpen writer.new.counts) }
    ensures stops { IsOpen writer.old.counts → writer.new.counts.went_on ≡ false }
{
    let mut rest = bytes;
    let mut tries = INTERRUPTION_LIMIT;
    while !rest.is_empty() {
        match writer.write(rest) {
            Ok(0) => return Err(WriteFault),
            Ok(count) => rest = &rest[count..],
            Err(error) => {
                if !is_interruption(&error) || tries == 0 {
                    return Err(WriteFault);
                }
                tries -= 1;
            }
        }
    }
    Ok(())
}

/// The writer failed, took none of the bytes, or was interrupted too often.
#[derive(Clone, Copy, Debug, PartialEq, Eq)]
pub struct WriteFault;

/// A buffer in which responses wait, so that those of several requests go out in one write.
#[derive(Drop)]
pub(crate) struct Output<A: Allocator> {
    bytes: Vec<u8, A>,
    ghost room: { 65536 ≤ vec_capacity bytes },
    ghost fits: { vec_len bytes ≤ 65536 },
}

impl<A: Allocator> Output<A> {
    ghost use Rattle.ns_http.specs.Waiting.{waiting, Sends};

    pub(crate) fn new(alloc: A) -> Result<Output<A>, AllocError>
        ensures { IfOk result (λ output. waiting output ≡ []) }
    {
        let bytes = Vec::with_capacity(alloc, OUTPUT_LEN)?;
        Ok(Output { bytes })
    }

    fn put(&mut self, bytes: &[u8])
        requires { vec_len self.old.bytes + length bytes.now ≤ OUTPUT_LEN }
        ensures value { self.new.bytes.items ≡ self.old.bytes.items ++ bytes.now }
        ensures len { vec_len self.new.bytes ≡ vec_len self.old.bytes + length bytes.now }
    {
        let _ = self.bytes.extend_from_slice(bytes);
    }

    fn put_head(&mut self, reply: &Outgoing<'_>, close: bool)
        requires { vec_len self.old.bytes + MAX_RESPONSE_HEAD ≤ OUTPUT_LEN }
        ensures value { self.new.bytes.items ≡ self.old.bytes.items
            ++ response_head reply.now.status reply.now.index (length reply.now.body.now) close }
        ensures len { vec_len self.new.bytes ≤ vec_len self.old.bytes + MAX_RESPONSE_HEAD }
    {
        let mut head = HeadText::new();
        put_head(&mut head, reply, close);
        self.put(head.as_str().as_bytes());
    }

    /// Sends what waits.
    pub(crate) fn flush<W: Write>(&mut self, writer: &mut Counted<W>) -> Result<(), WriteFault>
        ensures empty { OnOk result (waiting self.new ≡ []) }
        ensures ok { OnOk result (WritesAll W.contents writer.old writer.new (waiting self.old)) }
        ensures err { OnErr result
            (WritesPart W.contents writer.old writer.new (waiting self.old)) }
        ensures failed { OnErr result (IsWriteFault writer.old.counts writer.new.counts) }
        ensures grows { HasGrown writer.old.counts writer.new.counts }
        ensures open { OnOk result (IsOpen writer.old.counts → IsOpen writer.new.counts) }
        ensures stops { IsOpen writer.old.counts → writer.new.counts.went_on ≡ false }
    {
        write_all(writer, &self.bytes)?;
        self.bytes.clear();
        Ok(())
    }

    /// Makes room for the head, and for the body if it is short.
    fn make_room<W: Write>(
        &mut self,
        writer: &mut Counted<W>,
        body_len: usize,
    ) -> Result<(), WriteFault>
        ensures room { OnOk result (vec_len self.new.bytes + MAX_RESPONSE_HEAD ≤ OUTPUT_LEN) }
        ensures ok { OnOk result (Sends W.contents writer.old writer.new self.old self.new []) }
        ensures err { OnErr result
            (WritesPart W.contents writer.old writer.new (waiting self.old)) }
        ensures failed { OnErr result (IsWriteFault writer.old.counts writer.new.counts) }
        ensures grows { HasGrown writer.old.counts writer.new.counts }
        ensures open { OnOk result (IsOpen writer.old.counts → IsOpen writer.new.counts) }
        ensures stops { IsOpen writer.old.counts → writer.new.counts.went_on ≡ false }
    {
        let room = OUTPUT_LEN - self.bytes.len();
        if room < MAX_RESPONSE_HEAD || room - MAX_RESPONSE_HEAD < body_len {
            self.flush(writer)?;
        }
        Ok(())
    }

    /// Adds a response to those that wait, and sends what the buffer has no room for.
    pub(crate) fn send<W: Write>(
        &mut self,
        writer: &mut Counted<W>,
        reply: &Outgoing<'_>,
        close: bool,
    ) -> Result<(), WriteFault>
        ensures ok { OnOk result
            (Sends W.contents writer.old writer.new self.old self.new (wire_of reply.now close)) }
        ensures err { OnErr result
            (WritesPart W.contents writer.old writer.new
            (waiting self.old ++ wire_of reply.now close)) }
        ensures failed { OnErr result (IsWriteFault writer.old.counts writer.new.counts) }
        ensures grows { HasGrown writer.old.counts writer.new.counts }
        ensures open { OnOk result (IsOpen writer.old.counts → IsOpen writer.new.counts) }
        ensures stops { IsOpen writer.old.counts → writer.new.counts.went_on ≡ false }
    {
        self.make_room(writer, reply.body.len())?;
        self.put_head(reply, close);
        if reply.body.len() <= OUTPUT_LEN - self.bytes.len() {
            self.put(reply.body);
            return Ok(());
        }
        self.flush(writer)?;
        write_all(writer, reply.body)
    }
}
