//! The bytes that were read and not yet used.
ghost use Rattle.std.specs.Prelude.{◌≡◌, ◌+◌, ◌-◌, ◌<◌, ◌≤◌, [], length, take, drop, vec_len, vec_capacity, IfOk, OnErr};
ghost use Rattle.std.specs.Io.KnownBytes.{IsAtEnd};
ghost use Rattle.ns_http.specs.Counts.{CountsRead, HasGrown, after_read};
ghost use Rattle.ns_http.specs.Reading.{Gains, GainsNothing};

use crate::counting::Counted;
use std::alloc::{AllocError, Allocator};
use std::io::{self, Read};

/// Room for the longest request.
pub(crate) const INPUT_LEN: usize = 16_384 + 1_048_576;

/// The least room of each read, in bytes.
pub const READ_ROOM: usize = 65_536;

/// Room for the longest request, and for a read behind it.
const BUFFER_LEN: usize = INPUT_LEN + READ_ROOM;

/// Reads once into the bytes from `end` on.
fn read_at<R: Read>(bytes: &mut [u8], end: usize, reader: &mut Counted<R>) -> io::Result<usize>
    requires { end < length bytes.old }
    ensures bound { IfOk result (λ n. end + n ≤ length bytes.new) }
    ensures front { take end bytes.new ≡ take end bytes.old }
    ensures more { IfOk result (λ n.
        Gains R.remaining reader.old reader.new (take end bytes.old) (take (end + n) bytes.new) n) }
    ensures none { result ≡ Ok 0 → IsAtEnd (R.remaining reader.new.inner) }
    ensures err { OnErr result
        (GainsNothing R.remaining reader.old reader.new (take end bytes.old) (take end bytes.new)) }
    ensures counts { reader.new.counts
        ≡ after_read reader.old.counts (length bytes.old - end) result }
    ensures grows { HasGrown reader.old.counts reader.new.counts }
{
    let count = reader.read(&mut bytes[end..])?;
    Ok(count)
}

/// A buffer whose unread bytes lie between two places. Its length grows inside its capacity.
#[derive(Drop)]
pub(crate) struct Input<A: Allocator> {
    bytes: Vec<u8, A>,
    start: usize,
    end: usize,
    ghost ordered: { start ≤ end },
    ghost in_range: { end ≤ vec_len bytes },
    ghost size: { vec_len bytes ≤ 1130496 },
    ghost capacity: { 1130496 ≤ vec_capacity bytes },
}

impl<A: Allocator> Input<A> {
    ghost use Rattle.ns_http.specs.Input.{unread};

    pub(crate) fn new(alloc: A) -> Result<Input<A>, AllocError>
        ensures { IfOk result (λ input. unread input ≡ []) }
    {
        let bytes = Vec::with_capacity(alloc, BUFFER_LEN)?;
        Ok(Input {
            bytes,
            start: 0,
            end: 0,
        })
    }

    pub(crate) fn unread(&self) -> &[u8]
        ensures value { result.now ≡ unread self.now }
        ensures len { length (unread self.now) ≤ BUFFER_LEN }
    {
        &self.bytes[self.start..self.end]
    }

    pub(crate) fn consume(&mut self, count: usize)
        requires { count ≤ length (unread self.old) }
        ensures { unread self.new ≡ drop count (unread self.old) }
    {
        self.start += count;
    }

    /// Moves the unread bytes to the front, so that all other room is behind them.
    fn move_to_front(&mut self)
        ensures start { self.new.start ≡ 0 }
        ensures unread { unread self.new ≡ unread self.old }
    {
        if self.start > 0 {
            self.bytes.copy_within(self.start..self.end, 0);
            self.end -= self.start;
            self.start = 0;
        }
    }

    /// Makes room for a read behind the unread bytes.
    fn make_room(&mut self)
        requires { length (unread self.old) < INPUT_LEN }
        ensures start { self.new.start ≡ 0 }
        ensures unread { unread self.new ≡ unread self.old }
        ensures room { self.new.end + READ_ROOM ≤ vec_len self.new.bytes }
    {
        self.move_to_front();
        let least = self.end + READ_ROOM;
        if self.bytes.len() < least {
            let len = (2 * self.end).clamp(least, BUFFER_LEN);
            let _ = self.bytes.resize(len, 0);
        }
    }

    /// Reads once, behind the unread bytes.
    pub(crate) fn fill<R: Read>(&mut self, reader: &mut Counted<R>) -> io::Result<usize>
        requires { length (unread self.old) < INPUT_LEN }
        ensures ok { IfOk result (λ n.
            Gains R.remaining reader.old reader.new (unread self.old) (unread self.new) n) }
        ensures len { length (unread self.new) ≤ BUFFER_LEN }
        ensures end { result ≡ Ok 0 → IsAtEnd (R.remaining reader.new.inner) }
        ensures err { OnErr result
            (GainsNothing R.remaining reader.old reader.new (unread self.old) (unread self.new)) }
        ensures counts { CountsRead reader.old.counts reader.new.counts result }
        ensures grows { HasGrown reader.old.counts reader.new.counts }
    {
        self.make_room();
        let end = self.end;
        let count = read_at(&mut self.bytes, end, reader)?;
        self.end += count;
        Ok(count)
    }
}
