//! Readers and writers that count their faults.
ghost use Rattle.std.specs.Prelude.{◌≡◌, nat_lt, length};
ghost use Rattle.std.specs.Io.{ReadsAtMost, WritesAtMost};
ghost use Rattle.ns_http.specs.Counts.{HasGrown, no_counts, is_interruption, after_call, after_read, after_write};

use std::io::{self, ErrorKind, Read, Write};

/// What was counted. The numbers stop at the greatest that they hold.
#[derive(Clone, Copy, PartialEq, Eq)]
pub struct Counts {
    calls: u64,
    faults: u64,
    interruptions: u64,
    least_room: u64,
    // A read that had room gave no byte.
    ended: bool,
    // A call failed otherwise than by interruption, or a write took none of its bytes.
    broken: bool,
    // A read came after the end, or a call after such a failure.
    went_on: bool,
}

impl Counts {
    /// How many calls were made.
    pub fn calls(self) -> u64
        ensures { result ≡ self.calls }
    {
        self.calls
    }

    /// How many calls failed otherwise than by interruption. A write that took none of its bytes is
    /// one of them.
    pub fn faults(self) -> u64
        ensures { result ≡ self.faults }
    {
        self.faults
    }

    /// How many calls were interrupted.
    pub fn interruptions(self) -> u64
        ensures { result ≡ self.interruptions }
    {
        self.interruptions
    }

    /// The least room that a read was given, in bytes; the greatest `u64` where there was no read.
    pub fn least_room(self) -> u64
        ensures { result ≡ self.least_room }
    {
        self.least_room
    }

    /// Whether a read that had room gave no byte.
    pub fn ended(self) -> bool
        ensures { result ≡ self.ended }
    {
        self.ended
    }

    /// Whether a call failed otherwise than by interruption, or a write took none of its bytes.
    pub fn broken(self) -> bool
        ensures { result ≡ self.broken }
    {
        self.broken
    }

    /// Whether a read came after the end, or a call after one that failed otherwise than by
    /// interruption.
    pub fn went_on(self) -> bool
        ensures { result ≡ self.went_on }
    {
        self.went_on
    }

    /// Counts one call.
    fn add_call(&mut self, is_interrupted: bool, is_fault: bool)
        ensures counts { self.new ≡ after_call self.old is_interrupted is_fault }
        ensures grows { HasGrown self.old self.new }
    {
        *self = Counts {
            calls: self.calls.saturating_add(1),
            faults: self.faults.saturating_add(u64::from(is_fault)),
            interruptions: self.interruptions.saturating_add(u64::from(is_interrupted)),
            broken: self.broken || is_fault,
            ..*self
        };
    }
}

/// Whether the call was interrupted, and may be made again.
pub(crate) fn is_interruption(error: &io::Error) -> bool
    ensures { result ≡ is_interruption error.now }
{
    matches!(error.kind(), ErrorKind::Interrupted)
}

/// A reader or a writer that counts its calls and its faults.
#[derive(Drop)]
pub struct Counted<T> {
    inner: T,
    counts: Counts,
}

impl<T> Counted<T> {
    /// Wraps a reader or a writer. Nothing is counted yet.
    pub fn new(inner: T) -> Counted<T>
        ensures inner { result.inner ≡ inner }
        ensures counts { result.counts ≡ no_counts }
    {
        let counts = Counts {
            calls: 0,
            faults: 0,
            interruptions: 0,
            least_room: u64::MAX,
            ended: false,
            broken: false,
            went_on: false,
        };
        Counted { inner, counts }
    }

    /// What was counted so far.
    pub fn counts(&self) -> Counts
        ensures { result ≡ self.now.counts }
    {
        self.counts
    }

    /// The reader or writer itself.
    pub fn into_inner(self) -> T
        ensures { result ≡ self.inner }
    {
        let Counted { inner, counts: _ } = self;
        inner
    }
}

impl<R: Read> Counted<R> {
    ghost use Rattle.ns_http.specs.Reading.{ReadsFrom};

    /// One read.
    pub(crate) fn read(&mut self, buf: &mut [u8]) -> io::Result<usize>
        ensures bound { ReadsAtMost result buf.new }
        ensures bytes { ReadsFrom R.remaining self.old self.new result buf.new }
        ensures counts { self.new.counts ≡ after_read self.old.counts (length buf.old) result }
        ensures grows { HasGrown self.old.counts self.new.counts }
    {
        let result = self.inner.read(buf);
        let (is_end, is_interrupted, is_fault) = match &result {
            Ok(count) => (*count == 0 && !buf.is_empty(), false, false),
            Err(error) => (false, is_interruption(error), !is_interruption(error)),
        };
        self.counts.went_on |= self.counts.ended || self.counts.broken;
        self.counts.add_call(is_interrupted, is_fault);
        self.counts.ended |= is_end;
        self.counts.least_room = self.counts.least_room.min(buf.len() as u64);
        result
    }
}

impl<W: Write> Counted<W> {
    ghost use Rattle.ns_http.specs.Output.{WritesTo};

    /// One write. It is a fault if the writer takes none of the bytes.
    pub(crate) fn write(&mut self, buf: &[u8]) -> io::Result<usize>
        ensures bound { WritesAtMost result buf.now }
        ensures bytes { WritesTo W.contents self.old self.new result buf.now }
        ensures counts { self.new.counts
            ≡ after_write self.old.counts (nat_lt 0 (length buf.now)) result }
        ensures grows { HasGrown self.old.counts self.new.counts }
    {
        let result = self.inner.write(buf);
        let (is_interrupted, is_fault) = match &result {
            Ok(count) => (false, *count == 0 && !buf.is_empty()),
            Err(error) => (is_interruption(error), !is_interruption(error)),
        };
        self.counts.went_on |= self.counts.broken;
        self.counts.add_call(is_interrupted, is_fault);
        result
    }
}
