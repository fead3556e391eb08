//! Writes the segments of a server's log, and keeps them where the log is settled.

ghost use Rattle.std.specs.Prelude.{◌≡◌, ◌++◌, [], ◌∷◌, IfNone, IfSome, None, true};
ghost use Rattle.ns_http.specs.Counts.{HasGrown};
ghost use Rattle.ns_log.specs.Segments.{text_of};
ghost use Rattle.ns_listener.specs.Keeping.{IsTaken, WritesBy};

use crate::segments::write_segment;
use ns_http::{ConnFault, Counted};
use ns_log::segments::Segment;
use ns_types::name::Secret;
use ns_workers::Keep;
use std::alloc::Global;
use std::io::Write;

/// Writes each segment after the one before. Where the log is settled at the end, it keeps the segments too.
#[derive(Drop)]
pub struct Keeper<W> {
    pub secret: Secret,
    pub writer: Counted<W>,
    /// The fault that cut the text short. Nothing is written after it, since a log with a gap is no log.
    pub fault: Option<ConnFault>,
    /// Whether segments are kept, as settling needs them.
    pub keeps: bool,
    pub segments: Vec<Segment>,
    /// Whether all segments so far are kept.
    pub is_whole: bool,
}

impl<W: Write> Keeper<W> {
    pub fn new(alloc: Global, secret: Secret, writer: Counted<W>, keeps: bool) -> Keeper<W>
        ensures secret { result.secret ≡ secret }
        ensures writer { result.writer ≡ writer }
        ensures fault { result.fault ≡ None }
        ensures segments { result.segments.items ≡ [] }
        ensures is_whole { result.is_whole ≡ true }
    {
        Keeper {
            secret,
            writer,
            fault: None,
            keeps,
            segments: Vec::new(alloc),
            is_whole: true,
        }
    }
}

/// Writes the text of the segment after what was written before, unless there was a fault. Returns the earlier fault, or the
/// fault of this write.
fn write_next<W: Write>(
    alloc: Global,
    secret: &Secret,
    segment: &Segment,
    fault: Option<ConnFault>,
    writer: &mut Counted<W>,
) -> Option<ConnFault>
    ensures writes { let text = text_of secret.now segment.now in
        WritesBy W.contents fault result writer.old writer.new text }
    ensures grows { HasGrown writer.old.counts writer.new.counts }
{
    if fault.is_some() {
        return fault;
    }
    write_segment(alloc, secret, segment.start(), segment.entries(), writer).err()
}

/// Keeps the segment, if segments are kept and none is missing. Otherwise, or if there is no memory for it, returns the
/// segment.
fn store(segments: &mut Vec<Segment>, segment: Segment, keeps: bool) -> Option<Segment>
    ensures kept { IfNone result (segments.new.items ≡ segments.old.items ++ segment ∷ []) }
    ensures back { IfSome result (λ back. back ≡ segment) }
{
    if !keeps {
        return Some(segment);
    }
    match segments.push(segment) {
        Ok(()) => None,
        Err(refused) => Some(refused.value),
    }
}

impl<W: Write> Keep for Keeper<W> {
    ghost takes = { λ old segment new. IsTaken W.contents old segment new };

    fn keep(&mut self, alloc: Global, segment: Segment) -> Option<Segment> {
        let Keeper {
            secret,
            writer,
            fault,
            keeps,
            segments,
            is_whole,
        } = self;
        *fault = write_next(alloc, secret, &segment, *fault, writer);
        let back = store(segments, segment, *keeps && *is_whole);
        *is_whole = back.is_none() && *is_whole;
        back
    }
}
