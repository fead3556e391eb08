//! Whether segments follow each other.

ghost use Rattle.std.specs.Prelude.{IfErr, OnOk};
ghost use Rattle.ns_log.specs.Segments.{Follows, IsGap};

use crate::segments::segment::Segment;

/// Checks that the segments follow each other from place 0 on, and that a log that begins at `start` follows them. The error is
/// the first place where the next segment, or that log, should start and does not.
pub fn follow(segments: &[Segment], start: u64) -> Result<(), u64>
    ensures ok { OnOk result (Follows 0 segments.now start) }
    ensures gap { IfErr result (IsGap 0 segments.now start) }
{
    let mut place = 0;
    for segment in segments {
        if segment.start() != place {
            return Err(place);
        }
        place = segment.end();
    }
    if start != place {
        return Err(place);
    }
    Ok(())
}
