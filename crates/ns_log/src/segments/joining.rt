//! Joins segments to one log.

ghost use Rattle.std.specs.Prelude.{◌≡◌, IfOk};
ghost use Rattle.ns_log.specs.Segments.{joined};

use crate::Entry;
use crate::segments::segment::Segment;
use std::alloc::{AllocError, Global};

/// The entries of the segments, one segment after the other, and then those of the log. Want of memory is the only error.
pub fn join(
    alloc: Global,
    segments: Vec<Segment>,
    log: Vec<Entry>,
) -> Result<Vec<Entry>, AllocError>
    ensures { IfOk result (λ entries. entries.items ≡ joined segments.items log.items) }
{
    let mut entries = Vec::new(alloc);
    for segment in segments {
        let mut more = segment.into_log();
        entries.append(&mut more)?;
    }
    let mut more = log;
    entries.append(&mut more)?;
    Ok(entries)
}
