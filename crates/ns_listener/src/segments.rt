//! Writes the text of a segment line by line: it takes no memory of the segment's size.

ghost use Rattle.std.specs.Result.{result_err};
ghost use Rattle.std.specs.Prelude.{flat_map};
ghost use Rattle.ns_json.specs.Logs.{line_of, segment_text};
ghost use Rattle.ns_log.specs.Lines.{entry_text};
ghost use Rattle.ns_http.specs.Counts.{HasGrown};
ghost use Rattle.ns_listener.specs.Keeping.{WritesText};

use ns_http::{ConnFault, Counted, write_all};
use ns_log::{Entry, entry_line, head_line};
use ns_types::name::Secret;
use std::alloc::Global;
use std::io::Write;

/// Writes the lines of the entries, in their order.
fn write_lines<W: Write>(
    alloc: Global,
    writer: &mut Counted<W>,
    entries: &[Entry],
) -> Result<(), ConnFault>
    ensures written { let lines = flat_map (λ e. line_of (entry_text e)) entries.now in
        WritesText W.contents (result_err result) writer.old writer.new lines }
    ensures grows { HasGrown writer.old.counts writer.new.counts }
{
    for entry in entries {
        let line = entry_line(alloc, entry.step(), entry.rendered())?;
        write_all(writer, line.as_bytes())?;
    }
    Ok(())
}

/// Writes the text of a segment that comes after `start` entries.
#[tactic(auto, unfolding(ns_json::specs::Logs::segment_text))]
pub(crate) fn write_segment<W: Write>(
    alloc: Global,
    secret: &Secret,
    start: u64,
    entries: &[Entry],
    writer: &mut Counted<W>,
) -> Result<(), ConnFault>
    ensures written { let text = segment_text secret.now start entries.now in
        WritesText W.contents (result_err result) writer.old writer.new text }
    ensures grows { HasGrown writer.old.counts writer.new.counts }
{
    let head = head_line(alloc, secret, start)?;
    write_all(writer, head.as_bytes())?;
    write_lines(alloc, writer, entries)
}
