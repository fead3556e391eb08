//! The text of a log, whole or in segments.

ghost use Rattle.std.specs.Prelude.{◌≡◌, ◌++◌, IfOk, OnOk, string_bytes};
ghost use Rattle.std.specs.List.{flat_map};
ghost use Rattle.serde_json.specs.Written.{compact_text};
ghost use Rattle.ns_json.specs.Logs.{entry_json, head_text, line_of, log_text, segment_text};

use crate::entry::{Entry, entry_line};
use ns_types::name::Secret;
use std::alloc::{AllocError, Global};

/// Adds the lines of the entries, in their order.
fn push_lines(text: &mut String, alloc: Global, entries: &[Entry]) -> Result<(), AllocError>
    ensures { OnOk result (string_bytes text.new ≡ string_bytes text.old ++
        flat_map (λ e. line_of (compact_text (entry_json e))) entries.now) }
{
    for entry in entries {
        let line = entry_line(alloc, entry.step(), entry.rendered())?;
        text.push_str(line.as_str())?;
    }
    Ok(())
}

/// The line in front of a segment before which come `start` entries, with its line feed. Want of memory is the only error.
pub fn head_line(alloc: Global, bootstrap: &Secret, start: u64) -> Result<String, AllocError>
    ensures { IfOk result (λ line. string_bytes line ≡ line_of (head_text start bootstrap.now)) }
{
    let mut line = String::new(alloc);
    let secret = bootstrap.get().as_str();
    writeln!(line, "nsd-log 3 {start} {secret}")?;
    Ok(line)
}

/// The text of a segment before which come `start` entries: the line of the secret, then one line for each entry. Want of
/// memory is the only error.
#[tactic(auto, unfolding(ns_json::specs::Logs::segment_text))]
pub fn segment_text(
    alloc: Global,
    bootstrap: &Secret,
    start: u64,
    entries: &[Entry],
) -> Result<String, AllocError>
    ensures { IfOk result (λ text.
        string_bytes text ≡ segment_text bootstrap.now start entries.now) }
{
    let mut text = head_line(alloc, bootstrap, start)?;
    push_lines(&mut text, alloc, entries)?;
    Ok(text)
}

/// The text of a log that is one segment. Want of memory is the only error.
pub fn log_text(alloc: Global, bootstrap: &Secret, entries: &[Entry]) -> Result<String, AllocError>
    ensures { IfOk result (λ text. string_bytes text ≡ log_text bootstrap.now entries.now) }
{
    segment_text(alloc, bootstrap, 0, entries)
}
