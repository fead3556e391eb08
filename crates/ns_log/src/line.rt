//! The line at the front of a text.

ghost use Rattle.std.specs.Prelude.{◌≡◌, IfOk};
ghost use Rattle.ns_types.specs.State.Names.{Name};
ghost use Rattle.ns_json.specs.Logs.{head_text, line_of};
ghost use Rattle.ns_log.specs.Lines.{IsLineLen, entry_text};

use crate::entry::{Entry, entry_line};
use crate::log::head_line;
use ns_types::name::Secret;
use std::alloc::{AllocError, Global};

/// The length of the line, if the text begins with it. `line` has its line feed.
fn begun_len(text: &[u8], line: &[u8]) -> Option<usize>
    ensures { (alone : Name) → line.now ≡ line_of alone → IsLineLen text.now alone result }
{
    text.starts_with(line).then_some(line.len())
}

/// The length of the entry's line, if the text begins with that line. Want of memory is the only error.
pub fn line_len(alloc: Global, text: &[u8], entry: &Entry) -> Result<Option<usize>, AllocError>
    ensures { IfOk result (IsLineLen text.now (entry_text entry.now)) }
{
    let line = entry_line(alloc, entry.step(), entry.rendered())?;
    Ok(begun_len(text, line.as_bytes()))
}

/// The length of the line in front of a segment, if the text begins with that line. Want of memory is the only error.
pub fn head_len(
    alloc: Global,
    text: &[u8],
    bootstrap: &Secret,
    start: u64,
) -> Result<Option<usize>, AllocError>
    ensures { IfOk result (IsLineLen text.now (head_text start bootstrap.now)) }
{
    let line = head_line(alloc, bootstrap, start)?;
    Ok(begun_len(text, line.as_bytes()))
}
