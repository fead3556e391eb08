//! Reads a log line by line.

ghost use Rattle.std.specs.Prelude.{◌≡◌, ◌<◌, ◌≤◌, None, Some, Err, IfOk, IfSome, IsUtf8, length};
ghost use Rattle.std.specs.List.{position};
ghost use Rattle.serde_json.specs.Data.{depth};
ghost use Rattle.serde_json.specs.Read.{read, max_depth};
ghost use Rattle.serde_json.specs.View.{view};
ghost use Rattle.ns_json.specs.Logs.{head_text};
ghost use Rattle.ns_log.specs.Lines.{BeginsWith};
ghost use Rattle.ns_log_reader.specs.Lines.{HasBadEntry, HasBadLine, IsWithin, LogLine};
ghost use Rattle.ns_log_reader.specs.Reading.{BeginsWithLine, IsNext, ReadsBack, is_feed, line_from};

use crate::entry::entry;
use crate::fault::LineFault;
use ns_log::{Entry, head_len, line_len};
use ns_types::name::Secret;
use serde_json::Value;
use std::alloc::Global;

/// The position of the first line feed, if there is one.
pub fn line_end(text: &[u8]) -> Option<usize>
    ensures value { result ≡ position is_feed text.now }
    ensures within { IfSome result (λ end. end < length text.now) }
{
    text.iter().position(|byte| *byte == b'\n')
}

fn value_of(alloc: Global, line: &[u8]) -> Result<Value, LineFault>
    ensures text { IfOk result (λ v. IsUtf8 line.now) }
    ensures value { IfOk result (λ v. read line.now ≡ Some (view v)) }
    ensures nests { IfOk result (λ v. depth (view v) ≤ max_depth) }
    ensures bad { result ≡ Err LineFault.Bad → IsUtf8 line.now → read line.now ≡ None }
{
    match Value::from_slice(alloc, line) {
        Ok(value) => Ok(value),
        Err(e) => {
            if e.is_memory() {
                Err(LineFault::Memory)
            } else {
                Err(LineFault::Bad)
            }
        }
    }
}

/// The only entry that the line can stand for. A log may still spell its line otherwise.
fn candidate(alloc: Global, line: &[u8]) -> Result<Entry, LineFault>
    ensures within { IfOk result IsWithin }
    ensures text { IfOk result (λ e. IsUtf8 line.now) }
    ensures back { ReadsBack line.now result }
{
    let value = value_of(alloc, line)?;
    entry(alloc, &value)
}

/// An entry, and the length of its line in bytes.
#[derive(Drop)]
struct NextEntry {
    entry: Entry,
    len: usize,
}

/// Reads the entry whose line is at the front of the text.
fn next_entry(alloc: Global, text: &[u8]) -> Result<NextEntry, LineFault>
    ensures ok { IfOk result (λ l. BeginsWithLine text.now l.entry l.len) }
    ensures bad { result ≡ Err LineFault.Bad → HasBadEntry text.now }
{
    let Some(end) = line_end(text) else {
        return Err(LineFault::Bad);
    };
    let entry = candidate(alloc, &text[..end])?;
    match line_len(alloc, text, &entry) {
        Ok(Some(len)) => Ok(NextEntry { entry, len }),
        Ok(None) => {
            drop(entry);
            Err(LineFault::Bad)
        }
        Err(_) => {
            drop(entry);
            Err(LineFault::Memory)
        }
    }
}

/// A line: its entry, or none for the head of a segment, and its length in bytes.
#[derive(Drop)]
pub struct Next {
    pub entry: Option<Entry>,
    pub len: usize,
}

/// Reads the head of a segment after `start` entries, if the text begins with it.
fn next_head(alloc: Global, text: &[u8], secret: &Secret, start: u64) -> Result<Next, LineFault>
    ensures none { IfOk result (λ l. l.entry ≡ None) }
    ensures ok { IfOk result (λ l. IsNext text.now secret.now start LogLine.head l.len) }
    ensures bad { result ≡ Err LineFault.Bad →
        BeginsWith text.now (head_text start secret.now) → ⊥ }
{
    match head_len(alloc, text, secret, start)? {
        Some(len) => Ok(Next { entry: None, len }),
        None => Err(LineFault::Bad),
    }
}

/// Reads the line at the front of the text, which comes after `start` entries.
pub fn next_line(alloc: Global, text: &[u8], secret: &Secret, start: u64) -> Result<Next, LineFault>
    ensures ok { IfOk result (λ l. IsNext text.now secret.now start (line_from l.entry) l.len) }
    ensures bad { result ≡ Err LineFault.Bad → HasBadLine secret.now start text.now }
{
    match next_entry(alloc, text) {
        Ok(line) => {
            let NextEntry { entry, len } = line;
            let entry = Some(entry);
            Ok(Next { entry, len })
        }
        Err(LineFault::Bad) => next_head(alloc, text, secret, start),
        Err(LineFault::Memory) => Err(LineFault::Memory),
    }
}
