//! Reads a whole log.

ghost use Rattle.std.specs.Prelude.{◌≡◌, ◌++◌, ◌∷◌, [], IfOk, IsErrOf, OnOk, ℕ};
ghost use Rattle.ns_log_reader.specs.Lines.{IsFault, IsLogOf, entries_of};
ghost use Rattle.ns_log_reader.specs.Reading.{HasEntries, StopsAfter, line_from};

use crate::fault::{LineFault, LogFault};
use crate::head::read_head;
use crate::line::{Next, next_line};
use ns_log::Entry;
use ns_types::name::Secret;
use ns_types::rows::Rows;
use std::alloc::{AllocError, Global};

/// A log: the secret that its server began with, and its entries in their order.
pub struct Log {
    pub secret: Secret,
    pub entries: Rows<Entry>,
}

impl Drop for Log {
    fn drop(self) {
        let Log {
            secret: _secret,
            entries: _entries,
        } = self;
    }
}

/// Adds the entry of a line, if the line has one. Want of memory is the only error.
fn push_entry(entries: &mut Rows<Entry>, entry: Option<Entry>) -> Result<(), AllocError>
    ensures { OnOk result (entries.new ≡ entries.old ++ entries_of (line_from entry ∷ [])) }
{
    if let Some(entry) = entry {
        entries.push(entry)?;
    }
    Ok(())
}

/// Reads the entries of the lines after the first. A bad line is counted from the first line of the log.
fn read_entries(alloc: Global, text: &[u8], secret: &Secret) -> Result<Rows<Entry>, LogFault>
    ensures ok { IfOk result (λ entries. HasEntries text.now secret.now entries) }
    ensures bad { (n : ℕ) → IsErrOf result (LogFault.Line n) → StopsAfter text.now secret.now n }
{
    let mut entries = Rows::new(alloc);
    let mut rest = text;
    let mut number = 2;
    while !rest.is_empty() {
        match next_line(alloc, rest, secret, entries.as_slice().len() as u64) {
            Ok(line) => {
                let Next { entry, len } = line;
                match push_entry(&mut entries, entry) {
                    Ok(()) => {}
                    Err(_) => {
                        drop(entries);
                        return Err(LogFault::Memory);
                    }
                }
                rest = &rest[len..];
                number += 1;
            }
            Err(LineFault::Bad) => {
                drop(entries);
                return Err(LogFault::Line(number));
            }
            Err(LineFault::Memory) => {
                drop(entries);
                return Err(LogFault::Memory);
            }
        }
    }
    Ok(entries)
}

/// Reads the log that a text is. A line is good only if it is, line feed included, what `ns_log` writes for an entry, or for
/// the head of a segment after as many entries as come before the line. The errors are the first bad line, counted from 1, and
/// want of memory.
pub fn log_read(alloc: Global, text: &[u8]) -> Result<Log, LogFault>
    ensures ok { IfOk result (λ log. IsLogOf text.now log.secret log.entries) }
    ensures bad { (n : ℕ) → IsErrOf result (LogFault.Line n) → IsFault text.now n }
{
    let head = match read_head(alloc, text) {
        Ok(head) => head,
        Err(LineFault::Bad) => return Err(LogFault::Line(1)),
        Err(LineFault::Memory) => return Err(LogFault::Memory),
    };
    let entries = read_entries(alloc, &text[head.len..], &head.secret)?;
    Ok(Log {
        secret: head.secret,
        entries,
    })
}
