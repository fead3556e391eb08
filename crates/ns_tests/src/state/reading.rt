// A log is read as it was written. A line that is cut, or that says the same in other bytes, is bad.
use crate::state::steps::TEXT;
use ns_log::log_text;
use ns_log_reader::{LogFault, log_read};
use std::alloc::Global;
use std::process::Abort;

/// Reads the text as a log, and writes that log again.
fn copied(rt: &impl Abort, alloc: Global, text: &str) -> String {
    let log = log_read(alloc, text.as_bytes()).expect(rt, "a log");
    let copy = log_text(alloc, &log.secret, log.entries.as_slice()).expect(rt, "memory");
    drop(log);
    copy
}

#[test]
fn a_log_is_read_as_it_was_written(rt: HostRuntime) {
    let copy = copied(&rt, rt.alloc(), TEXT);
    assert!(rt; copy.as_str() == TEXT);
}

/// The first bad line, if there is one.
fn bad_line(alloc: Global, text: &[u8]) -> Option<u64> {
    match log_read(alloc, text) {
        Ok(log) => {
            drop(log);
            None
        }
        Err(LogFault::Line(number)) => Some(number),
        Err(LogFault::Memory) => Some(0),
    }
}

/// The number of the line that is cut, if the text does not end with a whole line.
fn cut_line(text: &[u8]) -> Option<u64> {
    if text.ends_with(b"\n") {
        return None;
    }
    let whole = text.iter().filter(|byte| **byte == b'\n').count();
    Some(whole as u64 + 1)
}

#[test]
fn a_line_that_is_cut_is_bad(rt: HostRuntime) {
    let bytes = TEXT.as_bytes();
    for end in 0..=bytes.len() {
        let (text, _) = bytes.split_at(end);
        assert!(rt;
            bad_line(rt.alloc(), text) == cut_line(text),
            "cut behind {end} bytes"
        );
    }
}

/// Words of the log, the words that replace them, and the number of the line that is then bad: it says the same in other bytes,
/// or it has no step within the limits.
const BAD: [(&str, &str, u64); 10] = [
    ("nsd-log 3 0 root", "nsd-log 9 0 root", 1),
    ("nsd-log 3 0 root", "nsd-log 3 0 r t", 1),
    (
        "{\"Body\":\"{}\",\"Index\":null",
        "{\"Index\":null,\"Body\":\"{}\"",
        2,
    ),
    ("\"Name\":\"east\"", "\"Name\":\"all\"", 2),
    ("\"Priority\":50", "\"Priority\":0", 3),
    ("\"Priority\":50", "\"Priority\":050", 3),
    ("\"SizeMB\":300", "\"SizeMB\":0", 3),
    ("\"EphemeralDisk\":{\"SizeMB\":300},", "", 3),
    ("\"Eval\":1,", "\"Eval\": 1,", 4),
    ("\"Worker\":0", "\"Worker\":0,\"Zone\":0", 4),
];

/// The first bad line of the text with the new words in place of the old.
fn bad_with(rt: &impl Abort, alloc: Global, old: &str, new: &str) -> Option<u64> {
    let (before, after) = TEXT.split_once(old).expect(rt, "the old words");
    let text = format!(in alloc; "{before}{new}{after}").expect(rt, "memory");
    bad_line(alloc, text.as_str().as_bytes())
}

#[test]
fn a_line_in_other_bytes_is_bad(rt: HostRuntime) {
    for (old, new, line) in &BAD {
        assert!(rt;
            bad_with(&rt, rt.alloc(), *old, *new) == Some(*line),
            "with {new}"
        );
    }
}
