//! Writes replies, one line each.

use crate::words::{write_line, write_words};
use itoa::Buffer;
use ns_core::Core;
use ns_types::evaluation::Status;
use ns_types::key::EvalKey;
use ns_types::refusal::Refusal;
use ns_types::reply::{Content, Reply, Response};
use ns_types::text::Text;
use ns_types::worker::Phase;
use std::io::{self, Write};

/// Writes the status, the index and the body.
pub fn write_response<W: Write>(out: &mut W, response: &Response) -> io::Result<()> {
    let mut digits = Buffer::new();
    match response {
        Response::Done(Some(index), body) => {
            write_line(out, &["200 ", digits.format(*index), " ", body.as_str()])
        }
        Response::Done(None, body) => write_line(out, &["200 ", body.as_str()]),
        Response::Refused(refusal) => {
            write_line(out, &[digits.format(refusal.status()), " ", refusal.text()])
        }
    }
}

/// Writes why a worker's step was refused.
pub fn write_refusal<W: Write>(out: &mut W, refusal: Refusal) -> io::Result<()> {
    let text = match refusal {
        Refusal::NotEnabled => "not enabled",
        Refusal::Foreign => "foreign",
        _ => refusal.text(),
    };
    write_line(out, &[text])
}

fn status_text(status: Status) -> &'static str {
    match status {
        Status::Pending => "pending",
        Status::Blocked => "blocked",
        Status::Complete => "complete",
        Status::Failed => "failed",
        Status::Canceled => "canceled",
    }
}

/// Writes the numbers with a space before each, or `nothing`.
fn write_numbers<W: Write>(out: &mut W, numbers: &[u64]) -> io::Result<()> {
    if numbers.is_empty() {
        write_words(out, &[" nothing"])?;
    }
    let mut digits = Buffer::new();
    for number in numbers {
        write_words(out, &[" ", digits.format(*number)])?;
    }
    Ok(())
}

/// Writes the names with a space before each, or `nothing`.
fn write_names<W: Write>(out: &mut W, names: &[Text]) -> io::Result<()> {
    if names.is_empty() {
        write_words(out, &[" nothing"])?;
    }
    for name in names {
        write_words(out, &[" ", name.as_str()])?;
    }
    Ok(())
}

/// Writes the allocations that were made, and the nodes that were dropped.
fn write_applied<W: Write>(out: &mut W, made: &[u64], dropped: &[Text]) -> io::Result<()> {
    write_words(out, &["applied"])?;
    write_numbers(out, made)?;
    write_words(out, &[", dropped"])?;
    write_names(out, dropped)?;
    write_line(out, &[])
}

/// Writes how the evaluation ended, and its follower.
fn write_finished<W: Write>(out: &mut W, status: Status, follower: Option<u64>) -> io::Result<()> {
    let mut digits = Buffer::new();
    let follower = match follower {
        Some(number) => digits.format(number),
        None => "nothing",
    };
    write_line(
        out,
        &["finished ", status_text(status), ", followed by ", follower],
    )
}

fn write_content<W: Write>(out: &mut W, content: &Content) -> anyhow::Result<()> {
    let mut digits = Buffer::new();
    let written = match content {
        Content::Took(number) => write_line(out, &["took ", digits.format(*number)]),
        Content::Queued(number) => write_line(out, &["queued ", digits.format(*number)]),
        Content::Applied(made, dropped) => write_applied(out, made.as_slice(), dropped.as_slice()),
        Content::Finished(status, follower) => write_finished(out, *status, *follower),
        Content::Nacked(status) => write_line(out, &["nacked ", status_text(*status)]),
        _ => anyhow::bail!("an answer that no worker gets"),
    };
    Ok(written?)
}

/// Writes the reply to a worker's step, with its index if it has one.
pub fn write_reply<W: Write>(out: &mut W, answer: &Result<Reply, Refusal>) -> anyhow::Result<()> {
    match answer {
        Ok(reply) => {
            if let Some(index) = reply.index {
                write_words(out, &[Buffer::new().format(index), " "])?;
            }
            write_content(out, &reply.content)
        }
        Err(refusal) => Ok(write_refusal(out, *refusal)?),
    }
}

/// Writes the number of the evaluation whose snapshot was taken.
pub fn write_snapped<W: Write>(out: &mut W, number: u64) -> io::Result<()> {
    write_line(out, &["snapped ", Buffer::new().format(number)])
}

/// Writes the key of an evaluation, or `nothing`.
pub fn write_key<W: Write>(out: &mut W, key: Option<&EvalKey>) -> io::Result<()> {
    match key {
        Some(key) => {
            let mut digits = Buffer::new();
            let number = digits.format(key.number());
            write_line(out, &[number, " of ", key.namespace().as_str()])
        }
        None => write_line(out, &["nothing"]),
    }
}

fn phase_text(phase: Phase) -> &'static str {
    match phase {
        Phase::Took => "took",
        Phase::Snapped => "snapped",
        Phase::Submitted => "submitted",
        Phase::Applied => "applied",
        Phase::Dropped => "dropped",
    }
}

/// Writes the phase and the evaluation of the worker, and how many tries its plan has left.
pub fn write_phase<W: Write>(out: &mut W, core: &Core, worker: u64) -> io::Result<()> {
    match core.phase(worker) {
        Some(busy) => {
            let phase = phase_text(busy.phase);
            write_words(out, &[phase, " ", Buffer::new().format(busy.evaluation)])?;
            write_words(out, &[" of ", busy.namespace.as_str()])?;
            write_line(out, &[", ", Buffer::new().format(busy.tries), " tries"])
        }
        None => write_line(out, &["idle"]),
    }
}
