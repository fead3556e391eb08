//! A long log: that of requests that are made over and over, each followed by the steps of a driven worker.

use crate::connection::log_of;
use crate::ended::PlayEnd;
use crate::replayed::alone;
use crate::words::{BAD_HEAD, first_word};
use anyhow::Context;
use ns_api::Driven;
use std::alloc::Global;

/// Separates the requests that are made once from those that are made over and over.
const AGAIN: &str = "\n--- again\n";

/// The requests that are made once, followed by the others `times` times.
fn repeated(alloc: Global, text: &str, times: u64) -> anyhow::Result<String> {
    let (once, again) = text
        .split_once(AGAIN)
        .context("no requests to be made again")?;
    let mut input = String::from_str(alloc, once)?;
    for _ in 0..times {
        input.push_str(again)?;
    }
    Ok(input)
}

/// How many lines the text has, and the last of them.
fn last_line(text: &str) -> anyhow::Result<(u64, &str)> {
    let lines = text
        .as_bytes()
        .iter()
        .filter(|byte| **byte == b'\n')
        .count();
    let text = text.strip_suffix('\n').context("no line")?;
    let last = match text.rsplit_once('\n') {
        Some((_, last)) => last,
        None => text,
    };
    Ok((lines as u64, last))
}

/// Replays the log of the requests, and returns how many lines that prints, and the last of them. The words are the namespace,
/// how many of the first entries set up the server, the number of rounds, and a name.
pub fn rounds(alloc: Global, words: &str, text: &str) -> anyhow::Result<PlayEnd> {
    let (_namespace, rest) = first_word(words);
    let (_from, rest) = first_word(rest);
    let (times, _name) = first_word(rest);
    let times = times.parse().ok().context(BAD_HEAD)?;
    let requests = repeated(alloc, text, times)?;
    let logged = log_of(alloc, requests.as_str(), Driven::Worker)?;
    let replayed = alone(alloc, words, logged.written.as_slice())?;
    let PlayEnd {
        status,
        written,
        errors,
    } = replayed;
    let text = String::from_utf8(written).ok().context("no text")?;
    let (lines, last) = last_line(text.as_str())?;
    let written = format!(in alloc; "{lines} lines, the last: {last}")?.into_bytes();
    Ok(PlayEnd {
        status,
        written,
        errors,
    })
}
