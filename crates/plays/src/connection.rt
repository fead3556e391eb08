//! One connection with a new server, whose replies or log are returned.

use crate::ended::PlayEnd;
use crate::same_bytes::SameBytes;
use crate::words::{BAD_HEAD, ROOT, first_word};
use anyhow::Context;
use ns_api::Driven;
use ns_http::Counted;
use ns_pipe::{pipe, pipe_log};
use ns_types::name::Secret;
use std::alloc::Global;

/// Whether a worker is driven after each request: if the name of the part begins with `driven`.
fn driven_of(name: &str) -> Driven {
    if name.starts_with("driven ") {
        Driven::Worker
    } else {
        Driven::Nobody
    }
}

/// The text, followed by spaces if the name begins with `spaces` and their number.
fn spaced(alloc: Global, text: &str, name: &str) -> anyhow::Result<String> {
    let mut input = String::from_str(alloc, text)?;
    if let Some(rest) = name.strip_prefix("spaces ") {
        let (count, _) = first_word(rest);
        let count: u64 = count.parse().ok().context(BAD_HEAD)?;
        for _ in 0..count {
            input.push_str(" ")?;
        }
    }
    Ok(input)
}

/// Serves the requests, and returns the replies. The words are the bootstrap secret, the step of the draws, and a name. The
/// name begins with `driven` if a worker is driven, and with `spaces` and a number if that many spaces follow the requests.
pub fn serve(alloc: Global, words: &str, requests: &str) -> anyhow::Result<PlayEnd> {
    let (secret, words) = first_word(words);
    let (step, name) = first_word(words);
    let bootstrap = Secret::read(alloc, secret)?.context(BAD_HEAD)?;
    let step = step.parse().ok().context(BAD_HEAD)?;
    let requests = spaced(alloc, requests, name)?;
    let mut next = 1;
    let mut errors = Counted::new(Vec::new(alloc));
    let mut reader = Counted::new(requests.as_bytes());
    let mut writer = Counted::new(Vec::new(alloc));
    let draws = SameBytes {
        next: &mut next,
        step,
    };
    let status = pipe(
        alloc,
        &bootstrap,
        draws,
        driven_of(name),
        &mut reader,
        &mut writer,
        &mut errors,
    );
    Ok(PlayEnd {
        status,
        written: writer.into_inner(),
        errors: errors.into_inner(),
    })
}

/// Serves the requests, and returns their log. Each draw is the same.
pub fn log_of(alloc: Global, requests: &str, driven: Driven) -> anyhow::Result<PlayEnd> {
    let bootstrap = Secret::read(alloc, ROOT)?.context("no secret")?;
    let mut next = 1;
    let mut errors = Counted::new(Vec::new(alloc));
    let mut reader = Counted::new(requests.as_bytes());
    let mut replies = Counted::new(Vec::new(alloc));
    let mut writer = Counted::new(Vec::new(alloc));
    let draws = SameBytes {
        next: &mut next,
        step: 0,
    };
    let status = pipe_log(
        alloc,
        &bootstrap,
        draws,
        driven,
        &mut reader,
        &mut replies,
        &mut writer,
        &mut errors,
    );
    Ok(PlayEnd {
        status,
        written: writer.into_inner(),
        errors: errors.into_inner(),
    })
}

/// Serves the requests, and returns their log. A worker is driven if the name begins with `driven`.
pub fn log(alloc: Global, name: &str, requests: &str) -> anyhow::Result<PlayEnd> {
    log_of(alloc, requests, driven_of(name))
}
