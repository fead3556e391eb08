//! Replays a namespace's own steps of a log alone.

use crate::ended::PlayEnd;
use crate::words::{BAD_HEAD, first_word};
use anyhow::Context;
use ns_http::Counted;
use ns_pipe::replay::{Replay, print_replay};
use ns_types::rows::Rows;
use ns_types::text::Text;
use std::alloc::Global;

/// The words that follow the word `wanted`.
fn behind(alloc: Global, words: &str, wanted: &str) -> anyhow::Result<Rows<Text>> {
    let mut names = Rows::new(alloc);
    let mut is_behind = false;
    for word in words.split(' ') {
        if is_behind {
            names.push(Text::from_str(alloc, word)?)?;
        }
        is_behind = word == wanted;
    }
    Ok(names)
}

/// The replay that the words ask for: first the namespace, then how many of the first entries set up the server. Each word
/// after `--pool` or `--quota` is one that the namespace has to itself. Other words are not read.
fn replay_of(alloc: Global, words: &str) -> anyhow::Result<Replay> {
    let (namespace, words) = first_word(words);
    let (from, words) = first_word(words);
    Ok(Replay {
        namespace: Text::from_str(alloc, namespace)?,
        from: from.parse().ok().context(BAD_HEAD)?,
        pools: behind(alloc, words, "--pool")?,
        quotas: behind(alloc, words, "--quota")?,
    })
}

/// Makes the replay of the log that the words ask for.
pub fn alone(alloc: Global, words: &str, log: &[u8]) -> anyhow::Result<PlayEnd> {
    let replay = replay_of(alloc, words)?;
    let mut errors = Counted::new(Vec::new(alloc));
    let mut reader = Counted::new(log);
    let mut writer = Counted::new(Vec::new(alloc));
    let status = print_replay(alloc, &replay, &mut reader, &mut writer, &mut errors);
    Ok(PlayEnd {
        status,
        written: writer.into_inner(),
        errors: errors.into_inner(),
    })
}
