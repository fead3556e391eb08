//! Plays stored parts, each with a new server whose draws are fixed. A part is a connection whose replies or log are printed, a
//! log from which a namespace's own steps are replayed alone, or a script in which workers make steps between requests.
#![tactic(auto)]

mod answers;
mod connection;
mod ended;
mod lent;
mod line;
mod looks;
mod repeated;
mod replayed;
mod same_bytes;
mod server;
mod steps;
mod taken;
mod watch;
mod words;

use crate::connection::{log, serve};
use crate::repeated::rounds;
use crate::replayed::alone;
use crate::server::script;
use crate::words::{BAD_HEAD, first_word, write_line};
use anyhow::Context;
use std::alloc::Global;
use std::io::{Read, Write};

/// Begins each part, on a line of its own.
const MARK: &str = "\n=== ";

/// Plays one part: its first line begins with a word that says its kind.
fn play<W: Write>(alloc: Global, part: &str, out: &mut W) -> anyhow::Result<()> {
    let (head, text) = part.split_once('\n').context(BAD_HEAD)?;
    write_line(out, &["=== ", head])?;
    let (kind, rest) = first_word(head);
    let played = match kind {
        "serve" => serve(alloc, rest, text),
        "log" => log(alloc, rest, text),
        "alone" => alone(alloc, rest, text.as_bytes()),
        "rounds" => rounds(alloc, rest, text),
        "script" => return script(alloc, text, out),
        _ => anyhow::bail!("a part of no known kind"),
    };
    played?.print(out)
}

/// Plays the parts of the text, one after the other.
fn play_all<W: Write>(alloc: Global, text: &str, out: &mut W) -> anyhow::Result<()> {
    for part in text.split(MARK) {
        play(alloc, part, out)?;
    }
    Ok(())
}

/// Line feeds at the end of the input belong to no part.
fn main(rt: HostRuntime) -> anyhow::Result<()> {
    let alloc = rt.alloc();
    let mut text = String::from_str(alloc, "\n")?;
    rt.stdin().read_to_string(&mut text)?;
    let text = text.as_str().trim_end_matches('\n');
    let parts = text.strip_prefix(MARK).context("no part")?;
    play_all(alloc, parts, &mut rt.stdout())
}
