//! The result of replaying a log.

ghost use Rattle.std.specs.Prelude.{◌≡◌, ◌+◌, ◌^◌, ◌<◌, IfOk, length, string_bytes};
ghost use Rattle.ns_pipe.specs.Claimed.{pools_for, quotas_for};
ghost use Rattle.ns_pipe.specs.Outcome.{ComesTo, IsPrintout, ReplaysTo, ending_of, place_of};

use crate::replay::base::base_of;
use crate::replay::claimed::claimed_in;
use crate::replay::ending::{ReplayEnd, push_ending};
use crate::replay::lines::own_lines;
use crate::replay::replay::Replay;
use ns_core::Core;
use ns_log::Entry;
use ns_log_reader::{LogFault, log_read};
use ns_replay::{ReplayFault, replay_alone};
use ns_types::text::Text;
use std::alloc::{AllocError, Global};

/// The lines of the namespace's own entries up to the first fault, and how the replay ended.
#[derive(Drop)]
struct ReplayLines {
    lines: String,
    ending: ReplayEnd,
}

/// The place of the fault's entry among the replayed entries.
fn place_of(fault: ReplayFault) -> u64
    ensures { result ≡ place_of fault }
{
    match fault {
        ReplayFault::Premise(place) | ReplayFault::Differs(place) | ReplayFault::NotARun(place) => {
            place
        }
        ReplayFault::Memory => 0,
    }
}

/// How a replay ends by its fault, where the first entry stands at the place `first`. None: memory
/// is wanting.
fn ending_of(first: u64, fault: ReplayFault) -> Option<ReplayEnd>
    requires { first + place_of fault < 2 ^ 64 }
    ensures { result ≡ ending_of first fault }
{
    match fault {
        ReplayFault::Premise(place) => Some(ReplayEnd::PremiseFails(first + place)),
        ReplayFault::Differs(place) => Some(ReplayEnd::Differs(first + place)),
        ReplayFault::NotARun(place) => Some(ReplayEnd::NotARun(first + place)),
        ReplayFault::Memory => None,
    }
}

/// Replays the entries after those of the base, with these pools and these quotas. The first of them stands at the place
/// `first`.
fn replay_from(
    alloc: Global,
    base: &Core,
    first: u64,
    entries: &[Entry],
    namespace: &Text,
    pools: &[Text],
    quotas: &[Text],
) -> Result<ReplayLines, AllocError>
    requires { first + length entries.now < 2 ^ 64 }
    ensures { IfOk result (λ o. ReplaysTo namespace.now pools.now quotas.now
        base.now first entries.now (string_bytes o.lines) o.ending) }
{
    let (end, ending) = match replay_alone(alloc, base, entries, namespace, pools, quotas) {
        Ok(replies) => {
            drop(replies);
            (entries.len(), ReplayEnd::Same)
        }
        Err(fault) => match ending_of(first, fault) {
            Some(ending) => (place_of(fault) as usize, ending),
            None => return Err(AllocError),
        },
    };
    let lines = own_lines(alloc, first, &entries[..end], namespace, pools, quotas)?;
    Ok(ReplayLines { lines, ending })
}

/// Replays the entries after those of the base, with the pools and the quotas that are named, or else with those that the
/// namespace has in the base.
fn replay_behind(
    alloc: Global,
    base: &Core,
    first: u64,
    entries: &[Entry],
    replay: &Replay,
) -> Result<ReplayLines, AllocError>
    requires { first + length entries.now < 2 ^ 64 }
    ensures { IfOk result (λ o. ReplaysTo replay.now.namespace
        (pools_for replay.now base.now) (quotas_for replay.now base.now)
        base.now first entries.now (string_bytes o.lines) o.ending) }
{
    let namespace = &replay.namespace;
    let pools = replay.pools.as_slice();
    let quotas = replay.quotas.as_slice();
    if !pools.is_empty() || !quotas.is_empty() {
        return replay_from(alloc, base, first, entries, namespace, pools, quotas);
    }
    let claimed = claimed_in(alloc, base, namespace)?;
    let pools = claimed.pools.as_slice();
    let quotas = claimed.quotas.as_slice();
    replay_from(alloc, base, first, entries, namespace, pools, quotas)
}

/// Reads the log and replays it. Want of memory is the only error.
fn outcome_of(alloc: Global, bytes: &[u8], replay: &Replay) -> Result<ReplayLines, AllocError>
    ensures { IfOk result (λ o. ComesTo bytes.now replay.now (string_bytes o.lines) o.ending) }
{
    let lines = String::new(alloc);
    let log = match log_read(alloc, bytes) {
        Ok(log) => log,
        Err(LogFault::Line(line)) => {
            let ending = ReplayEnd::BadLine(line);
            return Ok(ReplayLines { lines, ending });
        }
        Err(LogFault::Memory) => return Err(AllocError),
    };
    let entries = log.entries.as_slice();
    let first = replay.from.min(entries.len() as u64);
    let (front, rest) = entries.split_at(first as usize);
    match base_of(alloc, &log.secret, front) {
        Ok(base) => replay_behind(alloc, &base, first, rest, replay),
        Err(ReplayFault::NotARun(place)) => {
            let ending = ReplayEnd::NotARun(place);
            Ok(ReplayLines { lines, ending })
        }
        Err(_) => Err(AllocError),
    }
}

/// A text, and the exit status that goes with it.
#[derive(Drop)]
pub struct Printout {
    pub text: String,
    pub status: u8,
}

/// The text that is printed for this replay of a log's bytes. Want of memory is the only error.
pub fn printout_of(alloc: Global, bytes: &[u8], replay: &Replay) -> Result<Printout, AllocError>
    ensures printout { IfOk result (λ printout.
        IsPrintout bytes.now replay.now (string_bytes printout.text) printout.status) }
    ensures status { IfOk result (λ printout. printout.status < 3) }
{
    let ReplayLines {
        lines: mut text,
        ending,
    } = outcome_of(alloc, bytes, replay)?;
    push_ending(&mut text, ending)?;
    Ok(Printout {
        text,
        status: ending.status(),
    })
}
