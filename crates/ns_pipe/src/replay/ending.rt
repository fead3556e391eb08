//! How a replay ended.

ghost use Rattle.std.specs.Prelude.{◌≡◌, ◌++◌, OnOk, string_bytes};
ghost use Rattle.ns_pipe.specs.Text.{last_line, status_of};

use std::alloc::AllocError;

/// How the replay of a log ended. Lines count from 1, and places count entries from 0.
#[derive(Clone, Copy, PartialEq, Eq)]
pub enum ReplayEnd {
    /// A server that holds the namespace alone answers its own steps as the log has them.
    Same,
    /// This line is no line of a log.
    BadLine(u64),
    /// The entry is no step of the server, or the server's answer is not the logged one.
    NotARun(u64),
    /// The namespace does not have its pools and its quotas to itself, or an own put is refused because its table is full.
    PremiseFails(u64),
    /// A server that holds the namespace alone answers this own step differently.
    Differs(u64),
}

impl ReplayEnd {
    /// The exit status.
    pub fn status(self) -> u8
        ensures { result ≡ status_of self }
    {
        match self {
            ReplayEnd::Same => 0,
            ReplayEnd::NotARun(_) | ReplayEnd::PremiseFails(_) | ReplayEnd::Differs(_) => 1,
            ReplayEnd::BadLine(_) => 2,
        }
    }
}

/// Adds the line of the ending. Want of memory is the only error.
pub fn push_ending(text: &mut String, ending: ReplayEnd) -> Result<(), AllocError>
    ensures { OnOk result (string_bytes text.new ≡ string_bytes text.old ++ last_line ending) }
{
    match ending {
        ReplayEnd::Same => text.push_str("same\n"),
        ReplayEnd::BadLine(line) => writeln!(text, "bad log line {line}"),
        ReplayEnd::NotARun(place) => writeln!(text, "not a run at {place}"),
        ReplayEnd::PremiseFails(place) => writeln!(text, "premise fails at {place}"),
        ReplayEnd::Differs(place) => writeln!(text, "differs at {place}"),
    }
}
