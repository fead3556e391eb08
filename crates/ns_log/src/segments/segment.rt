//! A log that was given out.

ghost use Rattle.std.specs.Prelude.{◌≡◌, ◌+◌, ◌^◌, ◌<◌, length};

use crate::Entry;
use std::marker::Model;

/// A log that was given out: its entries, and how many were given out before it.
#[derive(Drop)]
pub struct Segment {
    start: u64,
    log: Vec<Entry>,
}

impl Model for Segment {
    ghost use Rattle.std.specs.Prelude.{◌+◌, ◌^◌, ◌<◌, length};
    ghost use Rattle.ns_log.specs.Segments.{Given};

    ghost Value = { Given };

    ghost view = { λ s. record {
      start = s.start;
      log = s.log.items;
    } };

    ghost invariant = { λ s. s.start + length s.log.items < 2 ^ 64 };
}

impl Segment {
    pub fn new(start: u64, log: Vec<Entry>) -> Segment
        requires { start + length log.items < 2 ^ 64 }
        ensures { result ≡ record { start = start; log = log.items } }
    {
        Segment { start, log }
    }

    /// How many entries were given out before it.
    pub fn start(&self) -> u64
        ensures { result ≡ self.now.start }
    {
        self.start
    }

    /// Its entries, in the order of their steps.
    pub fn entries(&self) -> &[Entry]
        ensures { result.now ≡ self.now.log }
    {
        self.log.as_slice()
    }

    /// How many entries were given out up to the segment's end.
    pub fn end(&self) -> u64
        ensures { result ≡ self.now.start + length self.now.log }
    {
        self.start + self.log.len() as u64
    }

    /// Its entries alone.
    pub fn into_log(self) -> Vec<Entry>
        ensures { result.items ≡ self.log }
    {
        let Segment { log, .. } = self;
        log
    }
}
