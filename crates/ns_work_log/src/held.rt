//! A server with the log of its steps.

ghost use Rattle.std.specs.Prelude.{◌≡◌, ◌↔◌, [], IsFalse, IsTrue};
ghost use Rattle.ns_json.specs.Replies.{IsKept};
ghost use Rattle.ns_work_log.specs.Logs.{HasPlace, IsFull, next_place};

use ns_core::Core;
use ns_log::Entry;
use std::alloc::Global;
use std::marker::Model;
use std::snapshot::Snapshot;

/// A server, with an entry for each step that it made since its log began. Contracts see it as a history, whose log is a run
/// from its first state to the present one.
pub struct Held {
    /// The server where the log begins.
    pub(crate) base: Snapshot<Core>,
    pub(crate) core: Core,
    /// How many entries were given out before the log began.
    pub(crate) start: u64,
    pub(crate) log: Vec<Entry>,
    /// How many entries the log has at most: there is a place for each.
    pub(crate) limit: u64,
}

impl Drop for Held {
    fn drop(self) {
        let Held {
            base: _base,
            core: _core,
            start: _,
            log: _log,
            limit: _,
        } = self;
    }
}

impl Model for Held {
    ghost use Rattle.std.specs.Coded.{codes};
    ghost use Rattle.std.specs.FinMap.{code};
    ghost use Rattle.std.specs.Prelude.{◌+◌, ◌^◌, ◌<◌, ◌≤◌, length};
    ghost use Rattle.ns_json.specs.Replies.{IsKept};
    ghost use Rattle.ns_work_log.specs.Logs.{History};

    ghost Value = { History };

    ghost coded = { Prim.hlevel (codes, code) };

    ghost view = { λ h. record {
      base = h.base.value;
      start = h.start;
      log = h.log.items;
      state = h.core;
      limit = h.limit;
    } };

    ghost invariant = { λ h. (IsKept h.base.value h.log.items h.core
        × (length h.log.items ≤ h.limit)) × (h.start + h.limit < 2 ^ 64) };
}

impl Held {
    /// Begins the log of a server, which has at most `limit` entries.
    pub fn new(alloc: Global, core: Core, limit: u64) -> Held
        ensures { result ≡ record {
          base = core;
          start = 0;
          log = [];
          state = core;
          limit = limit;
        } }
    {
        Held {
            base: Snapshot::of(&core),
            core,
            start: 0,
            log: Vec::new(alloc),
            limit,
        }
    }

    /// How many entries were given out before the log began.
    pub fn start(&self) -> u64
        ensures { result ≡ self.now.start }
    {
        self.start
    }

    /// The place of the next entry.
    pub fn next_place(&self) -> u64
        ensures { result ≡ next_place self.now }
    {
        self.start + self.log.len() as u64
    }

    /// The server, for reading.
    pub fn core(&self) -> &Core
        ensures { result.now ≡ self.now.state }
    {
        &self.core
    }

    /// The entries, in the order of their steps.
    pub fn log(&self) -> &[Entry]
        ensures entries { result.now ≡ self.now.log }
        ensures run { IsKept self.now.base self.now.log self.now.state }
    {
        self.log.as_slice()
    }

    /// Returns the log, and drops the rest.
    pub fn into_log(self) -> Vec<Entry>
        ensures { result.items ≡ self.log }
    {
        let Held {
            base: _base,
            core: _core,
            start: _,
            log,
            limit: _,
        } = self;
        log
    }

    /// Whether the log takes no more entries.
    pub fn is_full(&self) -> bool
        ensures full { IsTrue result ↔ IsFull self.now }
        ensures place { IsFalse result → HasPlace self.now }
    {
        self.log.len() as u64 == self.limit
    }
}
