//! The three indexes together, and whether they are known to be right.

ghost use Rattle.std.specs.Prelude.{◌≡◌, ◌&&◌, IfOk, false, option_copied, option_map, true};
ghost use Rattle.ns_blocked.specs.Blocked.{keys_of};
ghost use Rattle.ns_change.specs.Settled.{settled_world};
ghost use Rattle.ns_queues.specs.Turns.{AreRight, BringsComing, IsNew, IsRight, stays_known};
ghost use Rattle.ns_types.specs.State.Rows.{World};
ghost use Rattle.ns_types.specs.Working.Looks.{row_of, served_ready};
ghost use Rattle.ns_tables.specs.World.{world_of};

use crate::blocked;
use crate::busy::BusyWorkers;
use crate::ready::{Arrivals, ByPriority};
use ns_blocked::{BlockedEvaluation, BlockedList};
use ns_change::Settled;
use ns_tables::Tables;
use ns_types::key::EvalKey;
use ns_types::rows::Rows;
use ns_types::text::Text;
use std::alloc::{AllocError, Global};

/// The namespaces for which workers are busy, the ready evaluations by priority, and the blocked evaluations by what they wait
/// for. While these are not known to be right, callers search the tables instead, and make a list of the blocked ones from them.
pub struct Turns {
    alloc: Global,
    is_known: bool,
    busy: BusyWorkers,
    ready: ByPriority,
    blocked: BlockedList,
}

impl Drop for Turns {
    fn drop(self) {
        let Turns {
            alloc: _,
            is_known: _,
            busy: _busy,
            ready: _ready,
            blocked: _blocked,
        } = self;
    }
}

/// What a step adds to the indexes: evaluations that become ready, and evaluations that become blocked.
#[derive(Drop)]
pub struct Coming {
    ready: Arrivals,
    blocked: Rows<BlockedEvaluation>,
}

impl Turns {
    fn all_idle(alloc: Global, is_known: bool) -> Turns
        ensures new { IsNew result }
        ensures known { result.is_known ≡ is_known }
    {
        Turns {
            alloc,
            is_known,
            busy: BusyWorkers::new(alloc),
            ready: ByPriority::new(alloc),
            blocked: BlockedList::new(alloc),
        }
    }

    /// The indexes of a server that has just started: no worker is busy, and no evaluation is ready or blocked. It takes no
    /// memory.
    pub fn new(alloc: Global) -> Turns
        ensures new { IsNew result }
        ensures known { result.is_known ≡ true }
    {
        Turns::all_idle(alloc, true)
    }

    /// Indexes that are not known to be right. It takes no memory.
    pub fn unknown(alloc: Global) -> Turns
        ensures { result.is_known ≡ false }
    {
        Turns::all_idle(alloc, false)
    }

    pub fn is_known(&self) -> bool
        ensures { result ≡ self.now.is_known }
    {
        self.is_known
    }

    /// The first namespace for which the worker is busy, if there is one.
    pub fn namespace_of(&self, number: u64) -> Option<&Text>
        ensures { (w : World) → AreRight w self.now →
            option_copied result ≡ option_map (λ r. r.0) (row_of w number) }
    {
        self.busy.namespace_of(number)
    }

    /// The next evaluation to dequeue, if one is ready.
    pub fn served(&self) -> Option<&EvalKey>
        ensures { (w : World) → AreRight w self.now → option_copied result ≡ served_ready w }
    {
        self.ready.first()
    }

    /// The blocked evaluations by what they wait for.
    pub fn blocked(&self) -> &BlockedList
        ensures { result.now ≡ self.now.blocked }
    {
        &self.blocked
    }

    /// Makes room for what a step adds to the indexes, and returns it. Want of memory is the only error.
    pub fn reserve(&mut self, tables: &Tables, settled: &Settled) -> Result<Coming, AllocError>
        ensures same { (w : World) → IsRight w self.old → IsRight w self.new }
        ensures known { self.new.is_known ≡ self.old.is_known }
        ensures ok { IfOk result (λ coming.
            BringsComing (world_of tables.now) settled.now coming self.new) }
    {
        let alloc = self.alloc;
        self.busy.reserve(alloc, settled)?;
        let ready = self.ready.reserve(alloc, tables, settled)?;
        let blocked = blocked::reserve(&mut self.blocked, tables, settled)?;
        Ok(Coming { ready, blocked })
    }

    /// Follows a step, before the tables do. If an index is not right afterwards, none is known to be right any more: a ready
    /// evaluation gets another priority, or a blocked one that stays waits otherwise, or what becomes blocked has no row or is
    /// in the list already. It takes no memory.
    pub fn follow(&mut self, tables: &Tables, settled: &Settled, coming: Coming)
        requires { BringsComing (world_of tables.now) settled.now coming self.old }
        ensures right { IsRight (world_of tables.now) self.old →
            IsRight (settled_world (world_of tables.now) settled.now) self.new }
        ensures known { self.new.is_known ≡ (self.old.is_known
            && stays_known (world_of tables.now) settled.now (keys_of self.old.blocked)) }
    {
        let Coming { ready, blocked } = coming;
        self.busy.follow(tables, settled);
        let is_ready = self.ready.follow(tables, settled, ready);
        let is_blocked = blocked::follow(&mut self.blocked, tables, settled, blocked);
        if !is_ready || !is_blocked {
            self.is_known = false;
        }
    }
}
