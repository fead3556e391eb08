//! What the lock of a shared server guards.

ghost use Rattle.std.specs.Option.{option_map_or};
ghost use Rattle.std.specs.Prelude.{◌≡◌, false, is_some, length, nat_lt, true};
ghost use Rattle.ns_types.specs.Working.Looks.{served_ready};
ghost use Rattle.ns_work_lock.specs.declared.changes.Stage.TheVariants as Stage;
ghost use Rattle.ns_work_lock.specs.Moments.{bytes_after, changes_after, is_any, is_due, is_left, notified, passes};
ghost use Rattle.ns_work_lock.specs.Moments.{stage_entered, stage_left, workers_entered, workers_left};

use crate::changes::{Moment, Notified, Role, Stage, Wakes};
use crate::ended::Ended;
use std::sync::ledger::Ledger;

/// A server with its log, and the counts of its changes and of its workers.
#[derive(Drop)]
pub(crate) struct Desk<L: Ledger> {
    pub(crate) kept: Ended<L>,
    /// How many bytes of text the entries of the log have, as far as they were counted.
    pub(crate) bytes: u64,
    /// How many changes there were that others wait for. It wraps.
    pub(crate) changes: u64,
    pub(crate) is_closed: bool,
    /// How many workers entered and have not left.
    pub(crate) workers: u64,
    pub(crate) applier: Stage,
}

impl<L: Ledger> Desk<L> {
    /// A desk that no thread has entered yet.
    pub(crate) fn new(kept: Ended<L>) -> Desk<L>
        ensures { result ≡ record {
          kept = kept;
          bytes = 0;
          changes = 0;
          is_closed = false;
          workers = 0;
          applier = Stage.Awaited;
        } }
    {
        Desk {
            kept,
            bytes: 0,
            changes: 0,
            is_closed: false,
            workers: 0,
            applier: Stage::Awaited,
        }
    }

    /// The present moment, as waiting threads see it.
    pub(crate) fn moment(&self) -> Moment
        ensures { result ≡ record {
          changes = self.now.changes;
          is_closed = self.now.is_closed;
          workers = self.now.workers;
          applier_left = is_left self.now.applier;
        } }
    {
        Moment {
            changes: self.changes,
            is_closed: self.is_closed,
            workers: self.workers,
            applier_left: self.applier.is_left(),
        }
    }

    fn has_served(&self) -> bool
        ensures { result ≡ is_some (served_ready self.now.kept.held.state.world) }
    {
        self.kept.held.core().has_served()
    }

    /// Whether the log has exactly as many entries as it is rotated at.
    fn is_due(&self, rotates_at: Option<u64>) -> bool
        ensures { result ≡ is_due rotates_at (length self.now.kept.held.log) }
    {
        match rotates_at {
            Some(entries) => self.kept.entries() == entries,
            None => false,
        }
    }

    /// The threads that are notified by a call that wakes these.
    fn notified(&self, wakes: Wakes, rotates_at: Option<u64>) -> Notified
        ensures { result ≡ notified wakes rotates_at self.now.is_closed self.now.kept.held }
    {
        Notified {
            idle: wakes.offers_work() && self.has_served(),
            planners: wakes.is_applied(),
            applier: wakes.is_planned() || self.is_due(rotates_at),
            all: wakes.is_of_all(self.is_closed),
        }
    }

    /// Counts a change, if any thread is notified. Returns which threads are.
    pub(crate) fn stir(&mut self, wakes: Wakes, rotates_at: Option<u64>) -> Notified
        ensures notified { let held = self.old.kept.held in
            result ≡ notified wakes rotates_at self.old.is_closed held }
        ensures desk { let held = self.old.kept.held in
            let any = is_any (notified wakes rotates_at self.old.is_closed held) in
            self.new ≡ record self.old { changes = changes_after any self.old.changes } }
    {
        let notified = self.notified(wakes, rotates_at);
        if notified.is_any() {
            self.changes = self.changes.wrapping_add(1);
        }
        notified
    }

    /// Whether the entries have more bytes of text than the log is rotated past.
    pub(crate) fn is_heavy(&self, rotates_past: Option<u64>) -> bool
        ensures { result ≡ option_map_or (λ limit. nat_lt limit self.now.bytes) rotates_past false }
    {
        match rotates_past {
            Some(limit) => self.bytes > limit,
            None => false,
        }
    }

    /// Counts `more` bytes of text more, and a change if they pass the limit now. Returns whether they do.
    pub(crate) fn weigh(&mut self, more: u64, limit: u64) -> bool
        ensures passed { let bytes = bytes_after self.old.bytes more in
            result ≡ passes limit self.old.bytes bytes }
        ensures desk { let bytes = bytes_after self.old.bytes more in
            let passed = passes limit self.old.bytes bytes in
            self.new ≡ record self.old {
              bytes = bytes;
              changes = changes_after passed self.old.changes;
            } }
    {
        let before = self.bytes;
        self.bytes = before.saturating_add(more);
        if before > limit || self.bytes <= limit {
            return false;
        }
        self.changes = self.changes.wrapping_add(1);
        true
    }

    /// Counts a worker that begins, or notes that the applier has begun.
    pub(crate) fn enter(&mut self, role: Role)
        ensures { self.new ≡ record self.old {
          workers = workers_entered role self.old.workers;
          applier = stage_entered role self.old.applier;
        } }
    {
        match role {
            Role::Worker => self.workers = self.workers.wrapping_add(1),
            Role::Applier => self.applier = Stage::Running,
        }
    }

    /// Takes a worker out of the count, or notes that the applier has left.
    pub(crate) fn leave(&mut self, role: Role)
        ensures { self.new ≡ record self.old {
          workers = workers_left role self.old.workers;
          applier = stage_left role self.old.applier;
        } }
    {
        match role {
            Role::Worker => self.workers = self.workers.wrapping_sub(1),
            Role::Applier => self.applier = Stage::Left,
        }
    }

    pub(crate) fn close(&mut self)
        ensures { self.new ≡ record self.old { is_closed = true } }
    {
        self.is_closed = true;
    }
}
