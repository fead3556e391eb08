//! Decides whether segments, the receipts of all seats and the log agree.

ghost use Rattle.std.specs.Prelude.{◌≡◌, ◌+◌, ◌≤◌, ℕ, IfOk, IsErrOf, IsOkUnless, OnOk};
ghost use Rattle.std.specs.Prelude.{length, map, sum_by, vec_items, vec_len};
ghost use Rattle.ns_types.specs.State.Rows.{State};
ghost use Rattle.ns_json.specs.Replies.{IsKept};
ghost use Rattle.ns_log.specs.declared.receipts.fault.SettleFault.TheVariants as SettleFault;
ghost use Rattle.ns_log.specs.Settling.{Settles};
ghost use Rattle.ns_log.specs.Segments.{Follows, joined};
ghost use Rattle.ns_work_log.specs.Logs.{next_place};
ghost use Rattle.ns_work_lock.specs.Ending.{held_of};
ghost use Rattle.ns_work_lock.specs.Settling.{IsMismatch, IsOf, IsRun, SettlesNot, present};

use crate::ended::Ended;
use crate::retention::Retains;
use crate::seat::Seat;
use ns_core::Core;
use ns_log::Entry;
use ns_log::receipts::{Receipt, SettleFault, settle};
use ns_log::segments::{Segment, follow, join};
use ns_replay::rerun::{RerunFault, rerun_from};
use ns_work_log::Held;
use std::alloc::{AllocError, Global};
use std::marker::Model;
use std::snapshot::Snapshot;
use std::sync::ledger::{Ledger, Share};

/// A whole log, with the entries that were given out in segments, with which the receipts of seats have settled. Only
/// `Ended::settle` makes one. Contracts see it as a settlement.
pub struct SettledLog {
    /// The server where the log begins.
    base: Snapshot<Core>,
    log: Vec<Entry>,
    /// How many of its entries were given out.
    given: u64,
    /// The server to which the log leads.
    core: Core,
}

impl Drop for SettledLog {
    fn drop(self) {
        let SettledLog {
            base: _base,
            log: _log,
            given: _,
            core: _core,
        } = self;
    }
}

impl Model for SettledLog {
    ghost use Rattle.std.specs.Coded.{codes};
    ghost use Rattle.std.specs.FinMap.{code};
    ghost use Rattle.std.specs.Prelude.{◌≤◌, length};
    ghost use Rattle.ns_json.specs.Replies.{IsKept};
    ghost use Rattle.ns_work_lock.specs.Settling.{IsSettled, Settlement};

    ghost Value = { Settlement };

    ghost coded = { Prim.hlevel (codes, code) };

    ghost view = { λ s. record {
      base = s.base.value;
      log = s.log.items;
      given = s.given;
      state = s.core;
    } };

    ghost invariant = { λ s. IsKept s.base.value s.log.items s.core
        × IsSettled s.log.items × (s.given ≤ length s.log.items) };
}

impl SettledLog {
    /// The server to which the log leads, for reading.
    pub fn core(&self) -> &Core
        ensures { result.now ≡ self.now.state }
    {
        &self.core
    }

    /// All entries, in the order of their steps.
    pub fn log(&self) -> &[Entry]
        ensures entries { result.now ≡ self.now.log }
        ensures run { IsRun self.now }
    {
        self.log.as_slice()
    }

    /// How many of the entries were given out in segments.
    pub fn given(&self) -> u64
        ensures { result ≡ self.now.given }
    {
        self.given
    }

    /// The entries that were not given out.
    pub fn present(&self) -> &[Entry]
        ensures { result.now ≡ present self.now }
    {
        &self.log[self.given as usize..]
    }
}

/// Merges the shares of the seats into this one, and returns their receipts, a list for each seat. Want of memory is the only
/// error.
fn take_in<L: Ledger>(
    alloc: Global,
    rest: &mut Share<L>,
    seats: Vec<Seat<L, Retains>>,
) -> Result<Vec<Vec<Receipt>>, AllocError>
    ensures receipts { IfOk result (λ lists. map vec_items lists.items ≡ seats.items) }
    ensures parts { OnOk result (rest.new.parts ≡ rest.old.parts + vec_len seats) }
    ensures amount { let receipts = sum_by (λ receipts. length receipts) seats.items in
        OnOk result (rest.new.amount ≡ rest.old.amount + receipts) }
{
    let mut lists = Vec::new(alloc);
    for seat in seats {
        let Seat {
            past: _past,
            receipts,
            share,
            retention: _,
        } = seat;
        rest.merge(share);
        lists.push(receipts)?;
    }
    Ok(lists)
}

/// Takes in the shares of the seats, and returns the server with its log, and their receipts, a list for each seat. Want of
/// memory is the only error.
fn hand_in<L: Ledger>(
    alloc: Global,
    ended: Ended<L>,
    seats: Vec<Seat<L, Retains>>,
) -> Result<(Held, Vec<Vec<Receipt>>), AllocError>
    requires { L.parts ≡ 18446744073709551615 }
    ensures held { IfOk result (λ given. given.0 ≡ ended.held) }
    ensures receipts { IfOk result (λ given. map vec_items given.1.items ≡ seats.items) }
    ensures counts { OnOk result (vec_len seats ≡ ended.seats
        → next_place ended.held ≡ sum_by (λ receipts. length receipts) seats.items) }
{
    let Ended {
        held,
        mut book,
        mut rest,
        ..
    } = ended;
    let Ok(lists) = take_in(alloc, &mut rest, seats) else {
        drop(held);
        return Err(AllocError);
    };
    book.audit(&mut rest);
    Ok((held, lists))
}

/// Settles the log: the receipts of the seats agree with it, and it is a run from the first state. The error is the first
/// mismatch, or want of memory.
fn settle_run(
    alloc: Global,
    first: &Core,
    given: u64,
    log: Vec<Entry>,
    lists: Vec<Vec<Receipt>>,
) -> Result<SettledLog, SettleFault>
    requires given { given ≤ length log.items }
    ensures base { IfOk result (λ settled. settled.base ≡ first.now) }
    ensures log { IfOk result (λ settled. settled.log ≡ log.items) }
    ensures given { IfOk result (λ settled. settled.given ≡ given) }
    ensures run { IfOk result (λ settled. IsRun settled) }
    ensures receipts { OnOk result (Settles log.items (map vec_items lists.items)) }
    ensures settled { (last : State) → Settles log.items (map vec_items lists.items)
        → IsKept first.now log.items last → IsOkUnless result SettleFault.Memory }
    ensures mismatch { (seat place : ℕ) → IsErrOf result (SettleFault.Mismatch seat place)
        → SettlesNot first.now log.items (map vec_items lists.items) seat place }
{
    let seat = lists.len() as u64;
    if let Err(fault) = settle(alloc, log.as_slice(), lists.as_slice()) {
        return Err(fault);
    }
    match rerun_from(alloc, first, log.as_slice()) {
        Ok(core) => Ok(SettledLog {
            base: Snapshot::of(first),
            log,
            given,
            core,
        }),
        Err(RerunFault::NotARun(place)) => Err(SettleFault::Mismatch { seat, place }),
        Err(RerunFault::Memory) => Err(SettleFault::Memory),
    }
}

impl<L: Ledger> Ended<L> {
    /// The server with its log, for reading.
    pub fn held(&self) -> &Held
        ensures { result.now ≡ held_of self.now }
    {
        &self.held
    }

    /// Returns the whole log, if the segments, the receipts of the seats and the log agree. It checks in this order:
    ///
    /// 1. whether the segments follow each other from the first entry on, and the log follows the last;
    /// 2. whether the receipts settle with the segments and the log, joined: within each seat the places rise, all receipts
    ///    together name each place once, and each receipt is the entry at its place;
    /// 3. whether the joined log is a run from the first state, with its replies.
    ///
    /// The error is the first fault, as a mismatch: a fault of 1 or 3 has the number of seats and the place. Want of memory is
    /// the only other error. If all seats that were made are handed in, they have as many receipts as there were entries.
    #[tactic(none)]
    pub fn settle(
        self,
        alloc: Global,
        seats: Vec<Seat<L, Retains>>,
        first: &Core,
        segments: Vec<Segment>,
    ) -> Result<SettledLog, SettleFault>
        requires { L.parts ≡ 18446744073709551615 }
        ensures log { let held = held_of self in IfOk result
            (λ settled. IsOf first.now segments.items held.start held.log settled) }
        ensures follow { OnOk result (Follows 0 segments.items (held_of self).start) }
        ensures receipts { OnOk result
            (Settles (joined segments.items (held_of self).log) seats.items) }
        ensures run { IfOk result (λ settled. IsRun settled) }
        ensures settled { (last : State) → Follows 0 segments.items (held_of self).start
            → Settles (joined segments.items (held_of self).log) seats.items
            → IsKept first.now (joined segments.items (held_of self).log) last
            → IsOkUnless result SettleFault.Memory }
        ensures mismatch { (seat place : ℕ) → IsErrOf result (SettleFault.Mismatch seat place)
            → let held = held_of self in
            IsMismatch first.now segments.items held.start held.log seats.items seat place }
        ensures counts { (IsErrOf result SettleFault.Memory → ⊥) → vec_len seats ≡ self.seats
            → next_place (held_of self) ≡ sum_by (λ receipts. length receipts) seats.items }
    {
        let Ok((held, lists)) = hand_in(alloc, self, seats) else {
            drop(segments);
            return Err(SettleFault::Memory);
        };
        let given = held.start();
        if let Err(place) = follow(segments.as_slice(), given) {
            let seat = lists.len() as u64;
            drop(segments);
            drop(held);
            return Err(SettleFault::Mismatch { seat, place });
        }
        let Ok(log) = join(alloc, segments, held.into_log()) else {
            return Err(SettleFault::Memory);
        };
        settle_run(alloc, first, given, log, lists)
    }
}
