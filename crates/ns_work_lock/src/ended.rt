//! A server with its log, and the book that counts the entries.

ghost use Rattle.std.specs.Prelude.{◌≡◌, ◌+◌, [], IfErr, IfNone, IfOk, IfSome, OnErr, length};
ghost use Rattle.ns_types.specs.declared.refusal.Refusal.TheVariants as Refusal;
ghost use Rattle.ns_steps.specs.Served.{IsServed};
ghost use Rattle.ns_work_log.specs.Logs.{next_place};
ghost use Rattle.ns_work_log.specs.Rotation.{IsRotated};
ghost use Rattle.ns_work_lock.specs.Receiving.{LogsAsked, answered, received};

use crate::retention::Retention;
use crate::seat::{Seat, prepare_shared, receive_given};
use ns_log::receipts::Past;
use ns_log::segments::Segment;
use ns_types::refusal::Refusal;
use ns_types::reply::Response;
use ns_types::step::Step;
use ns_work_log::Held;
use std::alloc::Global;
use std::marker::PhantomData;
use std::sync::ledger::{Blank, Book, Ledger, Share};

/// The parts of the ledger: one for each seat.
pub const PARTS: u64 = u64::MAX;

/// A server with its log, the book that counts the entries, including those that were given out, and the parts of the ledger
/// that no seat has.
#[derive(Drop)]
pub struct Ended<L: Ledger> {
    pub(crate) held: Held,
    /// How many seats were made.
    pub seats: u64,
    pub(crate) book: Book<L>,
    pub(crate) rest: Share<L>,
    ghost counted: { book.total ≡ next_place held },
    ghost parted: { rest.parts + seats ≡ 18446744073709551615 },
    ghost unused: { rest.amount ≡ 0 },
}

impl<L: Ledger> Ended<L> {
    /// A server with its log, and no seats yet.
    pub(crate) fn new(held: Held, blank: Blank) -> Ended<L>
        requires empty { held.log ≡ [] }
        requires first { held.start ≡ 0 }
        requires name { blank.name ≡ L.name }
        requires parts { (blank.parts ≡ L.parts) × (L.parts ≡ 18446744073709551615) }
        ensures held { result.held ≡ held }
        ensures seats { result.seats ≡ 0 }
    {
        let (book, rest) = blank.open::<L>();
        Ended {
            held,
            seats: 0,
            book,
            rest,
        }
    }

    /// A seat with no receipts, unless no part is left for it.
    pub(crate) fn seat<M: Retention>(&mut self, alloc: Global) -> Option<Seat<L, M>>
        ensures seat { IfSome result (λ seat. seat ≡ []) }
        ensures counted { IfSome result (λ _. self.new.seats ≡ self.old.seats + 1) }
        ensures none { IfNone result (self.old.seats ≡ 18446744073709551615) }
        ensures held { self.new.held ≡ self.old.held }
    {
        if self.seats == PARTS {
            return None;
        }
        let Ended { seats, rest, .. } = self;
        *seats += 1;
        let share = rest.split_off(1, 0);
        Some(Seat {
            past: Past::new(),
            receipts: Vec::new(alloc),
            share,
            retention: PhantomData,
        })
    }

    /// Makes the step that a request asks for, and adds its receipt.
    #[tactic(none)]
    pub(crate) fn take<M: Retention>(
        &mut self,
        alloc: Global,
        seat: &mut Seat<L, M>,
        step: Step,
    ) -> Result<Response, Refusal>
        requires { IsServed step }
        ensures logged { LogsAsked step self.old.held result self.new.held }
        ensures received { let place = next_place self.old.held in
            seat.new ≡ received place step (answered result) seat.old }
    {
        let Ended { held, book, .. } = self;
        let Seat {
            receipts,
            share,
            ..
        } = seat;
        let (entry, receipt) = match prepare_shared(alloc, held, receipts, step) {
            Ok(owned) => owned,
            Err(refusal) => return Err(refusal),
        };
        let place = held.next_place();
        let given = held.take_rendered(alloc, entry);
        receive_given(receipts, share, book, place, receipt, given)
    }

    /// How many entries the log has.
    pub(crate) fn entries(&self) -> u64
        ensures { result ≡ length self.now.held.log }
    {
        self.held.log().len() as u64
    }

    /// Gives out the log, and begins the next one in the present state. It is no step, and the book stays as it is. Want of
    /// memory is the only error.
    pub(crate) fn rotate(&mut self, alloc: Global) -> Result<Segment, Refusal>
        ensures rotated { IfOk result (λ segment. IsRotated self.old.held segment self.new.held) }
        ensures same { OnErr result (self.new.held ≡ self.old.held) }
        ensures memory { IfErr result (λ refusal. refusal ≡ Refusal.Memory) }
        ensures seats { self.new.seats ≡ self.old.seats }
    {
        self.held.rotate(alloc)
    }
}
