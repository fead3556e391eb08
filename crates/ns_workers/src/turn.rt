//! One turn of a worker: its steps until it has to wait for others, or a wait.

ghost use Rattle.std.specs.Prelude.{◌≡◌, ◌≤◌, IfErr, IsErrOf, IsFalse, IsOk, IsTrue};
ghost use Rattle.ns_workers.specs.declared.halt.Halt.TheVariants as Halt;
ghost use Rattle.ns_workers.specs.Growing.{Grows, IsOfWorker};

use crate::gate::{Gate, Point};
use crate::halt::Halt;
use ns_driver::Kept;
use ns_types::key::EvalKey;
use ns_types::planned::Planned;
use ns_types::text::Text;
use ns_types::worker::Phase;
use ns_work_lock::{BusyWorker, Moment, Retention, Seat, Shared, WORKERS_END, WaitsFor};
use std::alloc::Global;
use std::sync::Wait;
use std::sync::ledger::Ledger;

/// A worker's number, and what it works with.
#[derive(Drop)]
pub struct Post<'a, L: Ledger, G: Gate, R: Wait> {
    pub rt: &'a R,
    pub alloc: Global,
    pub shared: &'a Shared<L>,
    pub gate: &'a G,
    pub number: u64,
}

impl<'a, L: Ledger, G: Gate, R: Wait> Post<'a, L, G, R> {
    /// Passes the gate after this step. If the gate stops the worker, the error is `Leaves`.
    fn pass(&self, point: Point) -> Result<(), Halt>
        ensures open { G.opens self.now.gate.now → IsOk result }
        ensures leaves { IfErr result (λ halt. halt ≡ Halt.Leaves) }
    {
        if self.gate.pass(self.number, point) {
            Ok(())
        } else {
            Err(Halt::Leaves)
        }
    }

    /// Dequeues the next evaluation and plans it, or waits for one until the server is closed.
    fn take<M: Retention>(
        &self,
        seat: &mut Seat<L, M>,
        kept: &mut Kept,
        seen: Moment,
        next: Option<&EvalKey>,
    ) -> Result<(), Halt>
        ensures grows { Grows (IsOfWorker self.now.number) seat.old seat.new }
        ensures closed { IsTrue seen.is_closed → IsErrOf result Halt.Ends }
        ensures past { 64 ≤ self.now.number → IsErrOf result Halt.Ends }
    {
        if seen.is_closed || self.number >= WORKERS_END {
            return Err(Halt::Ends);
        }
        let Some(key) = next else {
            self.shared.wait_past(self.rt, WaitsFor::Work, seen);
            return Ok(());
        };
        self.dequeue(seat, key)?;
        self.plan_anew(seat, kept, key.namespace())
    }

    /// Dequeues this evaluation.
    fn dequeue<M: Retention>(&self, seat: &mut Seat<L, M>, key: &EvalKey) -> Result<(), Halt>
        ensures { Grows (IsOfWorker self.now.number) seat.old seat.new }
    {
        let (namespace, evaluation) = (key.namespace(), key.number());
        let reply = self.shared.dequeue(
            self.rt,
            self.alloc,
            seat,
            self.number,
            namespace,
            evaluation,
        )?;
        drop(reply);
        self.pass(Point::Took)
    }

    /// Takes a snapshot of the worker's evaluation.
    fn look<M: Retention>(
        &self,
        seat: &mut Seat<L, M>,
        kept: &mut Kept,
        namespace: &Text,
    ) -> Result<(), Halt>
        ensures { Grows (IsOfWorker self.now.number) seat.old seat.new }
    {
        let seen = self
            .shared
            .snap(self.rt, self.alloc, seat, self.number, namespace)?;
        *kept = Kept::Seen(seen);
        self.pass(Point::Snapped)
    }

    /// The plan of the snapshot that was taken last. No lock is held while it is made.
    fn planned(&self, kept: &mut Kept) -> Result<Planned, Halt> {
        let planned = match kept {
            Kept::Nothing => return Err(Halt::Leaves),
            Kept::Seen(seen) => self.gate.plan(self.alloc, self.number, seen.share()?)?,
            Kept::Planned(planned) => return Ok(planned.share()?),
        };
        *kept = Kept::Planned(planned.share()?);
        Ok(planned)
    }

    /// Finishes the evaluation by the plan that was made last.
    fn finish<M: Retention>(
        &self,
        seat: &mut Seat<L, M>,
        kept: &mut Kept,
        namespace: &Text,
    ) -> Result<(), Halt>
        ensures { Grows (IsOfWorker self.now.number) seat.old seat.new }
    {
        let planned = self.planned(kept)?;
        let ended = self.shared.finish(self.rt, self.alloc, seat, self.number, namespace, &planned);
        drop(planned);
        drop(ended?);
        *kept = Kept::Nothing;
        self.pass(Point::Finished)
    }

    /// Hands in the plan, or finishes if the plan does nothing.
    fn place<M: Retention>(
        &self,
        seat: &mut Seat<L, M>,
        kept: &mut Kept,
        namespace: &Text,
    ) -> Result<(), Halt>
        ensures { Grows (IsOfWorker self.now.number) seat.old seat.new }
    {
        let planned = self.planned(kept)?;
        if planned.does_nothing() {
            drop(planned);
            return self.finish(seat, kept, namespace);
        }
        let reply = self
            .shared
            .submit(self.rt, self.alloc, seat, self.number, namespace, planned)?;
        drop(reply);
        self.pass(Point::Queued)
    }

    /// Takes a snapshot, and hands in its plan, or finishes if the plan does nothing.
    fn plan_anew<M: Retention>(
        &self,
        seat: &mut Seat<L, M>,
        kept: &mut Kept,
        namespace: &Text,
    ) -> Result<(), Halt>
        ensures { Grows (IsOfWorker self.now.number) seat.old seat.new }
    {
        self.look(seat, kept, namespace)?;
        self.place(seat, kept, namespace)
    }

    /// Waits for the plan to be applied, unless the applier has ended.
    fn await_applied(&self, seen: Moment) -> Result<(), Halt>
        ensures left { IsTrue seen.applier_left → IsErrOf result Halt.Ends }
        ensures awaits { IsFalse seen.applier_left → IsOk result }
    {
        if seen.applier_left {
            return Err(Halt::Ends);
        }
        self.shared.wait_past(self.rt, WaitsFor::Apply, seen);
        Ok(())
    }

    /// Makes the steps that the worker's phase allows, or waits.
    fn work<M: Retention>(
        &self,
        seat: &mut Seat<L, M>,
        kept: &mut Kept,
        busy: &BusyWorker,
        seen: Moment,
    ) -> Result<(), Halt>
        ensures { Grows (IsOfWorker self.now.number) seat.old seat.new }
    {
        let namespace = &busy.namespace;
        match busy.phase {
            Phase::Took => self.plan_anew(seat, kept, namespace),
            Phase::Snapped => self.place(seat, kept, namespace),
            Phase::Submitted => self.await_applied(seen),
            Phase::Applied => self.finish(seat, kept, namespace),
            Phase::Dropped if busy.tries == 0 => self.finish(seat, kept, namespace),
            Phase::Dropped => self.plan_anew(seat, kept, namespace),
        }
    }

    /// Makes the steps that are due until the worker has to wait for others, or waits. It looks at the server at one moment, so
    /// a wait past that moment misses no change.
    pub fn turn<M: Retention>(&self, seat: &mut Seat<L, M>, kept: &mut Kept) -> Result<(), Halt>
        ensures { Grows (IsOfWorker self.now.number) seat.old seat.new }
    {
        let view = self.shared.worker_view(self.rt, self.number)?;
        match &view.busy {
            Some(busy) => self.work(seat, kept, busy, view.seen),
            None => self.take(seat, kept, view.seen, view.next.as_ref()),
        }
    }

    /// Gives the worker's evaluation back, if it has one.
    pub fn give_back<M: Retention>(
        &self,
        seat: &mut Seat<L, M>,
        kept: &mut Kept,
    ) -> Result<(), Halt>
        ensures { Grows (IsOfWorker self.now.number) seat.old seat.new }
    {
        let Some(busy) = self.shared.busy(self.rt, self.number)? else {
            return Ok(());
        };
        let namespace = &busy.namespace;
        let reply = self
            .shared
            .nack(self.rt, self.alloc, seat, self.number, namespace)?;
        drop(reply);
        *kept = Kept::Nothing;
        Ok(())
    }
}
