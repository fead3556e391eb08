//! A server that threads share.

ghost use Rattle.std.specs.Prelude.{◌≡◌, ◌≢◌, [], IfErr, IfOk, IfSome, IsFalse, IsNone};
ghost use Rattle.ns_types.specs.declared.refusal.Refusal.TheVariants as Refusal;
ghost use Rattle.ns_types.specs.declared.step.Step.TheVariants as Step;
ghost use Rattle.ns_driver.specs.Calls.{snapped};
ghost use Rattle.ns_driver.specs.WorkerSteps.{worker_step};
ghost use Rattle.ns_steps.specs.Served.{IsServed};
ghost use Rattle.ns_work_lock.specs.Moments.{changes_after, is_any, notified};
ghost use Rattle.ns_work_lock.specs.Receiving.{Asks, Receives};

use crate::changes::{
    ApplierView, BusyWorker, Moment, Notified, Planner, Role, WaitsFor, Wakes, WorkerView,
};
use crate::desk::Desk;
use crate::ended::Ended;
use crate::looking;
use crate::retention::Retention;
use crate::seat::Seat;
use crate::spent::Spent;
use ns_driver::WorkerStep;
use ns_log::segments::Segment;
use ns_replies::answers::may_change;
use ns_types::key::EvalKey;
use ns_types::planned::Planned;
use ns_types::refusal::Refusal;
use ns_types::reply::{Reply, Response};
use ns_types::shared;
use ns_types::snapshot::Snapshot;
use ns_types::step::Step;
use ns_types::text::Text;
use ns_work_log::Held;
use std::alloc::{AllocError, Global};
use std::sync::ledger::{Blank, Ledger};
use std::sync::{Condvar, Mutex, Wait};

/// A server with its log, which threads share. Each call for a step makes at most that step, and adds its receipt to the
/// caller's seat.
pub struct Shared<L: Ledger> {
    desk: Mutex<Desk<L>>,
    /// Workers that wait for an evaluation.
    idle: Condvar,
    /// Workers that wait for their plans to be applied.
    planners: Condvar,
    /// The applier, if it waits.
    applier: Condvar,
    /// Entries that were given out and that are needed no more.
    spent: Mutex<Spent>,
    /// The number of entries at which the log is rotated. None: never.
    pub rotates_at: Option<u64>,
    /// The log is rotated as well if its entries have more bytes of text than this.
    pub rotates_past: Option<u64>,
}

impl<L: Ledger> Drop for Shared<L> {
    fn drop(self) {
        let Shared {
            desk: _desk,
            idle: _idle,
            planners: _planners,
            applier: _applier,
            spent: _spent,
            rotates_at: _,
            rotates_past: _,
        } = self;
    }
}

impl<L: Ledger> Shared<L> {
    /// Shares a server whose log begins, counted by this ledger. A call that adds an entry wakes the applier if the log then
    /// has `rotates_at` entries, or passes `rotates_past` bytes of text.
    pub fn new(
        held: Held,
        blank: Blank,
        rotates_at: Option<u64>,
        rotates_past: Option<u64>,
    ) -> Shared<L>
        requires empty { held.log ≡ [] }
        requires first { held.start ≡ 0 }
        requires name { blank.name ≡ L.name }
        requires parts { (blank.parts ≡ L.parts) × (L.parts ≡ 18446744073709551615) }
        ensures entries { result.rotates_at ≡ rotates_at }
        ensures bytes { result.rotates_past ≡ rotates_past }
    {
        let desk = Desk::new(Ended::new(held, blank));
        Shared {
            desk: Mutex::new(desk),
            idle: Condvar::new(),
            planners: Condvar::new(),
            applier: Condvar::new(),
            spent: Mutex::new(Spent::new()),
            rotates_at,
            rotates_past,
        }
    }

    /// A seat with no receipts, unless 2^64 - 1 seats were made.
    pub fn seat<R: Wait, M: Retention>(&self, rt: &R, alloc: Global) -> Option<Seat<L, M>>
        ensures { IfSome result (λ seat. seat ≡ []) }
    {
        self.desk.lock(rt).kept.seat::<M>(alloc)
    }

    /// Counts a change, if any thread is notified. Returns which threads are.
    fn stir(&self, desk: &mut Desk<L>, wakes: Wakes) -> Notified
        ensures { let held = desk.old.kept.held in
            let any = is_any (notified wakes self.now.rotates_at desk.old.is_closed held) in
            desk.new ≡ record desk.old { changes = changes_after any desk.old.changes } }
    {
        desk.stir(wakes, self.rotates_at)
    }

    /// Notifies these threads. The caller has released the lock, so none of them wakes only to wait for it.
    fn notify(&self, notified: Notified) {
        if notified.all {
            self.idle.notify_all();
        } else if notified.idle {
            self.idle.notify_one();
        }
        if notified.all || notified.planners {
            self.planners.notify_all();
        }
        if notified.all || notified.applier {
            self.applier.notify_all();
        }
    }

    /// Counts the bytes of text of the entry that was added last, if the log is rotated by them, and wakes the applier if they
    /// pass the limit now. The entry is rendered with no lock held.
    fn weigh<R: Wait, M: Retention>(
        &self,
        rt: &R,
        alloc: Global,
        seat: &Seat<L, M>,
        before: usize,
    ) {
        let Some(limit) = self.rotates_past else {
            return;
        };
        let more = seat.added_bytes(alloc, before);
        if self.desk.lock(rt).weigh(more, limit) {
            self.applier.notify_all();
        }
    }

    /// Drops one entry that is needed no more. No lock is held meanwhile.
    fn let_go<R: Wait>(&self, rt: &R) {
        let entry = self.spent.lock(rt).take_out();
        drop(entry);
    }

    /// Does what follows each call for a step.
    fn follow<R: Wait, M: Retention>(
        &self,
        rt: &R,
        alloc: Global,
        seat: &Seat<L, M>,
        before: usize,
    ) {
        self.weigh(rt, alloc, seat, before);
        self.let_go(rt);
    }

    /// Makes the step that a request asks for.
    pub fn take<R: Wait, M: Retention>(
        &self,
        rt: &R,
        alloc: Global,
        seat: &mut Seat<L, M>,
        step: Step,
    ) -> Result<Response, Refusal>
        requires { IsServed step }
        ensures { Asks step seat.old result seat.new }
    {
        let wakes = if may_change(&step) {
            Wakes::WhereServed
        } else {
            Wakes::Nobody
        };
        let before = seat.forget();
        let mut desk = self.desk.lock(rt);
        let answer = desk.kept.take(alloc, seat, step);
        let notified = self.stir(&mut desk, wakes);
        drop(desk);
        self.notify(notified);
        self.follow(rt, alloc, seat, before);
        answer
    }

    /// Makes the step of the worker in the namespace, and wakes the threads that it concerns once the lock is free.
    fn work<R: Wait, M: Retention>(
        &self,
        rt: &R,
        alloc: Global,
        seat: &mut Seat<L, M>,
        worker: u64,
        namespace: &Text,
        step: WorkerStep<'_>,
    ) -> Result<Reply, Refusal>
        ensures { let made = worker_step step.entry worker namespace.now in
            Receives made seat.old result seat.new }
    {
        let before = seat.forget();
        let wakes = Wakes::of(&step);
        let mut desk = self.desk.lock(rt);
        let answer = desk.kept.work(alloc, seat, worker, namespace, step);
        let notified = self.stir(&mut desk, wakes);
        drop(desk);
        self.notify(notified);
        self.follow(rt, alloc, seat, before);
        answer
    }

    /// Makes the step in which a worker dequeues the evaluation of that number in the namespace, which is the next one.
    pub fn dequeue<R: Wait, M: Retention>(
        &self,
        rt: &R,
        alloc: Global,
        seat: &mut Seat<L, M>,
        worker: u64,
        namespace: &Text,
        evaluation: u64,
    ) -> Result<Reply, Refusal>
        ensures { let step = Step.Dequeue worker namespace.now evaluation in
            Receives step seat.old result seat.new }
    {
        self.work(
            rt,
            alloc,
            seat,
            worker,
            namespace,
            WorkerStep::Dequeue(evaluation),
        )
    }

    /// Makes the step in which a worker takes a snapshot of its evaluation: one value, which its row keeps and the caller
    /// reads.
    pub fn snap<R: Wait, M: Retention>(
        &self,
        rt: &R,
        alloc: Global,
        seat: &mut Seat<L, M>,
        worker: u64,
        namespace: &Text,
    ) -> Result<shared::Shared<Snapshot>, Refusal>
        ensures { let step = Step.Snap worker namespace.now in
            Receives step seat.old (snapped result) seat.new }
    {
        let before = seat.forget();
        let mut desk = self.desk.lock(rt);
        let seen = desk.kept.snap(alloc, seat, worker, namespace);
        let notified = self.stir(&mut desk, Wakes::Nobody);
        drop(desk);
        self.notify(notified);
        self.follow(rt, alloc, seat, before);
        seen
    }

    /// Makes the step in which a worker hands in the plan of its snapshot.
    pub fn submit<R: Wait, M: Retention>(
        &self,
        rt: &R,
        alloc: Global,
        seat: &mut Seat<L, M>,
        worker: u64,
        namespace: &Text,
        planned: Planned,
    ) -> Result<Reply, Refusal>
        ensures { let step = Step.Submit worker namespace.now in
            Receives step seat.old result seat.new }
    {
        self.work(
            rt,
            alloc,
            seat,
            worker,
            namespace,
            WorkerStep::Submit(planned),
        )
    }

    /// Makes the step in which the plan that a worker handed in is applied.
    pub fn apply<R: Wait, M: Retention>(
        &self,
        rt: &R,
        alloc: Global,
        seat: &mut Seat<L, M>,
        worker: u64,
        namespace: &Text,
    ) -> Result<Reply, Refusal>
        ensures { let step = Step.Apply worker namespace.now in
            Receives step seat.old result seat.new }
    {
        self.work(rt, alloc, seat, worker, namespace, WorkerStep::Apply)
    }

    /// Makes the step in which a worker finishes its evaluation, by the plan of its snapshot.
    pub fn finish<R: Wait, M: Retention>(
        &self,
        rt: &R,
        alloc: Global,
        seat: &mut Seat<L, M>,
        worker: u64,
        namespace: &Text,
        planned: &Planned,
    ) -> Result<Reply, Refusal>
        ensures { let step = Step.Finish worker namespace.now in
            Receives step seat.old result seat.new }
    {
        self.work(
            rt,
            alloc,
            seat,
            worker,
            namespace,
            WorkerStep::Finish(planned),
        )
    }

    /// Makes the step in which a worker gives its evaluation of the namespace back.
    pub fn nack<R: Wait, M: Retention>(
        &self,
        rt: &R,
        alloc: Global,
        seat: &mut Seat<L, M>,
        worker: u64,
        namespace: &Text,
    ) -> Result<Reply, Refusal>
        ensures { let step = Step.Nack worker namespace.now in
            Receives step seat.old result seat.new }
    {
        self.work(rt, alloc, seat, worker, namespace, WorkerStep::Nack)
    }

    /// Gives out the log, and begins the next one in the present state. It makes no step, adds no receipt, and wakes nobody.
    /// Want of memory is the only error.
    pub fn rotate<R: Wait>(&self, rt: &R, alloc: Global) -> Result<Segment, Refusal>
        ensures { IfErr result (λ refusal. refusal ≡ Refusal.Memory) }
    {
        let mut desk = self.desk.lock(rt);
        let segment = desk.kept.rotate(alloc)?;
        desk.bytes = 0;
        Ok(segment)
    }

    /// Takes a segment that is needed no more. Each later call for a step drops one of its entries, so that their memory comes
    /// back where entries are made. At most two segments wait so: what is left of one before them is dropped now.
    pub fn spend<R: Wait>(&self, rt: &R, segment: Segment) {
        let left = self.spent.lock(rt).add(segment);
        drop(left);
    }

    /// How many entries are left of the two segments that were spent last: of the earlier one, and of the later one.
    pub fn spent<R: Wait>(&self, rt: &R) -> (u64, u64) {
        self.spent.lock(rt).counts()
    }

    /// How many entries the log has now.
    pub fn entries<R: Wait>(&self, rt: &R) -> u64 {
        self.desk.lock(rt).kept.entries()
    }

    /// Whether the log is to be rotated: it has at least as many entries as it is rotated at, or more bytes of text than it is
    /// rotated past.
    pub fn is_due<R: Wait>(&self, rt: &R) -> bool
        ensures { IsNone self.now.rotates_at → IsFalse result }
    {
        self.is_due_at(&self.desk.lock(rt))
    }

    fn is_due_at(&self, desk: &Desk<L>) -> bool
        ensures { IsNone self.now.rotates_at → IsFalse result }
    {
        match self.rotates_at {
            Some(entries) => desk.kept.entries() >= entries || desk.is_heavy(self.rotates_past),
            None => false,
        }
    }

    /// What the worker sees before its turn, under one lock. Want of memory is the only error.
    pub fn worker_view<R: Wait>(&self, rt: &R, worker: u64) -> Result<WorkerView, AllocError> {
        let desk = self.desk.lock(rt);
        looking::worker_view(desk.kept.held.core(), worker, desk.moment())
    }

    /// What the applier sees before its turn, under one lock. Want of memory is the only error.
    pub fn applier_view<R: Wait>(&self, rt: &R) -> Result<ApplierView, AllocError>
        ensures { IsNone self.now.rotates_at → IfOk result (λ view. IsFalse view.is_due) }
    {
        let desk = self.desk.lock(rt);
        let is_due = self.is_due_at(&desk);
        looking::applier_view(desk.kept.held.core(), desk.moment(), is_due)
    }

    /// The next evaluation: the first of the ready ones that have the highest priority. Want of memory is the only error.
    pub fn served<R: Wait>(&self, rt: &R) -> Result<Option<EvalKey>, AllocError> {
        looking::served(self.desk.lock(rt).kept.held.core())
    }

    /// What the worker is busy with. None: it is idle. Want of memory is the only error.
    pub fn busy<R: Wait>(&self, rt: &R, worker: u64) -> Result<Option<BusyWorker>, AllocError> {
        looking::busy(self.desk.lock(rt).kept.held.core(), worker)
    }

    /// The worker whose plan is next. Want of memory is the only error.
    pub fn first_plan<R: Wait>(&self, rt: &R) -> Result<Option<Planner>, AllocError> {
        looking::planner(self.desk.lock(rt).kept.held.core())
    }

    /// The present moment. A caller that takes it before a look, and then waits past it, misses no change after the look.
    pub fn now<R: Wait>(&self, rt: &R) -> Moment {
        self.desk.lock(rt).moment()
    }

    /// Waits for a change after this moment, with the threads that wait for this, and returns the new moment.
    pub fn wait_past<R: Wait>(&self, rt: &R, waits: WaitsFor, seen: Moment) -> Moment
        ensures { result.changes ≢ seen.changes }
    {
        let room = match waits {
            WaitsFor::Work => &self.idle,
            WaitsFor::Apply => &self.planners,
            WaitsFor::Plans => &self.applier,
        };
        let desk = room.wait_while(rt, self.desk.lock(rt), |desk| {
            desk.changes == seen.changes
        });
        desk.moment()
    }

    /// Counts a worker that begins, or notes that the applier has begun.
    pub fn enter<R: Wait>(&self, rt: &R, role: Role) {
        self.desk.lock(rt).enter(role);
    }

    /// Takes a worker out of the count, or notes that the applier has left, and wakes all waiting threads: workers may wait for
    /// the applier, and the applier for workers.
    pub fn leave<R: Wait>(&self, rt: &R, role: Role) {
        let mut desk = self.desk.lock(rt);
        desk.leave(role);
        let notified = self.stir(&mut desk, Wakes::All);
        drop(desk);
        self.notify(notified);
    }

    /// Closes the server, and wakes all waiting threads: workers end once they are idle, and the applier once they have ended.
    pub fn close<R: Wait>(&self, rt: &R) {
        let mut desk = self.desk.lock(rt);
        desk.close();
        let notified = self.stir(&mut desk, Wakes::All);
        drop(desk);
        self.notify(notified);
    }

    /// Whether the server was closed. It is never opened again.
    pub fn is_closed<R: Wait>(&self, rt: &R) -> bool {
        self.desk.lock(rt).is_closed
    }

    /// Takes the server with its log and the book out of the lock.
    pub fn end(self) -> Ended<L> {
        let Shared {
            desk,
            idle: _idle,
            planners: _planners,
            applier: _applier,
            spent: _spent,
            rotates_at: _,
            rotates_past: _,
        } = self;
        let Desk { kept, .. } = desk.into_inner();
        kept
    }
}
