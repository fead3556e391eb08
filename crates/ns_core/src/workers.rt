//! Workers' steps over the parts.

ghost use Rattle.std.specs.Prelude.{◌≡◌, IfOk, Ok, Some};
ghost use Rattle.ns_types.specs.declared.step.Step.TheVariants as Step;
ghost use Rattle.ns_broker.specs.Snapping.{kept_at};
ghost use Rattle.ns_core.specs.Answering.{MakesStep};
ghost use Rattle.ns_core.specs.Held.{IsIndexed, IsKept};
ghost use Rattle.ns_core.specs.Viewed.{state_of, world_of};
ghost use Rattle.ns_core.specs.Working.{MakesWork};
ghost use Rattle.ns_driver.specs.Calls.{FinishesBy, HandsIn, snapped};

use crate::parts::{Parts, plain};
use ns_applier::apply;
use ns_broker::{Snapped, dequeue, nack, snap, submit};
use ns_change::Prepared;
use ns_followers::finish;
use ns_types::planned::Planned;
use ns_types::refusal::Refusal;
use ns_types::reply::Reply;
use ns_types::shared::Shared;
use ns_types::snapshot::Snapshot;
use ns_types::text::Text;

impl Parts {
    /// Makes the step, or leaves the state as it is.
    fn work_prepared(&mut self, prepared: Prepared) -> Result<Reply, Refusal>
        requires { IsKept self.old }
        ensures made { MakesWork (Ok prepared) self.old result self.new }
        ensures index { IsIndexed self.new }
    {
        let content = self.make_prepared(prepared)?;
        Ok(plain(content))
    }

    /// Makes the step that was prepared, or leaves the state as it is.
    pub fn work(&mut self, prepared: Result<Prepared, Refusal>) -> Result<Reply, Refusal>
        requires { IsKept self.old }
        ensures made { MakesWork prepared self.old result self.new }
        ensures index { IsIndexed self.new }
    {
        match prepared {
            Ok(prepared) => self.work_prepared(prepared),
            Err(refusal) => Err(refusal),
        }
    }

    /// Makes the step in which a worker dequeues an evaluation, or leaves the state as it is.
    pub fn dequeue(
        &mut self,
        worker: u64,
        namespace: &Text,
        evaluation: u64,
    ) -> Result<Reply, Refusal>
        requires { IsKept self.old }
        ensures made { let step = Step.Dequeue worker namespace.now evaluation in
            MakesStep step self.old result self.new }
        ensures index { IsIndexed self.new }
    {
        let prepared = dequeue(&self.tables, &self.turns, worker, namespace, evaluation);
        self.work(prepared)
    }

    /// Makes the step in which a worker takes a snapshot, which its row then keeps, or leaves the state as it is.
    pub fn snap(&mut self, worker: u64, namespace: &Text) -> Result<Shared<Snapshot>, Refusal>
        requires { IsKept self.old }
        ensures made { let step = Step.Snap worker namespace.now in
            MakesStep step self.old (snapped result) self.new }
        ensures kept { let w = world_of self.new in
            IfOk result (λ seen. kept_at w worker namespace.now ≡ Some seen) }
        ensures index { IsIndexed self.new }
    {
        let Snapped { prepared, snapshot } = snap(&self.tables, &mut self.live, worker, namespace)?;
        let content = self.make_prepared(prepared)?;
        drop(content);
        Ok(snapshot)
    }

    /// Makes the step in which a worker hands in its plan, or leaves the state as it is.
    pub fn submit(
        &mut self,
        worker: u64,
        namespace: &Text,
        planned: Planned,
    ) -> Result<Reply, Refusal>
        requires { IsKept self.old }
        ensures made { HandsIn worker namespace.now planned
            (state_of self.old) result (state_of self.new) }
        ensures index { IsIndexed self.new }
    {
        let prepared = submit(&self.tables, worker, namespace, planned)?;
        self.work_prepared(prepared)
    }

    /// Makes the step in which a worker's plan is applied, or leaves the state as it is.
    pub fn apply(&mut self, worker: u64, namespace: &Text) -> Result<Reply, Refusal>
        requires { IsKept self.old }
        ensures made { MakesStep (Step.Apply worker namespace.now) self.old result self.new }
        ensures index { IsIndexed self.new }
    {
        let prepared = apply(&self.tables, &self.live, worker, namespace);
        self.work(prepared)
    }

    /// Makes the step in which a worker finishes its evaluation, or leaves the state as it is.
    pub fn finish(
        &mut self,
        worker: u64,
        namespace: &Text,
        planned: &Planned,
    ) -> Result<Reply, Refusal>
        requires { IsKept self.old }
        ensures made { FinishesBy worker namespace.now planned.now
            (state_of self.old) result (state_of self.new) }
        ensures index { IsIndexed self.new }
    {
        let prepared = finish(&self.tables, worker, namespace, planned)?;
        self.work_prepared(prepared)
    }

    /// Makes the step in which a worker gives its evaluation back, or leaves the state as it is.
    pub fn nack(&mut self, worker: u64, namespace: &Text) -> Result<Reply, Refusal>
        requires { IsKept self.old }
        ensures made { MakesStep (Step.Nack worker namespace.now) self.old result self.new }
        ensures index { IsIndexed self.new }
    {
        let prepared = nack(&self.tables, worker, namespace);
        self.work(prepared)
    }
}
