//! The server as one value, which contracts see as its state.

ghost use Rattle.std.specs.Prelude.{◌≡◌, IfOk, Some, is_some, option_copied, option_map};
ghost use Rattle.ns_types.specs.declared.step.Step.TheVariants as Step;
ghost use Rattle.ns_types.specs.Access.Rights.{pool_rights_of, rights_of};
ghost use Rattle.ns_types.specs.Access.Sharing.{has_pool, is_apart, namespace_at, shares};
ghost use Rattle.ns_types.specs.Isolation.{lacks_room};
ghost use Rattle.ns_types.specs.Steps.{Makes, opening};
ghost use Rattle.ns_types.specs.Validity.{IsValid};
ghost use Rattle.ns_types.specs.Working.Looks.{first_plan, row_of, served_ready, worker_at};
ghost use Rattle.ns_broker.specs.Looking.{busy_fields, busy_of};
ghost use Rattle.ns_broker.specs.Snapping.{kept_at};
ghost use Rattle.ns_driver.specs.Calls.{FinishesBy, HandsIn, snapped};
ghost use Rattle.ns_driver.specs.WorkerSteps.{MakesWorkerStep};
ghost use Rattle.ns_steps.specs.Served.{IsServed};

use crate::parts::Parts;
use ns_broker::Busy;
use ns_driver::WorkerStep;
use ns_types::acl::{PoolRights, Rights};
use ns_types::good::{GoodAdmin, GoodAsk, GoodNodeCommand};
use ns_types::key::EvalKey;
use ns_types::name::Secret;
use ns_types::planned::Planned;
use ns_types::records::Namespace;
use ns_types::refusal::Refusal;
use ns_types::reply::Reply;
use ns_types::shared::Shared;
use ns_types::snapshot::Snapshot;
use ns_types::step::Step;
use ns_types::text::Text;
use ns_types::worker::Worker;
use std::alloc::{AllocError, Global};
use std::marker::Model;

/// A scheduling server. Each call is one step of the model, or is refused and changes nothing.
pub struct Core {
    pub(crate) parts: Parts,
}

impl Drop for Core {
    fn drop(self) {
        let Core { parts: _parts } = self;
    }
}

impl Model for Core {
    ghost use Rattle.std.specs.Coded.{codes};
    ghost use Rattle.std.specs.FinMap.{code};
    ghost use Rattle.ns_types.specs.State.Rows.{State};

    ghost Value = { State };

    ghost coded = { Prim.hlevel (codes, code) };

    ghost use Rattle.ns_core.specs.Held.{IsKept};
    ghost use Rattle.ns_core.specs.Viewed.{state_of};

    ghost view = { λ c. state_of c.parts };

    ghost invariant = { λ c. IsKept c.parts };
}

impl Core {
    /// A new server, with the namespace and the pool `default`, and one management token with that secret. Want of memory is
    /// the only error.
    pub fn new(alloc: Global, bootstrap: &Secret) -> Result<Core, AllocError>
        ensures { IfOk result (λ core. core ≡ opening bootstrap.now) }
    {
        let parts = Parts::opening(alloc, bootstrap.get())?;
        Ok(Core { parts })
    }

    /// Makes the step of a command about a namespace.
    pub fn ask(
        &mut self,
        namespace: &Text,
        secret: Option<&Text>,
        command: &GoodAsk,
    ) -> Result<Reply, Refusal>
        ensures { let step = Step.Ask namespace.now (option_copied secret.entry) command.now in
            Makes step self.old result self.new }
    {
        let parts = &mut self.parts;
        parts.ask(namespace, secret, command.get())
    }

    /// Makes the step of an administrator's command.
    pub fn admin(&mut self, secret: Option<&Text>, command: &GoodAdmin) -> Result<Reply, Refusal>
        ensures { let step = Step.Admin (option_copied secret.entry) command.now in
            Makes step self.old result self.new }
    {
        let parts = &mut self.parts;
        parts.admin(secret, command.get())
    }

    /// Makes the step of a command about a pool and its nodes.
    pub fn node(
        &mut self,
        pool: &Text,
        secret: Option<&Text>,
        command: &GoodNodeCommand,
    ) -> Result<Reply, Refusal>
        ensures { let step = Step.Node pool.now (option_copied secret.entry) command.now in
            Makes step self.old result self.new }
    {
        let parts = &mut self.parts;
        parts.node(pool, secret, command.get())
    }

    /// Makes the step that a request asks for.
    pub fn take(&mut self, step: &Step) -> Result<Reply, Refusal>
        requires { IsServed step.now }
        ensures { Makes step.now self.old result self.new }
    {
        match step {
            Step::Ask(namespace, secret, command) => {
                self.ask(namespace, secret.as_ref(), command)
            }
            Step::Admin(secret, command) => self.admin(secret.as_ref(), command),
            Step::Node(pool, secret, command) => self.node(pool, secret.as_ref(), command),
            _ => unreachable!(),
        }
    }

    /// Makes the step in which a worker dequeues the evaluation of that number in the namespace. The reply has its number.
    /// `NotEnabled`: there is no such worker, it has an evaluation, or another evaluation is next.
    pub fn dequeue(
        &mut self,
        worker: u64,
        namespace: &Text,
        evaluation: u64,
    ) -> Result<Reply, Refusal>
        ensures { let step = Step.Dequeue worker namespace.now evaluation in
            Makes step self.old result self.new }
    {
        let parts = &mut self.parts;
        parts.dequeue(worker, namespace, evaluation)
    }

    /// Makes the step in which a worker takes a snapshot of its evaluation: one value, which its row keeps and the caller
    /// reads.
    pub fn snap(&mut self, worker: u64, namespace: &Text) -> Result<Shared<Snapshot>, Refusal>
        ensures made { let step = Step.Snap worker namespace.now in
            Makes step self.old (snapped result) self.new }
        ensures kept { let w = self.new.world in
            IfOk result (λ seen. kept_at w worker namespace.now ≡ Some seen) }
    {
        let parts = &mut self.parts;
        parts.snap(worker, namespace)
    }

    /// Makes the step in which a worker hands in the plan of its snapshot. The reply has the number of its evaluation.
    /// `NotEnabled`: the worker has no evaluation of the namespace, or it is not its turn to hand in a plan. Then `Foreign`:
    /// the plan is of another snapshot than its row keeps. Then `NotEnabled`: the plan does nothing.
    pub fn submit(
        &mut self,
        worker: u64,
        namespace: &Text,
        planned: Planned,
    ) -> Result<Reply, Refusal>
        ensures { HandsIn worker namespace.now planned self.old result self.new }
    {
        let parts = &mut self.parts;
        parts.submit(worker, namespace, planned)
    }

    /// Makes the step in which a worker's plan is applied: what still fits is done, for each node its whole part of the plan or
    /// none of it. The reply has the numbers of the placed allocations, and the names of the nodes whose part is not done.
    /// `NotEnabled`: the worker has no evaluation of the namespace, has not handed in a plan, or another plan is next. Then
    /// `Full`: a counter would pass its bound.
    pub fn apply(&mut self, worker: u64, namespace: &Text) -> Result<Reply, Refusal>
        ensures { Makes (Step.Apply worker namespace.now) self.old result self.new }
    {
        let parts = &mut self.parts;
        parts.apply(worker, namespace)
    }

    /// Makes the step in which a worker finishes its evaluation, by the plan of its snapshot. The reply has the evaluation's
    /// new status, and the number of its follower. `NotEnabled`: the worker has no evaluation of the namespace, or it is not
    /// its turn to finish. Then `Foreign`: the plan is of another snapshot than its row keeps. Then `NotEnabled`: the plan does
    /// something and was not handed in. Then `Full`: the namespace has no index left, or no number for a follower.
    pub fn finish(
        &mut self,
        worker: u64,
        namespace: &Text,
        planned: &Planned,
    ) -> Result<Reply, Refusal>
        ensures { FinishesBy worker namespace.now planned.now self.old result self.new }
    {
        let parts = &mut self.parts;
        parts.finish(worker, namespace, planned)
    }

    /// Makes the step in which a worker gives its evaluation of the namespace back, with a nack. The reply has the evaluation's
    /// new status.
    pub fn nack(&mut self, worker: u64, namespace: &Text) -> Result<Reply, Refusal>
        ensures { Makes (Step.Nack worker namespace.now) self.old result self.new }
    {
        let parts = &mut self.parts;
        parts.nack(worker, namespace)
    }

    /// Makes the step of the worker in the namespace.
    pub fn work(
        &mut self,
        worker: u64,
        namespace: &Text,
        step: WorkerStep<'_>,
    ) -> Result<Reply, Refusal>
        ensures { MakesWorkerStep step.entry worker namespace.now self.old result self.new }
    {
        match step {
            WorkerStep::Dequeue(evaluation) => self.dequeue(worker, namespace, evaluation),
            WorkerStep::Submit(planned) => self.submit(worker, namespace, planned),
            WorkerStep::Apply => self.apply(worker, namespace),
            WorkerStep::Finish(planned) => self.finish(worker, namespace, planned),
            WorkerStep::Nack => self.nack(worker, namespace),
        }
    }

    /// The next evaluation: the first of the ready ones that have the highest priority.
    pub fn served(&self) -> Option<&EvalKey>
        ensures { option_copied result ≡ served_ready self.now.world }
    {
        ns_broker::served_ready(&self.parts.tables, &self.parts.turns)
    }

    /// Whether there is a next evaluation. It costs the same however many are ready.
    pub fn has_served(&self) -> bool
        ensures { result ≡ is_some (served_ready self.now.world) }
    {
        ns_broker::has_served(&self.parts.tables)
    }

    /// The evaluation whose plan is next.
    pub fn first_plan(&self) -> Option<&EvalKey>
        ensures { option_copied result ≡ first_plan self.now.world }
    {
        ns_broker::first_plan(&self.parts.tables)
    }

    /// What the worker is busy with, and how far it is. None: it is idle.
    pub fn phase(&self, worker: u64) -> Option<Busy<'_>>
        ensures { option_map busy_fields result
            ≡ option_map busy_of (row_of self.now.world worker) }
    {
        ns_broker::phase(&self.parts.tables, &self.parts.turns, worker)
    }

    /// The worker's row in that namespace. It has the snapshot that the worker took last, and from Submit on the plan of it.
    pub fn worker_at(&self, worker: u64, namespace: &Text) -> Option<&Worker>
        ensures { option_copied result ≡ worker_at self.now.world worker namespace.now }
    {
        ns_broker::worker_at(&self.parts.tables, worker, namespace)
    }

    /// What the secret may do in the namespace.
    pub fn rights(&self, secret: Option<&Text>, namespace: &Text) -> Rights
        ensures { result ≡ rights_of self.now.acl (option_copied secret.entry) namespace.now }
    {
        self.parts.acl.rights(secret, namespace)
    }

    /// What the secret may do with the pool and its nodes.
    pub fn pool_rights(&self, secret: Option<&Text>, pool: &Text) -> PoolRights
        ensures { result ≡ pool_rights_of self.now.acl (option_copied secret.entry) pool.now }
    {
        self.parts.acl.pool_rights(secret, pool)
    }

    /// The namespace's record, if it is there.
    pub fn namespace_at(&self, name: &Text) -> Option<&Namespace>
        ensures { option_copied result ≡ namespace_at self.now.world name.now }
    {
        ns_admin::confinement::namespace_at(&self.parts.tables, name)
    }

    /// Whether the namespace is there and may use the pool, which need not exist.
    pub fn permits(&self, namespace: &Text, pool: &Text) -> bool
        ensures { result ≡ has_pool self.now.world namespace.now pool.now }
    {
        ns_admin::confinement::permits(&self.parts.tables, namespace, pool)
    }

    /// Whether another namespace may use a pool of the namespace, or has its quota. A namespace that is not confined to a list
    /// of pools, or does not exist, counts as sharing.
    pub fn shares(&self, namespace: &Text) -> bool
        ensures { result ≡ shares self.now.world namespace.now }
    {
        ns_admin::shares(&self.parts.tables, namespace)
    }

    /// Whether the namespace has these pools and these quotas to itself: no other permits one of the pools or names one of the
    /// quotas, and if the namespace is there, it is confined to them, names no other quota and has nothing elsewhere. It takes
    /// no memory.
    pub fn apart(&self, namespace: &Text, pools: &[Text], quotas: &[Text]) -> bool
        ensures { result ≡ is_apart self.now.world namespace.now pools.now quotas.now }
    {
        ns_admin::confinement::apart(&self.parts.tables, namespace, pools, quotas)
    }

    /// Whether the step puts a namespace, a quota or a pool of a new name, whose table has no room. It takes no memory.
    pub fn lacks_room(&self, step: &Step) -> bool
        ensures { result ≡ lacks_room step.now self.now.world }
    {
        ns_admin::confinement::lacks_room(&self.parts.tables, step)
    }

    /// Tells a proof that the state is valid, as every core's state is. It does nothing.
    pub fn is_valid(&self)
        ensures { IsValid self.now }
    {
        let _parts = &self.parts;
    }
}
