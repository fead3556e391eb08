//! Lets the workers of a held server be driven.

use crate::held::Held;
use ns_broker::Busy;
use ns_driver::{WorkerStep, Works};
use ns_steps::chain::Server;
use ns_types::key::EvalKey;
use ns_types::refusal::Refusal;
use ns_types::reply::Reply;
use ns_types::shared::Shared;
use ns_types::snapshot::Snapshot;
use ns_types::text::Text;
use std::alloc::Global;

impl Server for Held {
    ghost use Rattle.ns_work_log.specs.Logs.{IsNoted};

    ghost state = { λ held. held.state };

    ghost notes = { IsNoted };
}

impl Works for Held {
    ghost use Rattle.ns_work_log.specs.Lacking.{HeldLacks};

    ghost lacks = { HeldLacks };

    fn served(&self) -> Option<&EvalKey> {
        self.core().served()
    }

    fn phase(&self, worker: u64) -> Option<Busy<'_>> {
        self.core().phase(worker)
    }

    fn work(
        &mut self,
        alloc: Global,
        worker: u64,
        namespace: &Text,
        step: WorkerStep<'_>,
    ) -> Result<Reply, Refusal> {
        self.work(alloc, worker, namespace, step)
    }

    fn snap(
        &mut self,
        alloc: Global,
        worker: u64,
        namespace: &Text,
    ) -> Result<Shared<Snapshot>, Refusal> {
        self.snap(alloc, worker, namespace)
    }
}
