//! Lets a server's workers be driven.

use crate::server::Core;
use ns_broker::Busy;
use ns_driver::{WorkerStep, Works};
use ns_steps::chain::Server;
use ns_types::key::EvalKey;
use ns_types::refusal::Refusal;
use ns_types::reply::Reply;
use ns_types::shared::Shared;
use ns_types::snapshot::Snapshot;
use ns_types::text::Text;
use std::alloc::Global;

impl Server for Core {
    ghost state = { λ core. core };

    ghost notes = { λ _ _ _ _. Unit {0} };
}

impl Works for Core {
    ghost use Rattle.ns_core.specs.Lacking.{CoreLacks};

    ghost lacks = { CoreLacks };

    fn served(&self) -> Option<&EvalKey> {
        self.served()
    }

    fn phase(&self, worker: u64) -> Option<Busy<'_>> {
        self.phase(worker)
    }

    fn work(
        &mut self,
        _alloc: Global,
        worker: u64,
        namespace: &Text,
        step: WorkerStep<'_>,
    ) -> Result<Reply, Refusal> {
        self.work(worker, namespace, step)
    }

    fn snap(
        &mut self,
        _alloc: Global,
        worker: u64,
        namespace: &Text,
    ) -> Result<Shared<Snapshot>, Refusal> {
        self.snap(worker, namespace)
    }
}
