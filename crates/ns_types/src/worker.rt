//! Workers that have an evaluation. An idle worker has no row.

ghost use Rattle.std.specs.Prelude.{◌≡◌, IfOk, None, Some, if◌then◌else◌, option_copied};
ghost use Rattle.ns_types.specs.Working.Work.{planned_of, with_snapshot};

use crate::planned::Planned;
use crate::shared::Shared;
use crate::snapshot::Snapshot;
use std::alloc::AllocError;
use std::marker::Model;

#[derive(Clone, Copy, PartialEq, Eq)]
pub enum Phase {
    /// It has the evaluation, and no snapshot yet.
    Took,
    Snapped,
    Submitted,
    /// Its plan was applied, and nothing of it was dropped.
    Applied,
    /// Its plan was applied, and something of it was dropped.
    Dropped,
}

/// A row of a namespace, by the worker's number. Contracts see the model's `Worker`. From Submit on it has the plan of its
/// snapshot, until it takes another snapshot.
pub struct Worker {
    evaluation: u64,
    phase: Phase,
    tries: u64,
    kept: Option<Shared<Snapshot>>,
    made: Option<Planned>,
}

impl Drop for Worker {
    fn drop(self) {
        let Worker {
            evaluation: _,
            phase: _phase,
            tries: _,
            kept: _kept,
            made: _made,
        } = self;
    }
}

impl Model for Worker {
    ghost use Rattle.std.specs.Prelude.{◌≡◌};
    ghost use Rattle.ns_types.specs.Working.Worker;
    ghost use Rattle.ns_types.specs.Working.Work.{planned_in};

    ghost Value = { Worker.Worker };

    ghost view = { λ w. record {
      evaluation = w.evaluation;
      phase = w.phase;
      tries = w.tries;
      kept = w.kept;
    } };

    ghost invariant = { λ w. w.made ≡ planned_in w.phase w.kept };
}

impl Worker {
    ghost use Rattle.ns_types.specs.declared.worker.Phase.TheVariants as Phase;

    /// The row of a worker that has dequeued the evaluation of that number and has these tries.
    pub fn took(evaluation: u64, tries: u64) -> Worker
        ensures { result ≡ record {
          evaluation = evaluation;
          phase = Phase.Took;
          tries = tries;
          kept = None;
        } }
    {
        Worker {
            evaluation,
            phase: Phase::Took,
            tries,
            kept: None,
            made: None,
        }
    }

    /// The number of its evaluation in the namespace.
    pub fn evaluation(&self) -> u64
        ensures { result ≡ self.now.evaluation }
    {
        self.evaluation
    }

    /// How far it is with its evaluation.
    pub fn phase(&self) -> Phase
        ensures { result ≡ self.now.phase }
    {
        self.phase
    }

    /// How many tries remain.
    pub fn tries(&self) -> u64
        ensures { result ≡ self.now.tries }
    {
        self.tries
    }

    /// The snapshot that it took last. It determines the plan.
    pub fn kept(&self) -> Option<&Shared<Snapshot>>
        ensures { option_copied result ≡ self.now.kept }
    {
        self.kept.as_ref()
    }

    /// The plan of its snapshot, if it has submitted it.
    pub fn plan(&self) -> Option<&Planned>
        ensures { option_copied result ≡ planned_of self.now }
    {
        self.made.as_ref()
    }

    /// The row after the worker has taken that snapshot.
    pub fn snapped(&self, kept: Shared<Snapshot>) -> Worker
        ensures { result ≡ with_snapshot kept self.now }
    {
        Worker {
            evaluation: self.evaluation,
            phase: Phase::Snapped,
            tries: self.tries,
            kept: Some(kept),
            made: None,
        }
    }

    /// The row after the worker has submitted the plan of its snapshot. Want of memory is the only error.
    pub fn submitted(&self, planned: Planned) -> Result<Worker, AllocError>
        requires { self.now.kept ≡ Some planned }
        ensures { IfOk result (λ w. w ≡ record self.now { phase = Phase.Submitted }) }
    {
        let kept = planned.snapshot().share()?;
        Ok(Worker {
            evaluation: self.evaluation,
            phase: Phase::Submitted,
            tries: self.tries,
            kept: Some(kept),
            made: Some(planned),
        })
    }

    /// The row after its plan was applied, with the tries that remain. Want of memory is the only error.
    pub fn applied(&self, has_dropped: bool, tries: u64) -> Result<Worker, AllocError>
        requires { self.now.phase ≡ Phase.Submitted }
        ensures { IfOk result (λ w. w ≡ record self.now {
          phase = if has_dropped then Phase.Dropped else Phase.Applied;
          tries = tries;
        }) }
    {
        let kept = match &self.kept {
            Some(kept) => Some(kept.share()?),
            None => None,
        };
        let made = match &self.made {
            Some(made) => Some(made.share()?),
            None => None,
        };
        Ok(Worker {
            evaluation: self.evaluation,
            phase: if has_dropped {
                Phase::Dropped
            } else {
                Phase::Applied
            },
            tries,
            kept,
            made,
        })
    }
}
