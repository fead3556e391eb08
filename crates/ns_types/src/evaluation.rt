//! Evaluations: each asks the scheduler to look at a job.

ghost use Rattle.std.specs.Prelude.{◌≡◌};

use crate::job::JobKind;
use crate::node::Class;
use crate::rows::Rows;
use crate::text::Text;
use std::alloc::AllocError;

#[derive(Clone, Copy, PartialEq, Eq)]
pub enum Status {
    Pending,
    Blocked,
    Complete,
    Failed,
    Canceled,
}

/// Why an evaluation was made.
#[derive(Clone, Copy, PartialEq, Eq)]
pub enum Trigger {
    JobRegister,
    JobDeregister,
    NodeUpdate,
    AllocStop,
    AllocFailure,
    Preemption,
    QueuedAllocs,
    MaxPlanAttempts,
}

/// A row of a namespace, by number.
pub struct Evaluation {
    pub job: Text,
    pub kind: JobKind,
    pub priority: u64,
    pub pool: Text,
    pub trigger: Trigger,
    pub status: Status,
    /// The evaluation that it follows.
    pub previous: Option<u64>,
    /// The evaluation that follows it.
    pub follower: Option<u64>,
    /// The quota that ended placing, if one did.
    pub quota: Option<Text>,
    /// Whether it escapes classes: then room on a node of any class may wake it.
    pub escapes: bool,
    /// The classes that were found infeasible: in their order, each once.
    pub infeasible: Rows<Class>,
    pub nacks: u64,
    pub create_index: u64,
    pub modify_index: u64,
}

impl Drop for Evaluation {
    fn drop(self) {
        let Evaluation {
            job: _job,
            kind: _,
            priority: _,
            pool: _pool,
            trigger: _trigger,
            status: _,
            previous: _previous,
            follower: _follower,
            quota: _quota,
            escapes: _,
            infeasible: _infeasible,
            nacks: _,
            create_index: _,
            modify_index: _,
        } = self;
    }
}

impl Clone for Evaluation {
    ghost is_clone = { λ a b. b ≡ a };

    fn clone(&self) -> Result<Evaluation, AllocError> {
        Ok(Evaluation {
            job: self.job.clone()?,
            kind: self.kind,
            priority: self.priority,
            pool: self.pool.clone()?,
            trigger: self.trigger,
            status: self.status,
            previous: self.previous,
            follower: self.follower,
            quota: self.quota.clone()?,
            escapes: self.escapes,
            infeasible: self.infeasible.clone()?,
            nacks: self.nacks,
            create_index: self.create_index,
            modify_index: self.modify_index,
        })
    }
}
