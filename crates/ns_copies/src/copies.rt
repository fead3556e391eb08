//! Rows that can be copied.

ghost use Rattle.std.specs.Prelude.{◌≡◌, IfOk};
ghost use Rattle.ns_types.specs.declared.allocation.Allocation.{Allocation};
ghost use Rattle.ns_types.specs.declared.evaluation.Evaluation.{Evaluation};
ghost use Rattle.ns_types.specs.declared.job.Job.{Job};
ghost use Rattle.ns_types.specs.declared.node.Node.{Node};

use ns_change::{copied_allocation, copied_node};
use ns_types::allocation::Allocation;
use ns_types::evaluation::Evaluation;
use ns_types::job::Job;
use ns_types::node::Node;
use std::alloc::{AllocError, Global};

/// A row that can be copied.
pub(crate) trait Copies: Drop {
    /// The row as the model has it, without vacant slots and room.
    ghost Seen: { Type 0 };

    ghost seen: { Self → Seen };

    /// The condition under which the row can be copied.
    ghost IsWhole: { Self → Type 0 };

    /// A copy. Want of memory is the only error.
    fn copied(&self, alloc: Global) -> Result<Self, AllocError>
        requires { IsWhole self.now }
        ensures { IfOk result (λ copy. seen copy ≡ seen self.now) };
}

impl Copies for Job {
    ghost Seen = { Job };

    ghost seen = { λ job. job };

    ghost IsWhole = { λ _. Unit {0} };

    fn copied(&self, _alloc: Global) -> Result<Job, AllocError> {
        self.clone()
    }
}

impl Copies for Evaluation {
    ghost Seen = { Evaluation };

    ghost seen = { λ row. row };

    ghost IsWhole = { λ _. Unit {0} };

    fn copied(&self, _alloc: Global) -> Result<Evaluation, AllocError> {
        self.clone()
    }
}

impl Copies for Allocation {
    ghost Seen = { Allocation };

    ghost seen = { λ row. row };

    ghost IsWhole = { λ _. Unit {0} };

    fn copied(&self, _alloc: Global) -> Result<Allocation, AllocError> {
        copied_allocation(self)
    }
}

impl Copies for Node {
    ghost Seen = { Node };

    ghost seen = { λ row. row };

    ghost IsWhole = { λ _. Unit {0} };

    fn copied(&self, _alloc: Global) -> Result<Node, AllocError> {
        copied_node(self)
    }
}
