//! A plan, with the snapshot that it was made from.

ghost use Rattle.std.specs.Prelude.{◌≡◌, IfOk};
ghost use Rattle.ns_types.specs.Placing.Plan.{does_nothing, is_short, plan};

use crate::plan::Plan;
use crate::shared::Shared;
use crate::snapshot::Snapshot;
use std::alloc::AllocError;
use std::marker::Model;

/// A snapshot with its plan. Contracts see the snapshot, which determines the plan.
pub struct Planned {
    snapshot: Shared<Snapshot>,
    made: Shared<Plan>,
}

impl Drop for Planned {
    fn drop(self) {
        let Planned {
            snapshot: _snapshot,
            made: _made,
        } = self;
    }
}

impl Model for Planned {
    ghost use Rattle.std.specs.Prelude.{◌≡◌};
    ghost use Rattle.ns_types.specs.declared.snapshot.Snapshot.{Snapshot};
    ghost use Rattle.ns_types.specs.Placing.Plan.{plan};

    ghost Value = { Snapshot };

    ghost view = { λ p. p.snapshot };

    ghost invariant = { λ p. p.made ≡ plan p.snapshot };
}

impl Planned {
    /// The snapshot with the plan that was made of it.
    pub fn new(snapshot: Shared<Snapshot>, made: Shared<Plan>) -> Planned
        requires { made ≡ plan snapshot }
        ensures { result ≡ snapshot }
    {
        Planned { snapshot, made }
    }

    /// The snapshot that the plan was made from.
    pub fn snapshot(&self) -> &Shared<Snapshot>
        ensures { result.now ≡ self.now }
    {
        &self.snapshot
    }

    /// The plan: its stops by number, and its placements by the places of groups and nodes in the snapshot.
    pub fn plan(&self) -> &Plan
        ensures { result.now ≡ plan self.now }
    {
        self.made.get()
    }

    /// Another owner of the same plan and snapshot, which are not copied.
    pub fn share(&self) -> Result<Planned, AllocError>
        ensures { IfOk result (λ p. p ≡ self.now) }
    {
        let snapshot = self.snapshot.share()?;
        let made = self.made.share()?;
        Ok(Planned { snapshot, made })
    }

    /// Whether the plan neither stops nor places. It takes no memory.
    pub fn does_nothing(&self) -> bool
        ensures { result ≡ does_nothing (plan self.now) }
    {
        let plan = self.plan();
        plan.stops.as_slice().is_empty() && plan.placing.placements.as_slice().is_empty()
    }

    /// Whether a missing allocation was not placed. It takes no memory.
    pub fn is_short(&self) -> bool
        ensures { result ≡ is_short (plan self.now) }
    {
        let placing = &self.plan().placing;
        placing.quota_limited || placing.class_limited
    }
}
