//! Allocations: what was placed on nodes.

ghost use Rattle.std.specs.Prelude.{◌≡◌};
ghost use Rattle.ns_types.specs.State.Rows.{is_live};

use crate::resources::Resources;
use crate::text::Text;

#[derive(Clone, Copy, PartialEq, Eq)]
pub enum DesiredStatus {
    Run,
    Stop,
    Evict,
}

#[derive(Clone, Copy, PartialEq, Eq)]
pub enum ClientStatus {
    Pending,
    Running,
    Complete,
    Failed,
    Lost,
}

/// A row of a namespace, by number.
pub struct Allocation {
    pub job: Text,
    pub group: Text,
    pub evaluation: u64,
    pub pool: Text,
    pub node: Text,
    /// Its place in its node's order of placement.
    pub place: u64,
    pub size: Resources,
    pub priority: u64,
    pub job_modify_index: u64,
    pub desired: DesiredStatus,
    pub client: ClientStatus,
    pub create_index: u64,
    pub modify_index: u64,
}

impl Drop for Allocation {
    fn drop(self) {
        let Allocation {
            job: _job,
            group: _group,
            evaluation: _,
            pool: _pool,
            node: _node,
            place: _,
            size: _,
            priority: _,
            job_modify_index: _,
            desired: _,
            client: _,
            create_index: _,
            modify_index: _,
        } = self;
    }
}

impl Allocation {
    /// Whether it is live: its desired status is `run`, and its client status is `pending` or `running`.
    pub fn is_live(&self) -> bool
        ensures { result ≡ is_live self.now }
    {
        matches!(self.desired, DesiredStatus::Run)
            && matches!(self.client, ClientStatus::Pending | ClientStatus::Running)
    }
}
