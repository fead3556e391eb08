//! A view of the present state.

ghost use Rattle.std.specs.Prelude.{◌≡◌, option_copied};
ghost use Rattle.ns_types.specs.State.Rows.{World, allocation_at, node_at};
ghost use Rattle.ns_types.specs.State.Sums.{node_load, quota_use};
ghost use Rattle.ns_types.specs.Working.Commit.{quota_named};
ghost use Rattle.ns_plan.specs.Looks.{AreCounted, job_at, limits_of};

use ns_types::allocation::Allocation;
use ns_types::job::Job;
use ns_types::node::Node;
use ns_types::resources::{Limits, Resources};
use ns_types::text::Text;

/// The present state, as a plan is checked against it. It takes no memory.
pub trait View {
    /// The world that it shows.
    ghost world: { Self → World };

    /// The allocation of that number in the namespace.
    fn allocation(&self, namespace: &Text, number: u64) -> Option<&Allocation>
        ensures { option_copied result ≡ allocation_at (world self.now) (namespace.now, number) };

    /// The node of that name in the pool.
    fn node(&self, pool: &Text, name: &Text) -> Option<&Node>
        ensures { option_copied result ≡ node_at (world self.now) pool.now name.now };

    /// The job of that id in the namespace.
    fn job(&self, namespace: &Text, id: &Text) -> Option<&Job>
        ensures { option_copied result ≡ job_at (world self.now) namespace.now id.now };

    /// What the live allocations on a node take together, whether the node exists or not.
    fn load(&self, pool: &Text, node: &Text) -> Resources
        requires { AreCounted (world self.now) }
        ensures { result ≡ node_load (world self.now) pool.now node.now };

    /// The quota that the namespace names.
    fn quota(&self, namespace: &Text) -> Option<&Text>
        ensures { option_copied result ≡ quota_named (world self.now) namespace.now };

    /// The quota's limits. A quota that does not exist limits nothing.
    fn limits(&self, quota: &Text) -> Limits
        ensures { result ≡ limits_of (world self.now) quota.now };

    /// What the live allocations of the namespaces that name the quota take together.
    fn used(&self, quota: &Text) -> Resources
        requires { AreCounted (world self.now) }
        ensures { result ≡ quota_use (world self.now) quota.now };
}
