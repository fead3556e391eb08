//! What a job's constraints say of a node's class. Nomad's page on the constraint block of a job specification.

ghost use Rattle.std.specs.Prelude.{◌≡◌};
ghost use Rattle.std.specs.List.{list_any};
ghost use Rattle.ns_types.specs.Placing.Constraint.{escapes, is_class_infeasible, target_escapes};
ghost use Rattle.ns_types.specs.Placing.Plan.{any_escapes, constraints_of};

use ns_equality::is_unique;
use ns_place::holds;
use ns_types::job::{Constraint, Job, Target};
use ns_types::node::Node;
use ns_types::snapshot::Snapshot;
use ns_types::text::Text;

fn target_escapes(target: &Target) -> bool
    ensures { result ≡ target_escapes target.now }
{
    match target {
        Target::NodeClass => false,
        Target::NodeName => true,
        Target::Attribute(key) => is_unique(key),
    }
}

/// Whether a constraint that does not escape classes fails on the node, which has that name, and so on each node of its class.
/// It takes no memory.
pub fn is_class_infeasible(constraints: &[Constraint], name: &Text, node: &Node) -> bool
    ensures { result ≡ is_class_infeasible constraints.now name.now node.now }
{
    constraints
        .iter()
        .any(|c| !target_escapes(&c.target) && !holds(name, node, c))
}

pub(crate) fn constraints_of(job: &Option<Job>) -> &[Constraint]
    ensures { result.now ≡ constraints_of job.now }
{
    match job {
        Some(job) => job.document.get().constraints.as_slice(),
        None => &[],
    }
}

fn some_escapes(constraints: &[Constraint]) -> bool
    ensures { result ≡ list_any escapes constraints.now }
{
    constraints.iter().any(|c| target_escapes(&c.target))
}

/// Whether some constraint of the job looks at what is not part of a node's class. It takes no memory.
pub fn escapes(snapshot: &Snapshot) -> bool
    ensures { result ≡ any_escapes snapshot.now }
{
    some_escapes(constraints_of(&snapshot.job))
}
