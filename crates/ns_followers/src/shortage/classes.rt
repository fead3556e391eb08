//! The classes that a follower remembers.

ghost use Rattle.std.specs.Prelude.{◌≡◌, IfOk};
ghost use Rattle.ns_types.specs.Placing.Plan.{infeasible_classes};
ghost use Rattle.ns_followers.specs.Remembered.{infeasible_among};

use crate::shortage::constraints::{constraints_of, is_class_infeasible};
use crate::shortage::order::add;
use ns_equality::class_of;
use ns_types::job::Constraint;
use ns_types::node::Class;
use ns_types::rows::Rows;
use ns_types::shared::Shared;
use ns_types::snapshot::{PoolNode, Snapshot};
use std::alloc::{AllocError, Global};

fn infeasible_among(
    alloc: Global,
    constraints: &[Constraint],
    nodes: &[Shared<PoolNode>],
) -> Result<Vec<Class>, AllocError>
    ensures { IfOk result (λ v. v.items ≡ infeasible_among constraints.now nodes.now) }
{
    let mut classes = Vec::new(alloc);
    for i in (0..nodes.len()).rev() {
        let node = nodes[i].get();
        if is_class_infeasible(constraints, &node.name, &node.row) {
            add(&mut classes, class_of(alloc, &node.row)?)?;
        }
    }
    Ok(classes)
}

/// The classes of the snapshot's nodes on which a constraint fails that does not escape classes: in the order of classes, each
/// once. Want of memory is the only error.
pub fn infeasible_classes(alloc: Global, snapshot: &Snapshot) -> Result<Rows<Class>, AllocError>
    ensures { IfOk result (λ classes. classes ≡ infeasible_classes snapshot.now) }
{
    let constraints = constraints_of(&snapshot.job);
    let classes = infeasible_among(alloc, constraints, snapshot.nodes.as_slice())?;
    Ok(Rows::from_vec(classes))
}
