//! Whether a job may use a node at all. Nomad's page on the constraint block of a job specification.

ghost use Rattle.std.specs.Prelude.{◌≡◌, option_copied};
ghost use Rattle.std.specs.List.{list_all};
ghost use Rattle.ns_types.specs.Placing.Constraint.{attribute_of, compares, holds, is_feasible};

use ns_equality::is_free;
use ns_types::job::{Constraint, Operand, Target};
use ns_types::node::Node;
use ns_types::text::Text;

fn compares(operand: Operand, value: Option<&Text>, text: &Text) -> bool
    ensures { result ≡ compares operand (option_copied value.entry) text.now }
{
    match (operand, value) {
        (Operand::Equal, Some(value)) => value == text,
        (Operand::Equal, None) => false,
        (Operand::NotEqual, Some(value)) => value != text,
        (Operand::NotEqual, None) => true,
    }
}

fn attribute_of<'a>(node: &'a Node, key: &Text) -> Option<&'a Text>
    ensures { option_copied result ≡ attribute_of node.now key.now }
{
    let attributes = node.offer.attributes.as_slice();
    let found = attributes.iter().find(|a| a.key == *key)?;
    Some(&found.value)
}

/// Whether the constraint is met on the node of that name. It takes no memory.
pub fn holds(name: &Text, node: &Node, constraint: &Constraint) -> bool
    ensures { result ≡ holds name.now node.now constraint.now }
{
    let text = &constraint.value;
    match &constraint.target {
        Target::NodeClass => compares(constraint.operand, Some(&node.offer.class), text),
        Target::NodeName => compares(constraint.operand, Some(name), text),
        Target::Attribute(key) => compares(constraint.operand, attribute_of(node, key), text),
    }
}

fn all_hold(constraints: &[Constraint], name: &Text, node: &Node) -> bool
    ensures { result ≡ list_all (holds name.now node.now) constraints.now }
{
    constraints.iter().all(|c| holds(name, node, c))
}

/// Whether the job may use the node, which has that name: it is ready and eligible, and meets all constraints. An attribute
/// that the node does not have differs from every text. It takes no memory.
pub fn feasible(constraints: &[Constraint], name: &Text, node: &Node) -> bool
    ensures { result ≡ is_feasible constraints.now name.now node.now }
{
    is_free(node) && all_hold(constraints, name, node)
}
