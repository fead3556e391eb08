//! Compares two documents of jobs, member by member.

ghost use Rattle.std.specs.Prelude.{◌≡◌};
ghost use Rattle.std.specs.Cmp.Lexicographic.{pointwise};
ghost use Rattle.ns_types.specs.State.Names.{same_name};
ghost use Rattle.ns_types.specs.Settling.Same.{same_constraint, same_document, same_group, same_task};
ghost use Rattle.ns_types.specs.Wire.Words.{operand_text, target_text};

use crate::keys::same_number;
use crate::rows::same_kind;
use ns_types::job::{Constraint, Document, Group, Operand, Target, Task};
use ns_types::text::same_text;

fn same_operand(a: Operand, b: Operand) -> bool
    ensures { result ≡ same_name (operand_text a) (operand_text b) }
{
    match a {
        Operand::Equal => matches!(b, Operand::Equal),
        Operand::NotEqual => matches!(b, Operand::NotEqual),
    }
}

fn same_target(a: &Target, b: &Target) -> bool
    ensures { result ≡ same_name (target_text a.now) (target_text b.now) }
{
    match (a, b) {
        (Target::NodeClass, Target::NodeClass) | (Target::NodeName, Target::NodeName) => true,
        (Target::Attribute(key), Target::Attribute(other)) => same_text(key, other),
        _ => false,
    }
}

fn same_constraint(a: &Constraint, b: &Constraint) -> bool
    ensures { result ≡ same_constraint a.now b.now }
{
    same_target(&a.target, &b.target)
        && same_operand(a.operand, b.operand)
        && same_text(&a.value, &b.value)
}

fn same_task(a: &Task, b: &Task) -> bool
    ensures { result ≡ same_task a.now b.now }
{
    same_text(&a.name, &b.name)
        && same_number(a.resources.cpu, b.resources.cpu)
        && same_number(a.resources.memory, b.resources.memory)
}

fn same_tasks(a: &[Task], b: &[Task]) -> bool
    ensures { result ≡ pointwise same_task a.now b.now }
{
    match (a, b) {
        ([], []) => true,
        ([first, others @ ..], [second, more @ ..]) => {
            same_task(first, second) && same_tasks(others, more)
        }
        _ => false,
    }
}

fn same_group(a: &Group, b: &Group) -> bool
    ensures { result ≡ same_group a.now b.now }
{
    same_text(&a.name, &b.name)
        && same_number(a.count, b.count)
        && same_number(a.disk, b.disk)
        && same_tasks(a.tasks.as_slice(), b.tasks.as_slice())
}

fn same_groups(a: &[Group], b: &[Group]) -> bool
    ensures { result ≡ pointwise same_group a.now b.now }
{
    match (a, b) {
        ([], []) => true,
        ([first, others @ ..], [second, more @ ..]) => {
            same_group(first, second) && same_groups(others, more)
        }
        _ => false,
    }
}

fn same_constraints(a: &[Constraint], b: &[Constraint]) -> bool
    ensures { result ≡ pointwise same_constraint a.now b.now }
{
    match (a, b) {
        ([], []) => true,
        ([first, others @ ..], [second, more @ ..]) => {
            same_constraint(first, second) && same_constraints(others, more)
        }
        _ => false,
    }
}

/// Whether the documents are equal in every member.
pub fn same_document(a: &Document, b: &Document) -> bool
    ensures { result ≡ same_document a.now b.now }
{
    same_kind(a.kind, b.kind)
        && same_number(a.priority, b.priority)
        && same_text(&a.pool, &b.pool)
        && same_constraints(a.constraints.as_slice(), b.constraints.as_slice())
        && same_groups(a.groups.as_slice(), b.groups.as_slice())
}
