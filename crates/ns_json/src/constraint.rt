//! Constraints of a job document.

ghost use Rattle.std.specs.Prelude.{◌≡◌, [], option_map};
ghost use Rattle.serde_json.specs.View.{view, items_view};
ghost use Rattle.ns_json.specs.Reading.{Gives, same, each, or_refuse};
ghost use Rattle.ns_json.specs.Registration.{attribute_key, target_of, operand_of, compared_in, constraint_in, constraint_after, constraints_in};

use crate::member::{demanded, list, object, text};
use ns_types::job::{Constraint, Operand, Target};
use ns_types::refusal::{Member, Refusal};
use ns_types::rows::Rows;
use ns_types::text::Text;
use serde_json::Value;
use std::alloc::Global;

/// The key in `${attr.KEY}`. None if the text is not of that form.
#[tactic(auto, unfolding(crate::specs::Registration::attribute_key))]
fn attribute_key(text: &str) -> Option<&str>
    ensures { option_map (λ k. k.now) result ≡ attribute_key text.now }
{
    text.strip_prefix("${attr.")?.strip_suffix("}")
}

#[tactic(auto, unfolding(crate::specs::Registration::target_of))]
fn target(alloc: Global, text: &str) -> Result<Target, Refusal>
    ensures { Gives same result (or_refuse Member.LeftTarget (target_of text.now)) }
{
    if text == "${node.class}" {
        return Ok(Target::NodeClass);
    }
    if text == "${node.unique.name}" {
        return Ok(Target::NodeName);
    }
    match attribute_key(text) {
        Some(key) => Ok(Target::Attribute(Text::from_str(alloc, key)?)),
        None => Err(Refusal::BadField(Member::LeftTarget)),
    }
}

#[tactic(auto, unfolding(crate::specs::Registration::operand_of))]
fn operand(text: &str) -> Result<Operand, Refusal>
    ensures { Gives same result (or_refuse Member.Operand (operand_of text.now)) }
{
    if text == "=" {
        return Ok(Operand::Equal);
    }
    if text == "!=" {
        return Ok(Operand::NotEqual);
    }
    Err(Refusal::BadField(Member::Operand))
}

/// The operand and the value of a constraint.
#[tactic(auto, unfolding(crate::specs::Registration::compared_in))]
fn compared(alloc: Global, constraint: &Value) -> Result<(Operand, Text), Refusal>
    ensures { Gives same result (compared_in (view constraint.now)) }
{
    let right = demanded(constraint, Member::RightTarget)?;
    let right = text(right, Member::RightTarget)?;
    let named = demanded(constraint, Member::Operand)?;
    let operand = operand(text(named, Member::Operand)?)?;
    Ok((operand, Text::from_str(alloc, right)?))
}

#[tactic(auto, unfolding(crate::specs::Registration::constraint_in))]
fn constraint(alloc: Global, value: &Value) -> Result<Constraint, Refusal>
    ensures { Gives same result (constraint_in (view value.now)) }
{
    let constraint = object(value, Member::Constraints)?;
    let left = demanded(constraint, Member::LeftTarget)?;
    let target = target(alloc, text(left, Member::LeftTarget)?)?;
    match compared(alloc, constraint) {
        Ok((operand, value)) => Ok(Constraint {
            target,
            operand,
            value,
        }),
        Err(refusal) => {
            drop(target);
            Err(refusal)
        }
    }
}

#[tactic(auto, unfolding(crate::specs::Registration::constraints_in))]
pub fn constraints(alloc: Global, value: &Value) -> Result<Rows<Constraint>, Refusal>
    ensures { Gives same result (constraints_in (view value.now)) }
{
    each_constraint(alloc, list(value, Member::Constraints, 0, 16)?)
}

fn each_constraint(alloc: Global, values: &[Value]) -> Result<Rows<Constraint>, Refusal>
    ensures { Gives same result (each constraint_after [] (items_view values.now)) }
{
    let mut constraints = Rows::new(alloc);
    for value in values {
        let constraint = constraint(alloc, value)?;
        constraints.push(constraint)?;
    }
    Ok(constraints)
}
