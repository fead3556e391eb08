//! The parts of a job, as logs and replies have them.

ghost use Rattle.std.specs.Prelude.{◌≡◌, IfOk, OnOk, string_bytes, ◌∷◌, []};
ghost use Rattle.std.specs.List.{flat_map};
ghost use Rattle.json.specs.Token.{string};
ghost use Rattle.ns_types.specs.Wire.Words.{target_text, operand_text, kind_text, job_status_text};
ghost use Rattle.ns_json.specs.Part.{Adds, Follows, tokens_of};
ghost use Rattle.ns_json.specs.Rendering.{constraint_json, task_json, group_json};

use crate::part::{Part, write_parts};
use json::Writer;
use ns_types::job::{Constraint, Group, JobKind, Operand, Target, Task};
use ns_types::reply::JobStatus;
use std::alloc::{AllocError, Global};

/// The word for a job's status.
pub fn status_text<'a>(status: JobStatus) -> &'a str
    ensures { result.now ≡ job_status_text status }
{
    match status {
        JobStatus::Dead => "dead",
        JobStatus::Running => "running",
        JobStatus::Pending => "pending",
    }
}

/// The word for a job's type.
pub fn kind_text(kind: JobKind) -> &'static str
    ensures { result.now ≡ kind_text kind }
{
    match kind {
        JobKind::Service => "service",
        JobKind::Batch => "batch",
    }
}

pub(crate) fn operand_text<'a>(operand: Operand) -> &'a str
    ensures { result.now ≡ operand_text operand }
{
    match operand {
        Operand::Equal => "=",
        Operand::NotEqual => "!=",
    }
}

pub(crate) fn target_text(alloc: Global, target: &Target) -> Result<String, AllocError>
    ensures { IfOk result (λ s. string_bytes s ≡ target_text target.now) }
{
    match target {
        Target::NodeClass => String::from_str(alloc, "${node.class}"),
        Target::NodeName => String::from_str(alloc, "${node.unique.name}"),
        Target::Attribute(key) => {
            let mut text = String::from_str(alloc, "${attr.")?;
            text.push_str(key.as_str())?;
            text.push_str("}")?;
            Ok(text)
        }
    }
}

fn write_text(out: &mut Writer, text: &String) -> Result<(), AllocError>
    ensures { Adds result out.old out.new (string (string_bytes text.now) ∷ []) }
{
    write_parts(out, &[Part::Text(text.as_str())])
}

#[tactic(auto, unfolding(crate::specs::Rendering::constraint_json))]
fn write_constraint(
    out: &mut Writer,
    alloc: Global,
    constraint: &Constraint,
) -> Result<(), AllocError>
    ensures { OnOk result (Follows out.old out.new (tokens_of (constraint_json constraint.now))) }
{
    let target = target_text(alloc, &constraint.target)?;
    write_parts(out, &[Part::BeginObject, Part::Key("LTarget")])?;
    write_text(out, &target)?;
    write_parts(
        out,
        &[
            Part::Key("Operand"),
            Part::Text(operand_text(constraint.operand)),
            Part::Key("RTarget"),
            Part::Text(constraint.value.as_str()),
            Part::EndObject,
        ],
    )
}

/// Writes the constraints, one after the other.
pub fn write_constraints(
    out: &mut Writer,
    alloc: Global,
    constraints: &[Constraint],
) -> Result<(), AllocError>
    ensures { OnOk result (Follows out.old out.new
        (flat_map (λ c. tokens_of (constraint_json c)) constraints.now)) }
{
    for constraint in constraints {
        write_constraint(out, alloc, constraint)?;
    }
    Ok(())
}

#[tactic(auto, unfolding(crate::specs::Rendering::task_json))]
fn write_task(out: &mut Writer, task: &Task) -> Result<(), AllocError>
    ensures { OnOk result (Follows out.old out.new (tokens_of (task_json task.now))) }
{
    write_parts(
        out,
        &[
            Part::BeginObject,
            Part::Key("Name"),
            Part::Text(task.name.as_str()),
            Part::Key("Resources"),
            Part::BeginObject,
            Part::Key("CPU"),
            Part::Number(task.resources.cpu),
            Part::Key("MemoryMB"),
            Part::Number(task.resources.memory),
            Part::EndObject,
            Part::EndObject,
        ],
    )
}

fn write_tasks(out: &mut Writer, tasks: &[Task]) -> Result<(), AllocError>
    ensures { OnOk result (Follows out.old out.new
        (flat_map (λ t. tokens_of (task_json t)) tasks.now)) }
{
    for task in tasks {
        write_task(out, task)?;
    }
    Ok(())
}

#[tactic(auto, unfolding(crate::specs::Rendering::group_json))]
fn write_group(out: &mut Writer, group: &Group) -> Result<(), AllocError>
    ensures { OnOk result (Follows out.old out.new (tokens_of (group_json group.now))) }
{
    write_parts(
        out,
        &[
            Part::BeginObject,
            Part::Key("Count"),
            Part::Number(group.count),
            Part::Key("EphemeralDisk"),
            Part::BeginObject,
            Part::Key("SizeMB"),
            Part::Number(group.disk),
            Part::EndObject,
            Part::Key("Name"),
            Part::Text(group.name.as_str()),
            Part::Key("Tasks"),
            Part::BeginArray,
        ],
    )?;
    write_tasks(out, group.tasks.as_slice())?;
    write_parts(out, &[Part::EndArray, Part::EndObject])
}

/// Writes the groups, one after the other.
pub fn write_groups(out: &mut Writer, groups: &[Group]) -> Result<(), AllocError>
    ensures { OnOk result (Follows out.old out.new
        (flat_map (λ g. tokens_of (group_json g)) groups.now)) }
{
    for group in groups {
        write_group(out, group)?;
    }
    Ok(())
}
