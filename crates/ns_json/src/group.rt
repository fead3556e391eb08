//! Groups and tasks of a job document.

ghost use Rattle.std.specs.Prelude.{◌≡◌, []};
ghost use Rattle.serde_json.specs.View.{view, items_view};
ghost use Rattle.ns_json.specs.Reading.{Gives, same, each, has_name, or_else, present};
ghost use Rattle.ns_json.specs.Registration.{disk_in, resources_in, default_resources, no_constraints, task_in, tasks_in, group_in, groups_in};

use crate::member;
use crate::member::{MAX_QUANTITY, demanded, list, number_or, object, present};
use ns_types::job::{Group, Task, TaskResources};
use ns_types::name::NameKind;
use ns_types::refusal::{Member, Refusal};
use ns_types::rows::Rows;
use serde_json::Value;
use std::alloc::Global;

#[tactic(auto, unfolding(crate::specs::Registration::resources_in))]
fn resources(value: &Value) -> Result<TaskResources, Refusal>
    ensures { Gives same result (resources_in (view value.now)) }
{
    let resources = object(value, Member::Resources)?;
    let cpu = number_or(resources, Member::Cpu, 1, MAX_QUANTITY, 100)?;
    let memory = number_or(resources, Member::MemoryMb, 1, MAX_QUANTITY, 300)?;
    Ok(TaskResources { cpu, memory })
}

fn resources_or_default(task: &Value) -> Result<TaskResources, Refusal>
    ensures { Gives same result
        (or_else default_resources resources_in (present Member.Resources (view task.now))) }
{
    match present(task, Member::Resources) {
        None => Ok(TaskResources {
            cpu: 100,
            memory: 300,
        }),
        Some(value) => resources(value),
    }
}

#[tactic(auto, unfolding(crate::specs::Registration::disk_in))]
fn disk(value: &Value) -> Result<u64, Refusal>
    ensures { Gives same result (disk_in (view value.now)) }
{
    let disk = object(value, Member::EphemeralDisk)?;
    number_or(disk, Member::SizeMb, 1, MAX_QUANTITY, 300)
}

fn disk_or_default(group: &Value) -> Result<u64, Refusal>
    ensures { Gives same result
        (or_else 300 disk_in (present Member.EphemeralDisk (view group.now))) }
{
    match present(group, Member::EphemeralDisk) {
        None => Ok(300),
        Some(value) => disk(value),
    }
}

/// Refuses constraints of a group or a task: their list has to be empty, null or absent.
#[tactic(auto, unfolding(crate::specs::Registration::no_constraints))]
fn refuse_constraints(value: &Value) -> Result<(), Refusal>
    ensures { Gives (λ u. tt) result (no_constraints (view value.now)) }
{
    if let Some(constraints) = present(value, Member::Constraints) {
        list(constraints, Member::Constraints, 0, 0)?;
    }
    Ok(())
}

fn has_task(tasks: &[Task], name: &str) -> bool
    ensures { result ≡ has_name (λ x. x.name) tasks.now name.now }
{
    tasks.iter().any(|task| task.name.as_str() == name)
}

#[tactic(auto, unfolding(crate::specs::Registration::task_in))]
fn task(alloc: Global, before: &[Task], value: &Value) -> Result<Task, Refusal>
    ensures { Gives same result (task_in before.now (view value.now)) }
{
    let task = object(value, Member::Tasks)?;
    let name = demanded(task, Member::Name)?;
    let name = member::name(alloc, name, Member::Name, NameKind::Task)?;
    if has_task(before, name.as_str()) {
        return Err(Refusal::BadField(Member::Name));
    }
    refuse_constraints(task)?;
    let resources = resources_or_default(task)?;
    Ok(Task { name, resources })
}

#[tactic(auto, unfolding(crate::specs::Registration::tasks_in))]
fn tasks(alloc: Global, value: &Value) -> Result<Rows<Task>, Refusal>
    ensures { Gives same result (tasks_in (view value.now)) }
{
    each_task(alloc, list(value, Member::Tasks, 1, 16)?)
}

fn each_task(alloc: Global, values: &[Value]) -> Result<Rows<Task>, Refusal>
    ensures { Gives same result (each task_in [] (items_view values.now)) }
{
    let mut tasks = Rows::new(alloc);
    for value in values {
        let task = task(alloc, tasks.as_slice(), value)?;
        tasks.push(task)?;
    }
    Ok(tasks)
}

fn has_group(groups: &[Group], name: &str) -> bool
    ensures { result ≡ has_name (λ x. x.name) groups.now name.now }
{
    groups.iter().any(|group| group.name.as_str() == name)
}

#[tactic(auto, unfolding(crate::specs::Registration::group_in))]
fn group(alloc: Global, before: &[Group], value: &Value) -> Result<Group, Refusal>
    ensures { Gives same result (group_in before.now (view value.now)) }
{
    let group = object(value, Member::TaskGroups)?;
    let name = demanded(group, Member::Name)?;
    let name = member::name(alloc, name, Member::Name, NameKind::Group)?;
    if has_group(before, name.as_str()) {
        return Err(Refusal::BadField(Member::Name));
    }
    let count = number_or(group, Member::Count, 0, 1000, 1)?;
    refuse_constraints(group)?;
    let disk = disk_or_default(group)?;
    let listed = demanded(group, Member::Tasks)?;
    let tasks = tasks(alloc, listed)?;
    Ok(Group {
        name,
        count,
        disk,
        tasks,
    })
}

#[tactic(auto, unfolding(crate::specs::Registration::groups_in))]
pub fn groups(alloc: Global, value: &Value) -> Result<Rows<Group>, Refusal>
    ensures { Gives same result (groups_in (view value.now)) }
{
    each_group(alloc, list(value, Member::TaskGroups, 1, 16)?)
}

fn each_group(alloc: Global, values: &[Value]) -> Result<Rows<Group>, Refusal>
    ensures { Gives same result (each group_in [] (items_view values.now)) }
{
    let mut groups = Rows::new(alloc);
    for value in values {
        let group = group(alloc, groups.as_slice(), value)?;
        groups.push(group)?;
    }
    Ok(groups)
}
