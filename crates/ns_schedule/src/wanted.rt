//! Which allocations of the job stop, and which are missing.

ghost use Rattle.std.specs.Prelude.{◌≡◌, ◌++◌, ◌&&◌, IfOk, OnOk, Some};
ghost use Rattle.std.specs.Prelude.{count_by, flat_map, map, replicate};
ghost use Rattle.ns_types.specs.Placing.Wanted.{demands, done, group_size, is_current, is_of};
ghost use Rattle.ns_types.specs.Placing.Wanted.{kept, live_ones, missing, outdated};
ghost use Rattle.ns_types.specs.Placing.Wanted.{stopping, surplus};
ghost use Rattle.ns_types.specs.State.Resources.{IsCounted, total};
ghost use Rattle.ns_types.specs.State.Rows.{is_done, is_live};

use ns_types::allocation::{Allocation, ClientStatus, DesiredStatus};
use ns_types::job::{Group, Job, JobKind};
use ns_types::plan::Demand;
use ns_types::resources::Resources;
use ns_types::snapshot::OwnAllocation;
use std::alloc::{AllocError, Global};

fn is_done(row: &Allocation) -> bool
    ensures { result ≡ is_done row.now }
{
    matches!(row.desired, DesiredStatus::Run) && matches!(row.client, ClientStatus::Complete)
}

/// Whether the allocation was made for the job as it is now.
fn is_current(job: &Job, own: &OwnAllocation) -> bool
    ensures { result ≡ is_current job.now own.now }
{
    own.row.job_modify_index == job.modify_index
}

fn is_of(job: &Job, group: &Group, own: &OwnAllocation) -> bool
    ensures { result ≡ is_of job.now group.now own.now }
{
    is_current(job, own) && own.row.group == group.name
}

/// The group's live allocations that may stay, in the order of their numbers.
fn kept<'a>(
    alloc: Global,
    job: &Job,
    own: &'a [OwnAllocation],
    group: &Group,
) -> Result<Vec<&'a OwnAllocation>, AllocError>
    ensures { IfOk result (λ v. map (λ a. a.now) v.items ≡ kept job.now own.now group.now) }
{
    let mut kept = Vec::new(alloc);
    for a in own {
        if a.row.is_live() && is_of(job, group, a) {
            kept.push(a)?;
        }
    }
    Ok(kept)
}

/// How many of the group's live allocations may stay.
fn kept_count(job: &Job, own: &[OwnAllocation], group: &Group) -> usize
    ensures { result ≡ count_by (λ a. is_live a.row && is_of job.now group.now a) own.now }
{
    own.iter()
        .filter(|a| a.row.is_live() && is_of(job, group, a))
        .count()
}

/// How many of the group's allocations have completed, if the job is a batch job; else zero.
fn done(job: &Job, own: &[OwnAllocation], group: &Group) -> usize
    ensures { result ≡ done job.now own.now group.now }
{
    match job.document.get().kind {
        JobKind::Service => 0,
        JobKind::Batch => own
            .iter()
            .filter(|a| is_done(&a.row) && is_of(job, group, a))
            .count(),
    }
}

/// Adds the group's surplus to the stops: the newest of its allocations that may stay, as many as there are too many.
fn push_surplus<'a>(
    alloc: Global,
    stops: &mut Vec<&'a OwnAllocation>,
    job: &Job,
    own: &'a [OwnAllocation],
    group: &Group,
) -> Result<(), AllocError>
    ensures { OnOk result (map (λ a. a.now) stops.new.items
        ≡ map (λ a. a.now) stops.old.items ++ surplus job.now own.now group.now) }
{
    let kept = kept(alloc, job, own, group)?;
    let there = kept.len() + done(job, own, group);
    let too_many = there.saturating_sub(group.count as usize);
    let (_, newest) = kept
        .as_slice()
        .split_at(kept.len().saturating_sub(too_many));
    stops.extend_from_slice(newest)?;
    Ok(())
}

fn live_ones<'a>(
    alloc: Global,
    own: &'a [OwnAllocation],
) -> Result<Vec<&'a OwnAllocation>, AllocError>
    ensures { IfOk result (λ v. map (λ a. a.now) v.items ≡ live_ones own.now) }
{
    let mut live = Vec::new(alloc);
    for a in own {
        if a.row.is_live() {
            live.push(a)?;
        }
    }
    Ok(live)
}

/// The live allocations that were made for the job as it was before.
fn outdated<'a>(
    alloc: Global,
    job: &Job,
    own: &'a [OwnAllocation],
) -> Result<Vec<&'a OwnAllocation>, AllocError>
    ensures { IfOk result (λ v. map (λ a. a.now) v.items ≡ outdated job.now own.now) }
{
    let mut found = Vec::new(alloc);
    for a in own {
        if a.row.is_live() && !is_current(job, a) {
            found.push(a)?;
        }
    }
    Ok(found)
}

/// What stops of a job that runs: the outdated allocations, and each group's surplus.
fn replaced<'a>(
    alloc: Global,
    job: &Job,
    own: &'a [OwnAllocation],
) -> Result<Vec<&'a OwnAllocation>, AllocError>
    ensures { IfOk result (λ v. map (λ a. a.now) v.items
        ≡ outdated job.now own.now ++ flat_map (surplus job.now own.now) job.now.document.groups) }
{
    let mut stops = outdated(alloc, job, own)?;
    for group in job.document.get().groups.as_slice() {
        push_surplus(alloc, &mut stops, job, own, group)?;
    }
    Ok(stops)
}

/// The allocations that stop. Of a job that is gone or stopped, these are all that are live; else they are the outdated ones,
/// and each group's surplus.
pub(crate) fn stopping<'a>(
    alloc: Global,
    job: &Option<Job>,
    own: &'a [OwnAllocation],
) -> Result<Vec<&'a OwnAllocation>, AllocError>
    ensures { IfOk result (λ v. map (λ a. a.now) v.items ≡ stopping job.now own.now) }
{
    match job {
        Some(job) if !job.stop => replaced(alloc, job, own),
        _ => live_ones(alloc, own),
    }
}

/// How many allocations of the group are missing. It takes no memory.
pub(crate) fn missing(job: &Job, own: &[OwnAllocation], group: &Group) -> u64
    ensures { result ≡ missing job.now own.now group.now }
{
    let there = kept_count(job, own, group) + done(job, own, group);
    group.count.saturating_sub(there as u64)
}

/// What one allocation of the group takes.
fn group_size(group: &Group) -> Resources
    ensures { IsCounted (group_size group.now) → result ≡ group_size group.now }
{
    let mut cpu = 0u64;
    let mut memory = 0u64;
    for t in group.tasks.as_slice() {
        cpu = cpu.saturating_add(t.resources.cpu);
        memory = memory.saturating_add(t.resources.memory);
    }
    let disk = group.disk;
    Resources { cpu, memory, disk }
}

fn push_missing(demands: &mut Vec<Demand>, demand: Demand, count: u64) -> Result<(), AllocError>
    ensures { OnOk result (demands.new.items ≡ demands.old.items ++ replicate count demand) }
{
    for _made in 0..count {
        demands.push(demand)?;
    }
    Ok(())
}

/// The missing allocations, in the order of groups.
pub(crate) fn demands(
    alloc: Global,
    job: &Job,
    own: &[OwnAllocation],
) -> Result<Vec<Demand>, AllocError>
    requires { IsCounted (total (λ d. d.size) (demands (Some job.now) own.now)) }
    ensures { IfOk result (λ v. v.items ≡ demands (Some job.now) own.now) }
{
    let mut demands = Vec::new(alloc);
    if job.stop {
        return Ok(demands);
    }
    let groups = job.document.get().groups.as_slice();
    for i in 0..groups.len() {
        let group = &groups[i];
        let demand = Demand {
            group: i as u64,
            size: group_size(group),
        };
        push_missing(&mut demands, demand, missing(job, own, group))?;
    }
    Ok(demands)
}
