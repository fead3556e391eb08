//! Whether the sums that a plan is computed with are below 2^64. It takes no memory.

ghost use Rattle.std.specs.Prelude.{◌≡◌, SomeIff, unwrap_or};
ghost use Rattle.std.specs.List.{list_all};
ghost use Rattle.ns_types.specs.Placing.Plan.{no_quota};
ghost use Rattle.ns_types.specs.Placing.Wanted.{demands, demands_from, group_size, missing};
ghost use Rattle.ns_types.specs.State.Resources.{IsCounted, plus, times, total};
ghost use Rattle.ns_schedule.specs.Fits.{fits, node_fits, quota_fits, tasks_size};

use crate::wanted::missing;
use ns_types::job::{Group, Job, Task};
use ns_types::live_rows::LiveRows;
use ns_types::resources::{Resources, checked_more, checked_plus, none};
use ns_types::shared::Shared;
use ns_types::snapshot::{OwnAllocation, PoolNode, QuotaSeen, Snapshot};

fn checked_load(capacity: Resources, live: &LiveRows) -> Option<Resources>
    ensures { let both = plus capacity (total (λ a. a.size) live.now) in
        SomeIff result (IsCounted both) both }
{
    match live.load() {
        Some(load) => checked_plus(capacity, load),
        None => None,
    }
}

fn node_fits(node: &PoolNode) -> bool
    ensures { result ≡ node_fits node.now }
{
    checked_load(node.row.offer.capacity, &node.live).is_some()
}

fn nodes_fit(nodes: &[Shared<PoolNode>]) -> bool
    ensures { result ≡ list_all node_fits nodes.now }
{
    nodes.iter().all(|n| node_fits(n.get()))
}

/// What the tasks take together, with that much disk. None: it does not fit 64 bits.
fn checked_tasks(tasks: &[Task], disk: u64) -> Option<Resources>
    ensures { let size = tasks_size tasks.now disk in
        SomeIff result (IsCounted size) size }
{
    let mut sum = Resources {
        cpu: 0,
        memory: 0,
        disk,
    };
    for t in tasks {
        let cpu = sum.cpu.checked_add(t.resources.cpu)?;
        let memory = sum.memory.checked_add(t.resources.memory)?;
        sum = Resources { cpu, memory, disk };
    }
    Some(sum)
}

/// What one allocation of the group takes. None: it does not fit 64 bits.
fn checked_size(group: &Group) -> Option<Resources>
    ensures { let size = group_size group.now in
        SomeIff result (IsCounted size) size }
{
    checked_tasks(group.tasks.as_slice(), group.disk)
}

/// The sum with what the group's missing allocations take. None: it does not fit 64 bits.
fn checked_missing(
    sum: Resources,
    job: &Job,
    own: &[OwnAllocation],
    group: &Group,
) -> Option<Resources>
    ensures { let more = times (missing job.now own.now group.now) (group_size group.now) in
        SomeIff result (IsCounted (plus sum more)) (plus sum more) }
{
    let count = missing(job, own, group);
    if count == 0 {
        return Some(sum);
    }
    let size = checked_size(group)?;
    checked_more(sum, count, size)
}

/// What is used with what all missing allocations of the job take. None: it does not fit 64 bits.
fn checked_demands(used: Resources, job: &Job, own: &[OwnAllocation]) -> Option<Resources>
    ensures { let missing = demands_from 0 job.now own.now job.now.document.groups in
        let all = total (λ d. d.size) missing in
        SomeIff result (IsCounted (plus used all)) (plus used all) }
{
    let mut sum = used;
    for group in job.document.get().groups.as_slice() {
        sum = checked_missing(sum, job, own, group)?;
    }
    Some(sum)
}

fn used_of(quota: &Option<QuotaSeen>) -> Resources
    ensures { result ≡ (unwrap_or quota.now no_quota).used }
{
    match quota {
        Some(quota) => quota.used,
        None => none(),
    }
}

fn checked_wanted(used: Resources, job: &Option<Job>, own: &[OwnAllocation]) -> Option<Resources>
    ensures { let all = total (λ d. d.size) (demands job.now own.now) in
        SomeIff result (IsCounted (plus used all)) (plus used all) }
{
    match job {
        Some(job) if !job.stop => checked_demands(used, job, own),
        _ => Some(used),
    }
}

fn quota_fits(snapshot: &Snapshot) -> bool
    ensures { result ≡ quota_fits snapshot.now }
{
    let used = used_of(&snapshot.quota);
    checked_wanted(used, &snapshot.job, snapshot.own.as_slice()).is_some()
}

/// Whether all sums that a plan of the snapshot needs fit 64 bits.
pub(crate) fn fits(snapshot: &Snapshot) -> bool
    ensures { result ≡ fits snapshot.now }
{
    nodes_fit(snapshot.nodes.as_slice()) && quota_fits(snapshot)
}
