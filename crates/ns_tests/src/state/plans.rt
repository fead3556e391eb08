// A plan stops the allocations with the greatest numbers, if more are live than the job asks for. No request brings that about:
// a job with another count is another version, and all allocations of the earlier version stop.

use crate::state::made::text;
use crate::state::server::groups;
use ns_schedule::plan;
use ns_types::allocation::{Allocation, ClientStatus, DesiredStatus};
use ns_types::evaluation::{Evaluation, Status, Trigger};
use ns_types::job::{Document, Job, JobKind};
use ns_types::planned::Planned;
use ns_types::refusal::Refusal;
use ns_types::resources::Resources;
use ns_types::rows::Rows;
use ns_types::shared::Shared;
use ns_types::snapshot::{OwnAllocation, Snapshot};
use std::alloc::Global;
use std::process::Abort;

/// A service of priority 50, with one group of one.
fn service(rt: &impl Abort, alloc: Global) -> Job {
    let document = Shared::new(
        alloc,
        Document {
            kind: JobKind::Service,
            priority: 50,
            pool: text(rt, alloc, "default"),
            constraints: Rows::new(alloc),
            groups: groups(rt, alloc),
        },
    )
    .expect(rt, "memory");
    Job {
        document,
        stop: false,
        version: 0,
        create_index: 1,
        modify_index: 1,
    }
}

fn evaluation(rt: &impl Abort, alloc: Global) -> Evaluation {
    Evaluation {
        job: text(rt, alloc, "web"),
        kind: JobKind::Service,
        priority: 50,
        pool: text(rt, alloc, "default"),
        trigger: Trigger::JobRegister,
        status: Status::Pending,
        previous: None,
        follower: None,
        quota: None,
        escapes: false,
        infeasible: Rows::new(alloc),
        nacks: 0,
        create_index: 1,
        modify_index: 1,
    }
}

/// An allocation of that job, which runs on a node `n` of the pool `p`.
pub(crate) fn allocation(rt: &impl Abort, alloc: Global) -> Allocation {
    Allocation {
        job: text(rt, alloc, "web"),
        group: text(rt, alloc, "g"),
        evaluation: 1,
        pool: text(rt, alloc, "p"),
        node: text(rt, alloc, "n"),
        place: 1,
        size: Resources {
            cpu: 100,
            memory: 300,
            disk: 300,
        },
        priority: 50,
        job_modify_index: 1,
        desired: DesiredStatus::Run,
        client: ClientStatus::Running,
        create_index: 1,
        modify_index: 1,
    }
}

fn own(rt: &impl Abort, alloc: Global, numbers: &[u64]) -> Rows<OwnAllocation> {
    let mut own = Rows::new(alloc);
    for number in numbers {
        let row = allocation(rt, alloc);
        let number = *number;
        own.push(OwnAllocation { number, row }).expect(rt, "memory");
    }
    own
}

/// The snapshot to plan from. The allocations with these numbers are live.
pub(crate) fn looked(rt: &impl Abort, alloc: Global, live: &[u64]) -> Snapshot {
    Snapshot {
        namespace: text(rt, alloc, "ta"),
        number: 1,
        evaluation: evaluation(rt, alloc),
        job: Some(service(rt, alloc)),
        own: own(rt, alloc, live),
        pool: text(rt, alloc, "default"),
        nodes: Rows::new(alloc),
        release: 0,
        quota: None,
    }
}

fn snapshot(rt: &impl Abort, alloc: Global, live: &[u64]) -> Shared<Snapshot> {
    Shared::new(alloc, looked(rt, alloc, live)).expect(rt, "memory")
}

/// The plan. A call that was refused for want of memory is made again.
fn planned(rt: &impl Abort, alloc: Global, kept: &Shared<Snapshot>) -> Planned {
    let answer = match plan(alloc, kept.share().expect(rt, "memory")) {
        Err(Refusal::Memory) => plan(alloc, kept.share().expect(rt, "memory")),
        answer => answer,
    };
    answer.expect(rt, "a plan")
}

/// Whether the plan stops exactly these allocations, places nothing, and is not short.
fn only_stops(planned: &Planned, stops: &[u64]) -> bool {
    planned.plan().stops.as_slice() == stops
        && planned.plan().placing.placements.as_slice().is_empty()
        && !planned.is_short()
        && !planned.does_nothing()
}

#[test]
fn the_greatest_numbers_stop(rt: HostRuntime) {
    let alloc = rt.alloc();
    let kept = snapshot(&rt, alloc, &[3, 5, 8]);
    let planned = planned(&rt, alloc, &kept);
    drop(kept);
    assert!(rt; only_stops(&planned, &[5, 8]));
}
