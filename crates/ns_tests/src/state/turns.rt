// A copy of a core has no queues yet, and finds the next evaluation in its tables. It serves and wakes the same evaluations as
// the core, in the same order. Each expected order is written by hand.
ghost use Rattle.std.specs.Prelude.{IsTrue, true};
ghost use Rattle.std.specs.Option.{option_map_or};
ghost use Rattle.ns_types.specs.State.Limits.{is_pool_name};

use crate::state::blocked::{KeyText, is_key};
use crate::state::jobs::registration_of;
use crate::state::made::{copied, text};
use crate::state::owned::{seen, with};
use crate::state::runs::{node_command, team, told};
use crate::state::server::with_core;
use ns_core::Core;
use ns_replay::model_run::step;
use ns_types::good::GoodAdmin;
use ns_types::records::Pool;
use ns_types::step::{AdminCommand, Step};
use ns_types::text::Text;
use std::alloc::Global;
use std::process::Abort;

/// A job: the key of its first evaluation, its priority, and whether its pool is `gpu`.
type AskedJob<'a> = (KeyText<'a>, u64, bool);

// ---- steps

/// Whether the step is made, and not refused.
fn is_made(alloc: Global, core: &mut Core, wanted: Step) -> bool {
    let told = seen(step(alloc, core, &wanted), told);
    drop(wanted);
    told.0 > 1
}

/// Puts the pool `gpu`.
fn gpu(rt: &impl Abort, alloc: Global, root: &Text) -> Step {
    let record = Pool {
        description: text(rt, alloc, ""),
    };
    let command = AdminCommand::PutPool(text(rt, alloc, "gpu"), record);
    Step::Admin(Some(copied(rt, root)), GoodAdmin::new(command))
}

fn pool(rt: &impl Abort, alloc: Global, gpu: bool) -> Option<Text>
    ensures { IsTrue (option_map_or is_pool_name result true) }
{
    if gpu {
        Some(text(rt, alloc, "gpu"))
    } else {
        None
    }
}

/// Registers the job. Its id is the number of its evaluation.
fn registered(rt: &impl Abort, alloc: Global, root: &Text, (key, priority, gpu): AskedJob) -> Step {
    assert!(rt; 1 <= priority && priority <= 100);
    let pool = pool(rt, alloc, gpu);
    let command = registration_of(rt, alloc, key.1, priority, pool);
    Step::Ask(text(rt, alloc, key.0), Some(copied(rt, root)), command)
}

/// Puts the second namespace and the second pool. Returns whether both were put.
fn begins(rt: &impl Abort, alloc: Global, core: &mut Core, root: &Text) -> bool {
    let team = team(rt, alloc, root);
    let gpu = gpu(rt, alloc, root);
    is_made(alloc, core, team) & is_made(alloc, core, gpu)
}

// ---- the next evaluation

pub(crate) fn is_served(core: &Core, wanted: KeyText) -> bool {
    match core.served() {
        Some(key) => is_key(key, wanted),
        None => false,
    }
}

fn is_busy(core: &Core, worker: u64, (namespace, number): KeyText) -> bool {
    match core.phase(worker) {
        Some(busy) => busy.namespace.as_str() == namespace && busy.evaluation == number,
        None => false,
    }
}

/// Whether this is the next evaluation, and the worker that dequeues it is busy with it.
fn takes(rt: &impl Abort, alloc: Global, core: &mut Core, worker: u64, wanted: KeyText) -> bool {
    let served = is_served(core, wanted);
    let dequeue = Step::Dequeue(worker, text(rt, alloc, wanted.0), wanted.1);
    served & is_made(alloc, core, dequeue) & is_busy(core, worker, wanted)
}

// ---- tests

/// Jobs of several priorities, mixed. Within a priority the order is not always that of their keys.
static JOBS: [AskedJob; 9] = [
    (("default", 1), 40, false),
    (("team", 1), 70, false),
    (("default", 2), 10, false),
    (("team", 2), 10, false),
    (("default", 3), 70, false),
    (("team", 3), 90, false),
    (("team", 4), 40, false),
    (("default", 4), 70, false),
    (("team", 5), 55, false),
];

/// The order in which the evaluations are dequeued, and whether each is then nacked: it comes after the others of its priority.
static SERVED: [(KeyText, bool); 13] = [
    (("team", 3), false),
    (("team", 1), true),
    (("default", 3), false),
    (("default", 4), false),
    (("team", 1), true),
    (("team", 1), false),
    (("team", 5), false),
    (("default", 1), true),
    (("team", 4), false),
    (("default", 1), false),
    (("default", 2), true),
    (("team", 2), false),
    (("default", 2), false),
];

/// Whether a copy of the core dequeues the same evaluation as the core, and a later copy has the worker as busy.
fn both_take(
    rt: &impl Abort,
    alloc: Global,
    core: &mut Core,
    worker: u64,
    wanted: KeyText,
) -> bool {
    let copy = core.copy(alloc);
    let copy_takes = with(rt, copy, |copy| takes(rt, alloc, copy, worker, wanted));
    let core_takes = takes(rt, alloc, core, worker, wanted);
    let copy = core.copy(alloc);
    copy_takes & core_takes & with(rt, copy, |copy| is_busy(copy, worker, wanted))
}

fn serves_all(rt: &impl Abort, alloc: Global, core: &mut Core) -> bool {
    let mut right = true;
    for (worker, (wanted, is_back)) in SERVED.iter().enumerate() {
        let worker = worker as u64;
        right &= both_take(rt, alloc, core, worker, *wanted);
        if *is_back {
            let nack = Step::Nack(worker, text(rt, alloc, wanted.0));
            right &= is_made(alloc, core, nack);
        }
    }
    right & core.served().is_none()
}

fn serves_by_priority(rt: &impl Abort, alloc: Global, core: &mut Core, root: &Text) -> bool {
    let mut right = begins(rt, alloc, core, root);
    for job in &JOBS {
        right &= is_made(alloc, core, registered(rt, alloc, root, *job));
    }
    right & serves_all(rt, alloc, core)
}

#[test]
fn a_copy_serves_in_the_same_order(rt: HostRuntime) {
    let alloc = rt.alloc();
    assert!(rt; with_core(&rt, alloc, serves_by_priority));
}

/// Each job gets a second evaluation, which is blocked, before the next job is registered.
static BLOCKED: [AskedJob; 6] = [
    (("default", 1), 50, false),
    (("team", 1), 50, true),
    (("team", 3), 50, false),
    (("default", 3), 50, false),
    (("default", 5), 50, true),
    (("team", 5), 50, false),
];

/// The evaluations that a node in the pool `default` wakes, in this order, with the workers that dequeue them. `OF_GPU` has
/// those that a node in the pool `gpu` wakes.
static OF_DEFAULT: [(u64, KeyText); 4] = [
    (0, ("default", 2)),
    (1, ("team", 4)),
    (2, ("default", 4)),
    (3, ("team", 6)),
];

static OF_GPU: [(u64, KeyText); 2] = [(4, ("team", 2)), (5, ("default", 6))];

/// Whether the job is registered, and a worker finishes its evaluation without finding a node.
fn blocks(rt: &impl Abort, alloc: Global, core: &mut Core, root: &Text, job: AskedJob) -> bool {
    let (namespace, number) = job.0;
    let dequeue = Step::Dequeue(0, text(rt, alloc, namespace), number);
    let snap = Step::Snap(0, text(rt, alloc, namespace));
    let finish = Step::Finish(0, text(rt, alloc, namespace));
    let registers = is_made(alloc, core, registered(rt, alloc, root, job));
    registers
        & is_made(alloc, core, dequeue)
        & is_made(alloc, core, snap)
        & is_made(alloc, core, finish)
        & core.served().is_none()
}

/// Whether a node that is registered in the pool wakes these evaluations, in this order.
fn wakes(
    rt: &impl Abort,
    alloc: Global,
    core: &mut Core,
    root: &Text,
    pool: &str,
    woken: &[(u64, KeyText)],
) -> bool {
    let node = node_command(rt, alloc, 0);
    let node = Step::Node(text(rt, alloc, pool), Some(copied(rt, root)), node);
    let mut right = is_made(alloc, core, node);
    for (worker, wanted) in woken {
        right &= takes(rt, alloc, core, *worker, *wanted);
    }
    right & core.served().is_none()
}

fn wakes_all(rt: &impl Abort, alloc: Global, core: &mut Core, root: &Text) -> bool {
    wakes(rt, alloc, core, root, "default", &OF_DEFAULT)
        & wakes(rt, alloc, core, root, "gpu", &OF_GPU)
}

fn wakes_as_blocked(rt: &impl Abort, alloc: Global, core: &mut Core, root: &Text) -> bool {
    let mut right = begins(rt, alloc, core, root);
    for job in &BLOCKED {
        right &= blocks(rt, alloc, core, root, *job);
    }
    let copy = core.copy(alloc);
    right &= with(rt, copy, |copy| wakes_all(rt, alloc, copy, root));
    right & wakes_all(rt, alloc, core, root)
}

#[test]
fn a_copy_wakes_in_the_same_order(rt: HostRuntime) {
    let alloc = rt.alloc();
    assert!(rt; with_core(&rt, alloc, wakes_as_blocked));
}
