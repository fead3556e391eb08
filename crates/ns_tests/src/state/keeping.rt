// A server keeps its log, which is compared with a text that is written by hand.
ghost use Rattle.ns_steps.specs.Served.{IsServed};

use crate::state::jobs::registration;
use crate::state::made::text;
use crate::state::server::{registered, root};
use crate::state::steps::{TEXT, job_is_registered, jobs_are_listed, pool_is_put};
use crate::state::workers::{look, take};
use ns_core::Core;
use ns_driver::WorkerStep;
use ns_log::log_text;
use ns_schedule::plan;
use ns_types::refusal::Refusal;
use ns_types::reply::Reply;
use ns_types::shared::Shared;
use ns_types::snapshot::Snapshot;
use ns_types::step::Step;
use ns_types::text::Text;
use ns_work_log::Held;
use std::alloc::Global;
use std::process::Abort;

/// A new server, whose log has room for three entries.
fn held(rt: &impl Abort, alloc: Global) -> Held {
    let root = root(rt, alloc);
    let core = Core::new(alloc, &root).expect(rt, "memory");
    Held::new(alloc, core, 3)
}

fn is_made(answer: Result<Reply, Refusal>) -> bool {
    let made = answer.is_ok();
    drop(answer);
    made
}

fn is_refused(answer: Result<Reply, Refusal>, wanted: Refusal) -> bool {
    let refused = match &answer {
        Ok(_) => false,
        Err(refusal) => *refusal == wanted,
    };
    drop(answer);
    refused
}

/// Whether the step that a request asks for is answered 200.
fn is_taken(held: &mut Held, alloc: Global, step: Step) -> bool
    requires { IsServed step }
{
    let Ok(entry) = Shared::new(alloc, step) else {
        return false;
    };
    match held.take_rendered(alloc, entry) {
        Ok((receipt, response)) => {
            let taken = receipt.get().status == 200;
            drop(receipt);
            drop(response);
            taken
        }
        Err(_) => false,
    }
}

/// Whether the step is refused because the log is full.
fn finds_it_full(held: &mut Held, alloc: Global, step: Step) -> bool
    requires { IsServed step }
{
    let Ok(entry) = Shared::new(alloc, step) else {
        return false;
    };
    match held.take_rendered(alloc, entry) {
        Ok(given) => {
            drop(given);
            false
        }
        Err(refusal) => refusal == Refusal::LogFull,
    }
}

/// A server that made the three steps. A step out of turn in between leaves no entry.
pub(crate) fn kept(rt: &impl Abort, alloc: Global) -> Held {
    let mut held = held(rt, alloc);
    let namespace = text(rt, alloc, "default");
    assert!(rt; is_taken(&mut held, alloc, pool_is_put(rt, alloc)));
    assert!(rt; is_taken(&mut held, alloc, job_is_registered(rt, alloc)));
    assert!(rt;
        is_refused(
            held.work(alloc, 0, &namespace, WorkerStep::Nack),
            Refusal::NotEnabled
        )
    );
    assert!(rt; is_made(held.work(alloc, 0, &namespace, WorkerStep::Dequeue(1))));
    held
}

/// The text of the server's log.
fn written(rt: &impl Abort, alloc: Global, held: &Held) -> String {
    let root = root(rt, alloc);
    log_text(alloc, &root, held.log()).expect(rt, "memory")
}

#[test]
fn three_steps_are_logged(rt: HostRuntime) {
    let alloc = rt.alloc();
    let held = kept(&rt, alloc);
    let text = written(&rt, alloc, &held);
    assert!(rt; text.as_str() == TEXT);
    drop(held);
}

#[test]
fn a_full_log_takes_no_step(rt: HostRuntime) {
    let alloc = rt.alloc();
    let mut held = kept(&rt, alloc);
    assert!(rt; finds_it_full(&mut held, alloc, jobs_are_listed(&rt, alloc)));
    assert!(rt; held.is_full() && held.log().len() == 3);
    drop(held);
}

/// Registers a job for the worker, which is the first or the second. The worker dequeues the evaluation of the job and takes
/// this snapshot.
fn looked(
    rt: &impl Abort,
    alloc: Global,
    core: &mut Core,
    secret: &Text,
    worker: u64,
) -> Shared<Snapshot> {
    let namespace = text(rt, alloc, "default");
    let command = registration(rt, alloc, worker);
    let evaluation = worker.saturating_add(1);
    assert!(rt; registered(core, secret, &namespace, &command).is_some());
    assert!(rt; take(core, worker, &namespace, evaluation) == Ok(Some(evaluation)));
    look(core, worker, &namespace).expect(rt, "a snapshot")
}

#[test]
fn a_foreign_plan_leaves_no_entry(rt: HostRuntime) {
    let alloc = rt.alloc();
    let root = root(&rt, alloc);
    let mut core = Core::new(alloc, &root).expect(&rt, "memory");
    drop(looked(&rt, alloc, &mut core, root.get(), 0));
    let seen = looked(&rt, alloc, &mut core, root.get(), 1);
    let planned = plan(alloc, seen).expect(&rt, "a plan");
    let mut held = Held::new(alloc, core, 9);
    let namespace = text(&rt, alloc, "default");
    let answer = held.work(alloc, 0, &namespace, WorkerStep::Submit(planned));
    assert!(rt; is_refused(answer, Refusal::Foreign));
    assert!(rt; held.log().is_empty());
    drop(held);
}
