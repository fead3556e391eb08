// Two thousand steps of two namespaces are made by runs and one by one. Both ways give the same replies, and neither leaves an
// evaluation or a plan behind.

use crate::state::made::{copied, text};
use crate::state::owned::{push, seen};
use crate::state::server::with_core;
use crate::state::{jobs, nodes};
use ns_core::Core;
use ns_replay::model_run::{Ran, run, step};
use ns_types::good::{GoodAdmin, GoodAsk, GoodNodeCommand};
use ns_types::records::Namespace;
use ns_types::refusal::Refusal;
use ns_types::reply::{Content, Reply};
use ns_types::resources::Resources;
use ns_types::rows::Rows;
use ns_types::step::{AdminCommand, Step};
use ns_types::text::Text;
use std::alloc::Global;
use std::process::Abort;

/// How many rounds the script has. A round has ten steps, of which two are out of turn.
const ROUNDS: u64 = 200;

/// A reply in short: its kind, two of its numbers, and its index. A step out of turn has the kind 0, and a refusal 1.
pub(crate) type Told = (u64, u64, u64, u64);

fn told_content(content: &Content) -> (u64, u64, u64) {
    match content {
        Content::Registered(number, index, modified) => (2, *number, index.wrapping_add(*modified)),
        Content::Jobs(jobs) => (3, jobs.as_slice().len() as u64, 0),
        Content::Took(number) => (4, *number, 0),
        Content::Snapped(number) => (5, *number, 0),
        Content::Queued(number) => (6, *number, 0),
        Content::Applied(made, dropped) => {
            (
                7,
                made.as_slice().len() as u64,
                dropped.as_slice().len() as u64,
            )
        }
        Content::Finished(_, follower) => (8, follower.unwrap_or(0), 0),
        Content::Written => (9, 0, 0),
        _ => (10, 0, 0),
    }
}

fn told_refusal(refusal: Refusal) -> Told {
    match refusal {
        Refusal::NotEnabled => (0, 0, 0, 0),
        _ => (1, 0, 0, 0),
    }
}

pub(crate) fn told(answer: &Result<Reply, Refusal>) -> Told {
    match answer {
        Ok(reply) => {
            let (kind, first, second) = told_content(&reply.content);
            (kind, first, second, reply.index.unwrap_or(0))
        }
        Err(refusal) => told_refusal(*refusal),
    }
}

// ---- the script

/// The command about the only node: the first round puts it, and each later one makes it eligible.
pub(crate) fn node_command(rt: &impl Abort, alloc: Global, round: u64) -> GoodNodeCommand {
    let name = text(rt, alloc, "n1");
    if round > 0 {
        return nodes::eligibility(rt, &name, true);
    }
    let capacity = Resources {
        cpu: 20_000,
        memory: 60_000,
        disk: 60_000,
    };
    nodes::registration(rt, alloc, &name, capacity)
}

fn node_step(rt: &impl Abort, alloc: Global, root: &Text, round: u64) -> Step {
    let command = node_command(rt, alloc, round);
    Step::Node(text(rt, alloc, "default"), Some(copied(rt, root)), command)
}

fn ask(rt: &impl Abort, namespace: &Text, root: &Text, command: GoodAsk) -> Step {
    Step::Ask(copied(rt, namespace), Some(copied(rt, root)), command)
}

/// A step of a worker, by its place in a round.
fn work(rt: &impl Abort, namespace: &Text, round: u64, place: u64) -> Step {
    let (worker, namespace) = (round % 4, copied(rt, namespace));
    match place {
        3 | 9 => Step::Dequeue(worker, namespace, round / 2 + 1),
        4 | 6 => Step::Snap(worker, namespace),
        5 => Step::Submit(worker, namespace),
        7 => Step::Apply(worker, namespace),
        _ => Step::Finish(worker, namespace),
    }
}

/// The step at this place of a round. A job of the namespace is registered, and a worker dequeues its evaluation, takes a
/// snapshot, submits its plan, takes a snapshot out of turn, has its plan applied and finishes. Then it dequeues the evaluation
/// again, out of turn.
fn step_at(
    rt: &impl Abort,
    alloc: Global,
    root: &Text,
    namespace: &Text,
    round: u64,
    place: u64,
) -> Step {
    match place {
        0 => node_step(rt, alloc, root, round),
        1 => ask(rt, namespace, root, jobs::registration(rt, alloc, round)),
        2 => ask(rt, namespace, root, jobs::list(rt, alloc)),
        _ => work(rt, namespace, round, place),
    }
}

fn push_round(
    rt: &impl Abort,
    alloc: Global,
    steps: &mut Vec<Step>,
    root: &Text,
    namespace: &Text,
    round: u64,
) {
    for place in 0..10 {
        push(rt, steps, step_at(rt, alloc, root, namespace, round, place));
    }
}

/// Puts the namespace `team`.
pub(crate) fn team(rt: &impl Abort, alloc: Global, root: &Text) -> Step {
    let record = Namespace {
        description: text(rt, alloc, ""),
        quota: None,
        default_pool: text(rt, alloc, "default"),
        allowed: None,
        denied: Rows::new(alloc),
    };
    let command = AdminCommand::PutNamespace(text(rt, alloc, "team"), record);
    Step::Admin(Some(copied(rt, root)), GoodAdmin::new(command))
}

/// Adds the rounds of the script, which go to the two namespaces in turn.
fn push_rounds(rt: &impl Abort, alloc: Global, steps: &mut Vec<Step>, root: &Text) {
    let first = text(rt, alloc, "default");
    let second = text(rt, alloc, "team");
    for pair in 0..ROUNDS / 2 {
        push_round(rt, alloc, steps, root, &first, pair * 2);
        push_round(rt, alloc, steps, root, &second, pair * 2 + 1);
    }
}

fn script(rt: &impl Abort, alloc: Global, root: &Text) -> Vec<Step> {
    let mut steps = Vec::new(alloc);
    push(rt, &mut steps, team(rt, alloc, root));
    push_rounds(rt, alloc, &mut steps, root);
    steps
}

// ---- the two ways

fn one_by_one(rt: &impl Abort, alloc: Global, core: &mut Core, steps: &[Step]) -> Vec<Told> {
    let mut all = Vec::new(alloc);
    for wanted in steps {
        push(rt, &mut all, seen(step(alloc, core, wanted), told));
    }
    all
}

/// Adds the replies of a run. Returns how many steps of the list it has used, with the one at which it stopped.
fn push_run(rt: &impl Abort, all: &mut Vec<Told>, ran: &Ran) -> usize {
    for answer in ran.answers.as_slice() {
        push(rt, all, told(answer));
    }
    let Some(refusal) = ran.stop else {
        return ran.answers.len();
    };
    push(rt, all, told_refusal(refusal));
    ran.answers.len().saturating_add(1)
}

/// Makes the steps by runs. Each run goes on after the step at which the last one stopped.
fn by_runs(rt: &impl Abort, alloc: Global, core: &mut Core, steps: &[Step]) -> Vec<Told> {
    let mut all = Vec::new(alloc);
    let mut rest = steps;
    for _ in 0..steps.len() {
        let ran = run(alloc, core, rest);
        let behind = push_run(rt, &mut all, &ran);
        drop(ran);
        let (_, left) = rest.split_at(behind.min(rest.len()));
        rest = left;
        if rest.is_empty() {
            break;
        }
    }
    all
}

/// Whether no evaluation is ready, no plan is queued, and the workers are idle.
fn rests(core: &Core) -> bool {
    let mut right = core.served().is_none() && core.first_plan().is_none();
    for worker in 0..4 {
        right &= core.phase(worker).is_none();
    }
    right
}

fn count(all: &[Told], kind: u64) -> usize {
    let mut count: usize = 0;
    for told in all {
        if told.0 == kind {
            count = count.saturating_add(1);
        }
    }
    count
}

/// Whether each round has its two steps out of turn, no other step is out of turn, and none is refused.
fn is_as_wanted(all: &[Told]) -> bool {
    let rounds = ROUNDS as usize;
    let mut right = all.len() == 1 + rounds * 10 && count(all, 0) == rounds * 2;
    right &= count(all, 9) == 1 + rounds;
    for kind in 2..9 {
        right &= count(all, kind) == rounds;
    }
    right
}

/// The replies of a core to the steps, made one by one. In the end its workers are idle.
fn told_singly(rt: &impl Abort, alloc: Global, core: &mut Core, root: &Text) -> Vec<Told> {
    let steps = script(rt, alloc, root);
    let all = one_by_one(rt, alloc, core, steps.as_slice());
    drop(steps);
    assert!(rt; rests(core));
    all
}

/// The replies of a core to the steps, made by runs. In the end its workers are idle.
fn told_joined(rt: &impl Abort, alloc: Global, core: &mut Core, root: &Text) -> Vec<Told> {
    let steps = script(rt, alloc, root);
    let all = by_runs(rt, alloc, core, steps.as_slice());
    drop(steps);
    assert!(rt; rests(core));
    all
}

fn are_same(singly: &[Told], joined: &[Told]) -> bool {
    is_as_wanted(singly) && singly == joined
}

#[test]
fn runs_are_steps_one_by_one(rt: HostRuntime) {
    let alloc = rt.alloc();
    let singly = with_core(&rt, alloc, told_singly);
    let joined = with_core(&rt, alloc, told_joined);
    assert!(rt; are_same(singly.as_slice(), joined.as_slice()));
}
