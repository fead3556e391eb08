// A namespace is filled to its limit of jobs. One job more is refused as too many, and changes nothing.
ghost use Rattle.std.specs.Prelude.{IsTrue, true};
ghost use Rattle.std.specs.Option.{option_map_or};
ghost use Rattle.ns_types.specs.State.Limits.{is_between, is_pool_name};

use crate::state::made::{numbered, text};
use crate::state::owned::seen;
use crate::state::server::{asked, groups, refusal, registered, with_core};
use ns_core::Core;
use ns_types::good::GoodAsk;
use ns_types::job::{JobKind, Registration};
use ns_types::name::NameKind;
use ns_types::refusal::Refusal;
use ns_types::reply::{Content, Reply};
use ns_types::rows::Rows;
use ns_types::step::AskCommand;
use ns_types::text::Text;
use std::alloc::Global;
use std::process::Abort;

/// The number after that of the last job that the namespace has room for.
const END: u64 = 1001;

/// A job whose id is the number, with this priority, in this pool or else in the default pool of its namespace.
pub(crate) fn registration_of(
    rt: &impl Abort,
    alloc: Global,
    number: u64,
    priority: u64,
    pool: Option<Text>,
) -> GoodAsk
    requires priority { IsTrue (is_between 1 100 priority) }
    requires pool { IsTrue (option_map_or is_pool_name pool true) }
{
    let registration = Registration {
        id: numbered(rt, alloc, NameKind::Job, number),
        kind: JobKind::Batch,
        priority,
        pool,
        constraints: Rows::new(alloc),
        groups: groups(rt, alloc),
        enforced: None,
    };
    GoodAsk::new(AskCommand::Register(registration))
}

/// A job whose id is the number.
pub(crate) fn registration(rt: &impl Abort, alloc: Global, number: u64) -> GoodAsk {
    registration_of(rt, alloc, number, 50, None)
}

/// All jobs of a namespace.
pub(crate) fn list(rt: &impl Abort, alloc: Global) -> GoodAsk {
    GoodAsk::new(AskCommand::ListJobs(text(rt, alloc, "")))
}

/// Whether the job whose id is the number is registered, and the reply has these numbers: the evaluation's number, its index,
/// and the job's index.
pub(crate) fn registers(
    rt: &impl Abort,
    alloc: Global,
    core: &mut Core,
    root: &Text,
    namespace: &Text,
    number: u64,
    wanted: (u64, u64, u64),
) -> bool {
    let job = registration(rt, alloc, number);
    let numbers = registered(core, root, namespace, &job);
    drop(job);
    numbers == Some(wanted)
}

/// Whether the jobs below `end` are registered, each with its number as that of its evaluation and as its index.
pub(crate) fn registers_all(
    rt: &impl Abort,
    alloc: Global,
    core: &mut Core,
    root: &Text,
    namespace: &Text,
    end: u64,
) -> bool {
    let mut right = true;
    for number in 1..end {
        let wanted = (number, number, number);
        right &= registers(rt, alloc, core, root, namespace, number, wanted);
    }
    right
}

/// How many jobs the reply lists, and its index.
fn listed(answer: &Result<Reply, Refusal>) -> Option<(usize, Option<u64>)> {
    match answer {
        Ok(reply) => match &reply.content {
            Content::Jobs(jobs) => Some((jobs.as_slice().len(), reply.index)),
            _ => None,
        },
        Err(_) => None,
    }
}

/// Whether a thousand jobs are listed, with this index.
fn lists(
    rt: &impl Abort,
    alloc: Global,
    core: &mut Core,
    root: &Text,
    namespace: &Text,
    index: u64,
) -> bool {
    let list = list(rt, alloc);
    let listed = seen(asked(core, Some(root), namespace, &list), listed);
    drop(list);
    listed == Some((1000, Some(index)))
}

/// The refusal of one job more.
fn refusal_of_more(
    rt: &impl Abort,
    alloc: Global,
    core: &mut Core,
    root: &Text,
    namespace: &Text,
) -> Option<Refusal> {
    let more = registration(rt, alloc, END);
    let refusal = refusal(core, root, namespace, &more);
    drop(more);
    refusal
}

/// A job that exists can still be registered again, which adds no job.
fn has_a_thousand_jobs(rt: &impl Abort, alloc: Global, core: &mut Core, root: &Text) -> bool {
    let namespace = text(rt, alloc, "default");
    let mut right = registers_all(rt, alloc, core, root, &namespace, END);
    right &= lists(rt, alloc, core, root, &namespace, 1000);
    right &= refusal_of_more(rt, alloc, core, root, &namespace) == Some(Refusal::Full);
    right &= lists(rt, alloc, core, root, &namespace, 1000);
    right &= registers(rt, alloc, core, root, &namespace, 1, (END, END, 1));
    right & lists(rt, alloc, core, root, &namespace, END)
}

#[test]
fn fills_jobs(rt: HostRuntime) {
    let alloc = rt.alloc();
    assert!(rt; with_core(&rt, alloc, has_a_thousand_jobs));
}
