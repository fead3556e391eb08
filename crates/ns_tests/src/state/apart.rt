// A namespace that has its pools and quotas to itself: its part of the state, and the replay of its own steps.
use crate::state::made::{digits, only, text};
use crate::state::owned::{push, seen, with};
use crate::state::server::with_core;
use crate::state::settling::{REGISTERED, TOOK};
use crate::state::turns::is_served;
use ns_core::Core;
use ns_log_reader::{Log, log_read};
use ns_replay::rerun::rerun;
use ns_replay::{ReplayFault, replay_alone};
use ns_types::records::Namespace;
use ns_types::reply::Rendered;
use ns_types::text::Text;
use std::alloc::Global;
use std::process::Abort;

// ---- lines of logs

/// `default` has its own pool.
const CONFINED: &str =
    r#"{"Body":"{}","Index":null,"Status":200,"Step":{"Args":{"Doc":{"Description":"","Name":"default","NodePoolConfiguration":{"Allowed":["default"],"Default":"default","Denied":[]},"Quota":""}},"Do":"PutNamespace","Kind":"Admin","Secret":"root"}}
"#;

/// `ta` has the pool `east` and the quota `qa`.
const LAID_OUT: &str =
    r#"{"Body":"{}","Index":null,"Status":200,"Step":{"Args":{"Doc":{"Description":"","Name":"east"}},"Do":"PutPool","Kind":"Admin","Secret":"root"}}
{"Body":"{}","Index":null,"Status":200,"Step":{"Args":{"Doc":{"Description":"","Limits":[{"Region":"global","RegionLimit":{"CPU":1000,"DiskMB":0,"MemoryMB":1024}}],"Name":"qa"}},"Do":"PutQuota","Kind":"Admin","Secret":"root"}}
{"Body":"{}","Index":null,"Status":200,"Step":{"Args":{"Doc":{"Description":"","Name":"ta","NodePoolConfiguration":{"Allowed":["east"],"Default":"east","Denied":[]},"Quota":"qa"}},"Do":"PutNamespace","Kind":"Admin","Secret":"root"}}
"#;

/// `default` may use the pool `east` too.
const TOGETHER: &str =
    r#"{"Body":"{}","Index":null,"Status":200,"Step":{"Args":{"Doc":{"Description":"","Name":"default","NodePoolConfiguration":{"Allowed":["east"],"Default":"default","Denied":[]},"Quota":""}},"Do":"PutNamespace","Kind":"Admin","Secret":"root"}}
"#;

/// `default` has the quota `qa` too.
const LIMITED: &str =
    r#"{"Body":"{}","Index":null,"Status":200,"Step":{"Args":{"Doc":{"Description":"","Name":"default","NodePoolConfiguration":{"Allowed":["default"],"Default":"default","Denied":[]},"Quota":"qa"}},"Do":"PutNamespace","Kind":"Admin","Secret":"root"}}
"#;

/// `default` registers a job, and then `ta` does.
const JOBS: &str =
    r#"{"Body":"{\"EvalCreateIndex\":1,\"EvalID\":\"00000000-0000-0001-0000-000000000001\",\"JobModifyIndex\":1}","Index":1,"Status":200,"Step":{"Args":{"Doc":{"Constraints":[],"ID":"a","NodePool":"","Priority":50,"TaskGroups":[{"Count":1,"EphemeralDisk":{"SizeMB":300},"Name":"g","Tasks":[{"Name":"t","Resources":{"CPU":100,"MemoryMB":300}}]}],"Type":"service"},"Enforce":null},"Do":"Register","Kind":"Ask","Ns":"default","Secret":"root"}}
{"Body":"{\"EvalCreateIndex\":1,\"EvalID\":\"00000000-0000-0001-0000-000000000001\",\"JobModifyIndex\":1}","Index":1,"Status":200,"Step":{"Args":{"Doc":{"Constraints":[],"ID":"b","NodePool":"","Priority":50,"TaskGroups":[{"Count":1,"EphemeralDisk":{"SizeMB":300},"Name":"g","Tasks":[{"Name":"t","Resources":{"CPU":100,"MemoryMB":300}}]}],"Type":"service"},"Enforce":null},"Do":"Register","Kind":"Ask","Ns":"ta","Secret":"root"}}
"#;

/// A worker dequeues the evaluation of `default`. In `SECOND` another worker dequeues the evaluation of `ta`.
const FIRST: &str =
    r#"{"Body":"{\"Took\":\"00000000-0000-0001-0000-000000000001\"}","Index":null,"Status":200,"Step":{"Eval":1,"Kind":"Dequeue","Ns":"default","Worker":0}}
"#;

const SECOND: &str =
    r#"{"Body":"{\"Took\":\"00000000-0000-0001-0000-000000000001\"}","Index":null,"Status":200,"Step":{"Eval":1,"Kind":"Dequeue","Ns":"ta","Worker":1}}
"#;

/// The pool `east` gets another description.
const EAST: &str =
    r#"{"Body":"{}","Index":null,"Status":200,"Step":{"Args":{"Doc":{"Description":"x","Name":"east"}},"Do":"PutPool","Kind":"Admin","Secret":"root"}}
"#;

/// The put of the pool `east` is refused, since there are too many pools.
const FULL: &str =
    r#"{"Body":"full","Index":null,"Status":400,"Step":{"Args":{"Doc":{"Description":"x","Name":"east"}},"Do":"PutPool","Kind":"Admin","Secret":"root"}}
"#;

/// Besides jobs there are only the namespace `ta`, the pool `east` and the quota `qa`.
const LISTED: &str =
    r#"{"Body":"[{\"Description\":\"\",\"Name\":\"ta\",\"NodePoolConfiguration\":{\"Allowed\":[\"east\"],\"Default\":\"east\",\"Denied\":[]},\"Quota\":\"qa\"}]","Index":null,"Status":200,"Step":{"Args":{},"Do":"ListNamespaces","Kind":"Admin","Secret":"root"}}
{"Body":"[{\"Description\":\"\",\"Name\":\"east\"}]","Index":null,"Status":200,"Step":{"Args":{},"Do":"ListPools","Kind":"Admin","Secret":"root"}}
{"Body":"[{\"Description\":\"\",\"Limits\":[{\"Region\":\"global\",\"RegionLimit\":{\"CPU\":1000,\"DiskMB\":0,\"MemoryMB\":1024}}],\"Name\":\"qa\"}]","Index":null,"Status":200,"Step":{"Args":{},"Do":"ListQuotas","Kind":"Admin","Secret":"root"}}
"#;

/// `ta` has the pools `east` and `west`. A job of `ta` is placed in `west` and purged, so its allocation has to stop. Then `ta`
/// has only the pool `east`.
const MOVED: &str =
    r#"{"Body":"{}","Index":null,"Status":200,"Step":{"Args":{"Doc":{"Description":"","Name":"west"}},"Do":"PutPool","Kind":"Admin","Secret":"root"}}
{"Body":"{}","Index":null,"Status":200,"Step":{"Args":{"Doc":{"Description":"","Name":"ta","NodePoolConfiguration":{"Allowed":["east"],"Default":"west","Denied":[]},"Quota":"qa"}},"Do":"PutNamespace","Kind":"Admin","Secret":"root"}}
{"Body":"{}","Index":null,"Status":200,"Step":{"Args":{"Doc":{"Attributes":{},"CPU":1000,"DiskMB":1000,"MemoryMB":1024,"NodeClass":""},"Name":"n1"},"Do":"PutNode","Kind":"Node","Pool":"west","Secret":"root"}}
{"Body":"{\"EvalCreateIndex\":1,\"EvalID\":\"00000000-0000-0001-0000-000000000001\",\"JobModifyIndex\":1}","Index":1,"Status":200,"Step":{"Args":{"Doc":{"Constraints":[],"ID":"b","NodePool":"","Priority":50,"TaskGroups":[{"Count":1,"EphemeralDisk":{"SizeMB":300},"Name":"g","Tasks":[{"Name":"t","Resources":{"CPU":100,"MemoryMB":300}}]}],"Type":"service"},"Enforce":null},"Do":"Register","Kind":"Ask","Ns":"ta","Secret":"root"}}
{"Body":"{\"Took\":\"00000000-0000-0001-0000-000000000001\"}","Index":null,"Status":200,"Step":{"Eval":1,"Kind":"Dequeue","Ns":"ta","Worker":0}}
{"Body":"{\"Snapped\":\"00000000-0000-0001-0000-000000000001\"}","Index":null,"Status":200,"Step":{"Kind":"Snap","Ns":"ta","Worker":0}}
{"Body":"{\"Queued\":\"00000000-0000-0001-0000-000000000001\"}","Index":null,"Status":200,"Step":{"Kind":"Submit","Ns":"ta","Worker":0}}
{"Body":"{\"Committed\":[\"00000000-0000-0002-0000-000000000001\"],\"Dropped\":[]}","Index":null,"Status":200,"Step":{"Kind":"Apply","Ns":"ta","Worker":0}}
{"Body":"{\"Follower\":\"\",\"Status\":\"complete\"}","Index":null,"Status":200,"Step":{"Kind":"Finish","Ns":"ta","Worker":0}}
{"Body":"{\"EvalCreateIndex\":4,\"EvalID\":\"00000000-0000-0001-0000-000000000002\",\"JobModifyIndex\":4}","Index":4,"Status":200,"Step":{"Args":{"ID":"b","Purge":true},"Do":"Deregister","Kind":"Ask","Ns":"ta","Secret":"root"}}
{"Body":"{\"Took\":\"00000000-0000-0001-0000-000000000002\"}","Index":null,"Status":200,"Step":{"Eval":2,"Kind":"Dequeue","Ns":"ta","Worker":0}}
{"Body":"{\"Snapped\":\"00000000-0000-0001-0000-000000000002\"}","Index":null,"Status":200,"Step":{"Kind":"Snap","Ns":"ta","Worker":0}}
{"Body":"{\"Queued\":\"00000000-0000-0001-0000-000000000002\"}","Index":null,"Status":200,"Step":{"Kind":"Submit","Ns":"ta","Worker":0}}
{"Body":"{\"Committed\":[],\"Dropped\":[]}","Index":null,"Status":200,"Step":{"Kind":"Apply","Ns":"ta","Worker":0}}
{"Body":"{\"Follower\":\"\",\"Status\":\"complete\"}","Index":null,"Status":200,"Step":{"Kind":"Finish","Ns":"ta","Worker":0}}
{"Body":"{}","Index":null,"Status":200,"Step":{"Args":{"Doc":{"Description":"","Name":"ta","NodePoolConfiguration":{"Allowed":["east"],"Default":"east","Denied":[]},"Quota":"qa"}},"Do":"PutNamespace","Kind":"Admin","Secret":"root"}}
"#;

/// The allocation of `MOVED` that has to stop is reported complete.
const ENDED: &str =
    r#"{"Body":"{}","Index":null,"Status":200,"Step":{"Args":{"ClientStatus":"complete","Name":"n1","Namespace":"ta","Number":1},"Do":"Report","Kind":"Node","Pool":"west","Secret":"root"}}
"#;

fn log_of(rt: &impl Abort, alloc: Global, lines: &[&str]) -> Log {
    let mut text = String::from_str(alloc, "nsd-log 3 0 root\n").expect(rt, "memory");
    for line in lines {
        text.push_str(*line).expect(rt, "memory");
    }
    log_read(alloc, text.as_str().as_bytes()).expect(rt, "a log")
}

/// Makes the steps of the lines. Each has to get the reply that its line has.
fn make(rt: &impl Abort, alloc: Global, core: &mut Core, lines: &[&str]) {
    let log = log_of(rt, alloc, lines);
    let made = rerun(alloc, core, log.entries.as_slice());
    drop(log);
    assert!(rt; made.is_ok());
}

// ---- apart

/// A namespace, pools and quotas, and whether the namespace has them to itself.
type Case<'a> = (&'a str, &'a [&'a str], &'a [&'a str], bool);

/// A namespace that may use every pool has no pool to itself, and neither has any other.
static FRESH: [Case; 5] = [
    ("ta", &[], &[], true),
    ("ta", &[], &["qa"], true),
    ("ta", &["east"], &[], false),
    ("default", &["default"], &[], false),
    ("default", &[], &[], false),
];

static APART: [Case; 10] = [
    ("ta", &["east"], &["qa"], true),
    ("ta", &["west", "east"], &["qa", "qb"], true),
    ("ta", &["east"], &["qb"], false),
    ("ta", &[], &["qa"], false),
    ("ta", &["east", "default"], &["qa"], false),
    ("default", &["default"], &[], true),
    ("default", &["default"], &["qa"], false),
    ("tb", &["west"], &["qb"], true),
    ("tb", &["east"], &[], false),
    ("tb", &[], &["qa"], false),
];

/// `default` may use the pool `east` too.
static SHARED_POOL: [Case; 3] = [
    ("ta", &["east"], &["qa"], false),
    ("default", &["default", "east"], &[], false),
    ("default", &["default"], &[], false),
];

/// `default` has the quota `qa` too.
static SHARED_QUOTA: [Case; 3] = [
    ("ta", &["east"], &["qa"], false),
    ("default", &["default"], &["qa"], false),
    ("default", &["default"], &[], false),
];

/// The allocation that has to stop may still run in `west`.
static ASTRAY: [Case; 2] = [
    ("ta", &["east"], &["qa"], false),
    ("ta", &["east", "west"], &["qa"], true),
];

static ENDED_THERE: [Case; 2] = [
    ("ta", &["east"], &["qa"], true),
    ("ta", &["east", "west"], &["qa"], true),
];

fn texts(rt: &impl Abort, alloc: Global, words: &[&str]) -> Vec<Text> {
    let mut texts = Vec::new(alloc);
    for word in words {
        push(rt, &mut texts, text(rt, alloc, *word));
    }
    texts
}

fn is_as_said(rt: &impl Abort, alloc: Global, core: &Core, case: Case) -> bool {
    let namespace = text(rt, alloc, case.0);
    let pools = texts(rt, alloc, case.1);
    let quotas = texts(rt, alloc, case.2);
    core.apart(&namespace, pools.as_slice(), quotas.as_slice()) == case.3
}

fn are_as_said(rt: &impl Abort, alloc: Global, core: &Core, cases: &[Case]) -> bool {
    let mut right = true;
    for case in cases {
        right &= is_as_said(rt, alloc, core, *case);
    }
    right
}

fn intrude(rt: &impl Abort, alloc: Global, core: &mut Core, _root: &Text) -> bool {
    let mut right = are_as_said(rt, alloc, core, &FRESH);
    make(rt, alloc, core, &[CONFINED, LAID_OUT]);
    right &= are_as_said(rt, alloc, core, &APART);
    make(rt, alloc, core, &[TOGETHER]);
    right &= are_as_said(rt, alloc, core, &SHARED_POOL);
    make(rt, alloc, core, &[LIMITED]);
    right & are_as_said(rt, alloc, core, &SHARED_QUOTA)
}

#[test]
fn others_intrude_on_pools_and_quotas(rt: HostRuntime) {
    let alloc = rt.alloc();
    assert!(rt; with_core(&rt, alloc, intrude));
}

fn strays(rt: &impl Abort, alloc: Global, core: &mut Core, _root: &Text) -> bool {
    make(rt, alloc, core, &[CONFINED, LAID_OUT, MOVED]);
    let right = are_as_said(rt, alloc, core, &ASTRAY);
    make(rt, alloc, core, &[ENDED]);
    right & are_as_said(rt, alloc, core, &ENDED_THERE)
}

#[test]
fn what_was_told_to_stop_is_astray_until_it_has_ended(rt: HostRuntime) {
    let alloc = rt.alloc();
    assert!(rt; with_core(&rt, alloc, strays));
}

// ---- alone

/// Whether the record is that of `ta`.
fn is_of_ta(record: &Namespace) -> bool {
    let quota = match &record.quota {
        Some(quota) => quota.as_str() == "qa",
        None => false,
    };
    quota && record.default_pool.as_str() == "east" && record.allowed.is_some()
}

fn has_ta(core: &Core, ta: &Text) -> bool {
    match core.namespace_at(ta) {
        Some(record) => is_of_ta(record),
        None => false,
    }
}

/// Whether the part has all of `ta` and nothing else, and serves `ta` as if it were alone.
fn is_part(rt: &impl Abort, alloc: Global, part: &mut Core, ta: &Text) -> bool {
    let default = text(rt, alloc, "default");
    let right = has_ta(part, ta) && part.namespace_at(&default).is_none();
    let serves = is_served(part, ("ta", 1));
    make(rt, alloc, part, &[LISTED, SECOND, EAST]);
    right & serves & part.served().is_none()
}

fn parts(
    rt: &impl Abort,
    alloc: Global,
    core: &Core,
    ta: &Text,
    pools: &[Text],
    quotas: &[Text],
) -> bool {
    assert!(rt; core.apart(ta, pools, quotas));
    let part = core.alone(alloc, ta, pools, quotas);
    with(rt, part, |part| is_part(rt, alloc, part, ta))
}

fn stands_alone(rt: &impl Abort, alloc: Global, core: &mut Core, _root: &Text) -> bool {
    let ta = text(rt, alloc, "ta");
    let pools = only(rt, alloc, text(rt, alloc, "east"));
    let quotas = only(rt, alloc, text(rt, alloc, "qa"));
    let mut right = core.namespace_at(&ta).is_none();
    make(rt, alloc, core, &[CONFINED, LAID_OUT, JOBS]);
    right &= has_ta(core, &ta) & is_served(core, ("default", 1));
    right & parts(rt, alloc, core, &ta, pools.as_slice(), quotas.as_slice())
}

#[test]
fn a_namespace_with_its_own_pool_stands_alone(rt: HostRuntime) {
    let alloc = rt.alloc();
    assert!(rt; with_core(&rt, alloc, stands_alone));
}

// ---- replays

fn are_told(replies: &[Rendered], bodies: &[&str]) -> bool {
    let mut right = replies.len() == bodies.len();
    for (reply, body) in replies.iter().zip(bodies) {
        right &= reply.body.as_str() == *body;
    }
    right
}

/// Pools and quotas.
type Lists<'a> = (&'a [&'a str], &'a [&'a str]);

const OWN: Lists = (&["east"], &["qa"]);

const NONE: Lists = (&[], &[]);

/// Replays the own steps of `ta` with these pools and quotas. Returns whether their replies have these bodies, or the fault.
fn replayed(
    rt: &impl Abort,
    alloc: Global,
    core: &Core,
    lists: Lists,
    lines: &[&str],
    bodies: &[&str],
) -> Result<bool, ReplayFault> {
    let log = log_of(rt, alloc, lines);
    let ta = text(rt, alloc, "ta");
    let pools = texts(rt, alloc, lists.0);
    let quotas = texts(rt, alloc, lists.1);
    let entries = log.entries.as_slice();
    match replay_alone(
        alloc,
        core,
        entries,
        &ta,
        pools.as_slice(),
        quotas.as_slice(),
    ) {
        Ok(replies) => Ok(seen(replies, |all| are_told(all.as_slice(), bodies))),
        Err(fault) => Err(fault),
    }
}

/// Pools and quotas, the lines of a log, the bodies of the replies to the own steps, and what `replayed` returns.
type Replay<'a> = (
    Lists<'a>,
    &'a [&'a str],
    &'a [&'a str],
    Result<bool, ReplayFault>,
);

const WRITTEN: &str = "{}";

/// `default` may use every pool.
static UNCONFINED: [Replay; 3] = [
    (OWN, &[JOBS], &[], Err(ReplayFault::Premise(0))),
    (NONE, &[JOBS], &[], Err(ReplayFault::Differs(1))),
    (NONE, &[LAID_OUT], &[], Err(ReplayFault::Premise(2))),
];

static NEW: [Replay; 1] = [(OWN, &[LAID_OUT, EAST], &[WRITTEN; 4], Ok(true))];

static LAID: [Replay; 5] = [
    (NONE, &[JOBS], &[], Err(ReplayFault::Premise(0))),
    (OWN, &[JOBS, FIRST, SECOND], &[REGISTERED, TOOK], Ok(true)),
    (OWN, &[JOBS, SECOND], &[], Err(ReplayFault::NotARun(2))),
    (OWN, &[SECOND], &[], Err(ReplayFault::Differs(0))),
    (OWN, &[JOBS, TOGETHER], &[], Err(ReplayFault::Premise(2))),
];

/// Whether each case has its expected result.
fn are_replayed(rt: &impl Abort, alloc: Global, core: &Core, cases: &[Replay]) -> bool {
    let mut right = true;
    for case in cases {
        right &= replayed(rt, alloc, core, case.0, case.1, case.2) == case.3;
    }
    right
}

fn replays(rt: &impl Abort, alloc: Global, core: &mut Core, _root: &Text) -> bool {
    let mut right = are_replayed(rt, alloc, core, &UNCONFINED);
    make(rt, alloc, core, &[CONFINED]);
    right &= are_replayed(rt, alloc, core, &NEW);
    make(rt, alloc, core, &[LAID_OUT]);
    right & are_replayed(rt, alloc, core, &LAID)
}

#[test]
fn own_steps_are_answered_the_same_alone(rt: HostRuntime) {
    let alloc = rt.alloc();
    assert!(rt; with_core(&rt, alloc, replays));
}

// ---- a full table

/// The names of 9,999 pools are the numbers from here to `END`. With `default` there are as many pools as there may be.
const FIRST_POOL: u64 = 10_000;

const END: u64 = 19_999;

const BEFORE_NAME: &str =
    r#"{"Body":"{}","Index":null,"Status":200,"Step":{"Args":{"Doc":{"Description":"","Name":""#;

const BEHIND_NAME: &str = r#""}},"Do":"PutPool","Kind":"Admin","Secret":"root"}}
"#;

/// Adds the line that puts a pool whose name is the number.
fn push_pool(rt: &impl Abort, alloc: Global, text: &mut String, number: u64) {
    let digits = digits(rt, alloc, number);
    text.push_str(BEFORE_NAME).expect(rt, "memory");
    text.push_str(digits.as_str()).expect(rt, "memory");
    text.push_str(BEHIND_NAME).expect(rt, "memory");
}

fn fill(rt: &impl Abort, alloc: Global, core: &mut Core) {
    let mut lines = String::new(alloc);
    for number in FIRST_POOL..END {
        push_pool(rt, alloc, &mut lines, number);
    }
    make(rt, alloc, core, &[lines.as_str()]);
}

/// Whether the step of the line is a put that has no room.
fn lacks_room(rt: &impl Abort, alloc: Global, core: &Core, line: &str) -> bool {
    let log = log_of(rt, alloc, &[line]);
    match log.entries.as_slice() {
        [entry] => core.lacks_room(entry.step()),
        _ => false,
    }
}

/// Where the table of pools is full, a put of a pool that exists has room, and so has a put in another table. An own put
/// without room breaks a premise, and a put of another tenant does not.
fn crowds_out(rt: &impl Abort, alloc: Global, core: &mut Core, _root: &Text) -> bool {
    make(rt, alloc, core, &[CONFINED]);
    let mut right = !lacks_room(rt, alloc, core, EAST);
    fill(rt, alloc, core);
    right &= lacks_room(rt, alloc, core, EAST) & !lacks_room(rt, alloc, core, CONFINED);
    let mut known = String::new(alloc);
    push_pool(rt, alloc, &mut known, FIRST_POOL);
    right &= !lacks_room(rt, alloc, core, known.as_str());
    right &= replayed(rt, alloc, core, NONE, &[FULL], &[]) == Ok(true);
    right & (replayed(rt, alloc, core, OWN, &[FULL], &[]) == Err(ReplayFault::Premise(0)))
}

#[test]
fn an_own_put_without_room_breaks_a_premise(rt: HostRuntime) {
    let alloc = rt.alloc();
    assert!(rt; with_core(&rt, alloc, crowds_out));
}
