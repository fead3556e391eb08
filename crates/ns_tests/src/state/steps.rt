// Three steps of a server, and the text of their log, written by hand.
ghost use Rattle.ns_steps.specs.Served.{IsServed};

use crate::state::made::text;
use crate::state::server::groups;
use ns_types::good::{GoodAdmin, GoodAsk};
use ns_types::job::{JobKind, Registration};
use ns_types::records::Pool;
use ns_types::rows::Rows;
use ns_types::step::{AdminCommand, AskCommand, Step};
use std::alloc::Global;
use std::process::Abort;

/// A pool is put, a job is registered, and a worker takes its evaluation.
pub(crate) const TEXT: &str = "nsd-log 3 0 root
{\"Body\":\"{}\",\"Index\":null,\"Status\":200,\"Step\":{\"Args\":{\"Doc\":{\"Description\":\"\",\"Name\":\"east\"}},\"Do\":\"PutPool\",\"Kind\":\"Admin\",\"Secret\":\"root\"}}
{\"Body\":\"{\\\"EvalCreateIndex\\\":1,\\\"EvalID\\\":\\\"00000000-0000-0001-0000-000000000001\\\",\\\"JobModifyIndex\\\":1}\",\"Index\":1,\"Status\":200,\"Step\":{\"Args\":{\"Doc\":{\"Constraints\":[],\"ID\":\"web\",\"NodePool\":\"\",\"Priority\":50,\"TaskGroups\":[{\"Count\":1,\"EphemeralDisk\":{\"SizeMB\":300},\"Name\":\"g\",\"Tasks\":[{\"Name\":\"t\",\"Resources\":{\"CPU\":100,\"MemoryMB\":300}}]}],\"Type\":\"service\"},\"Enforce\":null},\"Do\":\"Register\",\"Kind\":\"Ask\",\"Ns\":\"default\",\"Secret\":\"root\"}}
{\"Body\":\"{\\\"Took\\\":\\\"00000000-0000-0001-0000-000000000001\\\"}\",\"Index\":null,\"Status\":200,\"Step\":{\"Eval\":1,\"Kind\":\"Dequeue\",\"Ns\":\"default\",\"Worker\":0}}
";

pub(crate) fn pool_is_put(rt: &impl Abort, alloc: Global) -> Step
    ensures { IsServed result }
{
    let description = text(rt, alloc, "");
    let name = text(rt, alloc, "east");
    let command = GoodAdmin::new(AdminCommand::PutPool(name, Pool { description }));
    Step::Admin(Some(text(rt, alloc, "root")), command)
}

pub(crate) fn job_is_registered(rt: &impl Abort, alloc: Global) -> Step
    ensures { IsServed result }
{
    let registration = Registration {
        id: text(rt, alloc, "web"),
        kind: JobKind::Service,
        priority: 50,
        pool: None,
        constraints: Rows::new(alloc),
        groups: groups(rt, alloc),
        enforced: None,
    };
    let command = GoodAsk::new(AskCommand::Register(registration));
    let secret = text(rt, alloc, "root");
    Step::Ask(text(rt, alloc, "default"), Some(secret), command)
}

pub(crate) fn jobs_are_listed(rt: &impl Abort, alloc: Global) -> Step
    ensures { IsServed result }
{
    let command = GoodAsk::new(AskCommand::ListJobs(text(rt, alloc, "")));
    let secret = text(rt, alloc, "root");
    Step::Ask(text(rt, alloc, "default"), Some(secret), command)
}
