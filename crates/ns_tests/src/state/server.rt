// Requests in a namespace. A request that was refused for want of memory is made again.
ghost use Rattle.std.specs.Prelude.{◌≡◌, ◌∷◌, [], codes};

use crate::state::made::{only, text};
use crate::state::owned::seen;
use ns_core::Core;
use ns_types::good::GoodAsk;
use ns_types::job::{Group, Task, TaskResources};
use ns_types::name::Secret;
use ns_types::refusal::Refusal;
use ns_types::reply::{Content, Reply};
use ns_types::rows::Rows;
use ns_types::text::Text;
use std::alloc::Global;
use std::process::Abort;

/// The secret of the first token.
pub(crate) fn root(rt: &impl Abort, alloc: Global) -> Secret {
    let root = Secret::read(alloc, "root").expect(rt, "memory");
    root.expect(rt, "a secret")
}

/// One group of one task.
pub(crate) fn groups(rt: &impl Abort, alloc: Global) -> Rows<Group>
    ensures { let size : TaskResources = record { cpu = 100; memory = 300 } in
        let task : Task = record { name = codes "t"; resources = size } in
        let group : Group = record { name = codes "g"; count = 1; disk = 300; tasks = task ∷ [] } in
        result ≡ group ∷ [] }
{
    let resources = TaskResources {
        cpu: 100,
        memory: 300,
    };
    let name = text(rt, alloc, "t");
    let tasks = only(rt, alloc, Task { name, resources });
    let group = Group {
        name: text(rt, alloc, "g"),
        count: 1,
        disk: 300,
        tasks,
    };
    only(rt, alloc, group)
}

/// What `make` returns for a new core and the secret of its first token.
pub(crate) fn with_core<R: Abort, S, F: FnOnce(&R, Global, &mut Core, &Text) -> S>(
    rt: &R,
    alloc: Global,
    make: F,
) -> S
    requires { F.IsAlwaysCallable make }
{
    let root = root(rt, alloc);
    let mut core = Core::new(alloc, &root).expect(rt, "memory");
    make(rt, alloc, &mut core, root.get())
}

pub(crate) fn asked(
    core: &mut Core,
    secret: Option<&Text>,
    namespace: &Text,
    command: &GoodAsk,
) -> Result<Reply, Refusal> {
    match core.ask(namespace, secret, command) {
        Err(Refusal::Memory) => core.ask(namespace, secret, command),
        answer => answer,
    }
}

fn numbers(answer: &Result<Reply, Refusal>) -> Option<(u64, u64, u64)> {
    match answer {
        Ok(reply) => match &reply.content {
            Content::Registered(evaluation, index, modified) => {
                Some((*evaluation, *index, *modified))
            }
            _ => None,
        },
        Err(_) => None,
    }
}

/// The refusal of the command. None: it is served.
pub(crate) fn refusal(
    core: &mut Core,
    secret: &Text,
    namespace: &Text,
    command: &GoodAsk,
) -> Option<Refusal> {
    asked(core, Some(secret), namespace, command).err()
}

/// The numbers in the reply to a registration: the evaluation's number, its index, and the job's index.
pub(crate) fn registered(
    core: &mut Core,
    secret: &Text,
    namespace: &Text,
    command: &GoodAsk,
) -> Option<(u64, u64, u64)> {
    seen(asked(core, Some(secret), namespace, command), numbers)
}
