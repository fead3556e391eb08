// A pool is filled to its limit of nodes. One node more is refused as too many, and changes nothing.
ghost use Rattle.std.specs.Prelude.{IsTrue};
ghost use Rattle.ns_types.specs.State.Limits.{is_amount};

use crate::state::made::{numbered, text};
use crate::state::nodes::{answered, refusal, registration};
use crate::state::owned::seen;
use crate::state::server::with_core;
use ns_core::Core;
use ns_types::good::GoodNodeCommand;
use ns_types::name::NameKind;
use ns_types::refusal::Refusal;
use ns_types::reply::{Content, NodeShown, Reply};
use ns_types::resources::Resources;
use ns_types::step::NodeCommand;
use ns_types::text::Text;
use std::alloc::Global;
use std::process::Abort;

/// The number after that of the last node that the pool has room for.
const END: u64 = 1001;

const SMALL: Resources = Resources {
    cpu: 100,
    memory: 200,
    disk: 250,
};

const LARGE: Resources = Resources {
    cpu: 300,
    memory: 400,
    disk: 450,
};

/// The refusal of the node whose name is the number. None: it is registered.
fn registered(
    rt: &impl Abort,
    alloc: Global,
    core: &mut Core,
    root: &Text,
    pool: &Text,
    number: u64,
    capacity: Resources,
) -> Option<Refusal>
    requires { IsTrue (is_amount capacity) }
{
    let name = numbered(rt, alloc, NameKind::Node, number);
    let command = registration(rt, alloc, &name, capacity);
    drop(name);
    let refusal = refusal(core, root, pool, &command);
    drop(command);
    refusal
}

/// Whether each node that the pool has room for is registered.
fn fills(rt: &impl Abort, alloc: Global, core: &mut Core, root: &Text, pool: &Text) -> bool {
    let mut right = true;
    for number in 1..END {
        right &= registered(rt, alloc, core, root, pool, number, SMALL).is_none();
    }
    right
}

/// How many nodes there are, and the CPU that the first offers, in MHz.
fn counted(nodes: &[NodeShown]) -> Option<(usize, u64)> {
    match nodes.first() {
        Some(node) => Some((nodes.len(), node.row.offer.capacity.cpu)),
        None => None,
    }
}

fn listed(answer: &Result<Reply, Refusal>) -> Option<(usize, u64)> {
    match answer {
        Ok(reply) => match &reply.content {
            Content::Nodes(nodes) => counted(nodes.as_slice()),
            _ => None,
        },
        Err(_) => None,
    }
}

/// Whether a thousand nodes are listed, and the first offers this CPU, in MHz.
fn lists(core: &mut Core, root: &Text, pool: &Text, cpu: u64) -> bool {
    let list = GoodNodeCommand::new(NodeCommand::ListNodes);
    let listed = seen(answered(core, root, pool, &list), listed);
    drop(list);
    listed == Some((1000, cpu))
}

fn has_a_thousand_nodes(rt: &impl Abort, alloc: Global, core: &mut Core, root: &Text) -> bool {
    let pool = text(rt, alloc, "default");
    let mut right = fills(rt, alloc, core, root, &pool) & lists(core, root, &pool, 100);
    let more = registered(rt, alloc, core, root, &pool, END, LARGE);
    right &= more == Some(Refusal::Full) && lists(core, root, &pool, 100);
    let known = registered(rt, alloc, core, root, &pool, 1, LARGE);
    right && known.is_none() && lists(core, root, &pool, 300)
}

#[test]
fn fills_a_pool(rt: HostRuntime) {
    let alloc = rt.alloc();
    assert!(rt; with_core(&rt, alloc, has_a_thousand_nodes));
}
