// Commands about nodes. A command that was refused for want of memory is made again.
ghost use Rattle.std.specs.Prelude.{IsTrue};
ghost use Rattle.ns_types.specs.declared.name.NameKind.TheVariants as NameKind;
ghost use Rattle.ns_types.specs.State.Limits.{is_amount};
ghost use Rattle.ns_types.specs.State.Name.{is_name};

use crate::state::made::{copied, text};
use crate::state::owned::seen;
use ns_core::Core;
use ns_types::good::GoodNodeCommand;
use ns_types::node::Offer;
use ns_types::refusal::Refusal;
use ns_types::reply::{Content, Reply};
use ns_types::resources::Resources;
use ns_types::rows::Rows;
use ns_types::step::NodeCommand;
use ns_types::text::Text;
use std::alloc::Global;
use std::process::Abort;

pub(crate) fn registration(
    rt: &impl Abort,
    alloc: Global,
    node: &Text,
    capacity: Resources,
) -> GoodNodeCommand
    requires name { IsTrue (is_name NameKind.Node node.now) }
    requires capacity { IsTrue (is_amount capacity) }
{
    let offer = Offer {
        class: text(rt, alloc, "linux"),
        attributes: Rows::new(alloc),
        capacity,
    };
    GoodNodeCommand::new(NodeCommand::PutNode(copied(rt, node), offer))
}

pub(crate) fn eligibility(rt: &impl Abort, node: &Text, eligible: bool) -> GoodNodeCommand {
    GoodNodeCommand::new(NodeCommand::SetEligible(copied(rt, node), eligible))
}

pub(crate) fn answered(
    core: &mut Core,
    secret: &Text,
    pool: &Text,
    command: &GoodNodeCommand,
) -> Result<Reply, Refusal> {
    match core.node(pool, Some(secret), command) {
        Err(Refusal::Memory) => core.node(pool, Some(secret), command),
        answer => answer,
    }
}

fn refused(answer: &Result<Reply, Refusal>) -> Option<Refusal> {
    match answer {
        Ok(reply) => match &reply.content {
            Content::Written => None,
            _ => Some(Refusal::NotEnabled),
        },
        Err(refusal) => Some(*refusal),
    }
}

/// The refusal of the command. None: it is written.
pub(crate) fn refusal(
    core: &mut Core,
    secret: &Text,
    pool: &Text,
    command: &GoodNodeCommand,
) -> Option<Refusal> {
    seen(answered(core, secret, pool, command), refused)
}
