//! Which steps may change something. The room for their answers has to be taken before them.

ghost use Rattle.std.specs.Prelude.{◌≡◌};
ghost use Rattle.ns_replies.specs.Laws.{may_change};

use ns_types::step::{AdminCommand, AskCommand, NodeCommand, Step};

/// Whether the step may change something: it is a request that does not only read, or a worker's step.
pub fn may_change(step: &Step) -> bool
    ensures { result ≡ may_change step.now }
{
    match step {
        Step::Ask(_, _, command) => matches!(
            command.get(),
            AskCommand::Register(_) | AskCommand::Deregister(_, _) | AskCommand::StopAllocation(_)
        ),
        Step::Admin(_, command) => !matches!(
            command.get(),
            AdminCommand::ListNamespaces
                | AdminCommand::ListQuotas
                | AdminCommand::ReadQuota(_)
                | AdminCommand::ListPools
                | AdminCommand::ReadPolicy(_)
        ),
        Step::Node(_, _, command) => !matches!(
            command.get(),
            NodeCommand::ReadPool | NodeCommand::ListNodes
        ),
        _ => true,
    }
}
