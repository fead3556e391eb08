//! Decides which steps are the own steps of a namespace that has a list of pools and a list of quotas.

ghost use Rattle.std.specs.Prelude.{◌≡◌};
ghost use Rattle.ns_types.specs.Isolation.{concerns, is_own, is_own_admin, part_of};

use ns_admin::confinement::names_within;
use ns_equality::has_name;
use ns_types::step::{AdminCommand, NodeCommand, Step};
use ns_types::text::{Text, same_text};

/// Whether a command about one of the pools concerns the namespace: a report of another namespace's allocation does not.
fn concerns(namespace: &Text, pools: &[Text], quotas: &[Text], command: &NodeCommand) -> bool
    ensures { result ≡ concerns (part_of namespace.now pools.now quotas.now) command.now }
{
    match command {
        NodeCommand::Report(_, report) => same_text(namespace, &report.namespace),
        _ => true,
    }
}

/// Whether an administrator's command is about the namespace's record, its quotas or its pools, or about policies and tokens. A
/// put of the record that names another pool or quota is not its own, and neither is a list.
#[tactic(auto, unfolding(ns_types::specs::Isolation::is_own_admin))]
fn is_own_admin(namespace: &Text, pools: &[Text], quotas: &[Text], command: &AdminCommand) -> bool
    ensures { result ≡ is_own_admin (part_of namespace.now pools.now quotas.now) command.now }
{
    match command {
        AdminCommand::ListNamespaces | AdminCommand::ListQuotas | AdminCommand::ListPools => false,
        AdminCommand::PutNamespace(name, record) => {
            same_text(namespace, name) && names_within(record, pools, quotas)
        }
        AdminCommand::DeleteNamespace(name) => same_text(namespace, name),
        AdminCommand::ReadQuota(name)
        | AdminCommand::PutQuota(name, _)
        | AdminCommand::DeleteQuota(name) => has_name(quotas, name),
        AdminCommand::PutPool(name, _) | AdminCommand::DeletePool(name) => has_name(pools, name),
        AdminCommand::ReadPolicy(_)
        | AdminCommand::PutPolicy(_, _)
        | AdminCommand::DeletePolicy(_)
        | AdminCommand::CreateToken(_)
        | AdminCommand::DeleteToken(_) => true,
    }
}

/// Whether the step is the namespace's own: a command about it; a command about one of the pools, except a report of another
/// namespace's allocation; an administrator's command about its record, the quotas, the pools or the access lists; or a step
/// that a worker makes for it.
#[tactic(auto, unfolding(ns_types::specs::Isolation::is_own))]
pub fn is_own(step: &Step, namespace: &Text, pools: &[Text], quotas: &[Text]) -> bool
    ensures { result ≡ is_own (part_of namespace.now pools.now quotas.now) step.now }
{
    match step {
        Step::Ask(asked, _, _) => same_text(namespace, asked),
        Step::Admin(_, command) => is_own_admin(namespace, pools, quotas, command.get()),
        Step::Node(pool, _, command) => {
            has_name(pools, pool) && concerns(namespace, pools, quotas, command.get())
        }
        Step::Dequeue(_, label, _)
        | Step::Snap(_, label)
        | Step::Submit(_, label)
        | Step::Apply(_, label)
        | Step::Finish(_, label)
        | Step::Nack(_, label) => same_text(namespace, label),
    }
}
