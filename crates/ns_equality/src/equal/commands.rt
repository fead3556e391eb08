//! Requests in a namespace, of administrators, and about a pool.

use crate::equal::Equal;
use ns_types::step::{AdminCommand, AskCommand, NodeCommand};

impl Equal for AskCommand {
    fn equal(&self, other: &AskCommand) -> bool {
        match (self, other) {
            (AskCommand::ListJobs(x), AskCommand::ListJobs(y)) => x.equal(y),
            (AskCommand::Register(x), AskCommand::Register(y)) => x.equal(y),
            (AskCommand::ReadJob(x), AskCommand::ReadJob(y)) => x.equal(y),
            (AskCommand::Deregister(x, purge), AskCommand::Deregister(y, second)) => {
                x.equal(y) && purge.equal(second)
            }
            (AskCommand::JobAllocations(x), AskCommand::JobAllocations(y)) => x.equal(y),
            (AskCommand::JobEvaluations(x), AskCommand::JobEvaluations(y)) => x.equal(y),
            (AskCommand::ListEvaluations(x), AskCommand::ListEvaluations(y)) => x.equal(y),
            (AskCommand::ReadEvaluation(x), AskCommand::ReadEvaluation(y)) => x.equal(y),
            (AskCommand::ListAllocations(x), AskCommand::ListAllocations(y)) => x.equal(y),
            (AskCommand::ReadAllocation(x), AskCommand::ReadAllocation(y)) => x.equal(y),
            (AskCommand::StopAllocation(x), AskCommand::StopAllocation(y)) => x.equal(y),
            (AskCommand::ReadNamespace, AskCommand::ReadNamespace) => true,
            (AskCommand::QuotaUsage(x), AskCommand::QuotaUsage(y)) => x.equal(y),
            (AskCommand::Events(x), AskCommand::Events(y)) => x.equal(y),
            _ => false,
        }
    }
}

impl Equal for AdminCommand {
    fn equal(&self, other: &AdminCommand) -> bool {
        match (self, other) {
            (AdminCommand::ListNamespaces, AdminCommand::ListNamespaces) => true,
            (AdminCommand::PutNamespace(x, row), AdminCommand::PutNamespace(y, second)) => {
                x.equal(y) && row.equal(second)
            }
            (AdminCommand::DeleteNamespace(x), AdminCommand::DeleteNamespace(y)) => x.equal(y),
            (AdminCommand::ListQuotas, AdminCommand::ListQuotas) => true,
            (AdminCommand::ReadQuota(x), AdminCommand::ReadQuota(y)) => x.equal(y),
            (AdminCommand::PutQuota(x, row), AdminCommand::PutQuota(y, second)) => {
                x.equal(y) && row.equal(second)
            }
            (AdminCommand::DeleteQuota(x), AdminCommand::DeleteQuota(y)) => x.equal(y),
            (AdminCommand::ListPools, AdminCommand::ListPools) => true,
            (AdminCommand::PutPool(x, row), AdminCommand::PutPool(y, second)) => {
                x.equal(y) && row.equal(second)
            }
            (AdminCommand::DeletePool(x), AdminCommand::DeletePool(y)) => x.equal(y),
            (AdminCommand::ReadPolicy(x), AdminCommand::ReadPolicy(y)) => x.equal(y),
            (AdminCommand::PutPolicy(x, row), AdminCommand::PutPolicy(y, second)) => {
                x.equal(y) && row.equal(second)
            }
            (AdminCommand::DeletePolicy(x), AdminCommand::DeletePolicy(y)) => x.equal(y),
            (AdminCommand::CreateToken(x), AdminCommand::CreateToken(y)) => x.equal(y),
            (AdminCommand::DeleteToken(x), AdminCommand::DeleteToken(y)) => x.equal(y),
            _ => false,
        }
    }
}

impl Equal for NodeCommand {
    fn equal(&self, other: &NodeCommand) -> bool {
        match (self, other) {
            (NodeCommand::ReadPool, NodeCommand::ReadPool)
            | (NodeCommand::ListNodes, NodeCommand::ListNodes) => true,
            (NodeCommand::PutNode(x, offer), NodeCommand::PutNode(y, second)) => {
                x.equal(y) && offer.equal(second)
            }
            (NodeCommand::DeleteNode(x), NodeCommand::DeleteNode(y)) => x.equal(y),
            (NodeCommand::SetStatus(x, status), NodeCommand::SetStatus(y, second)) => {
                x.equal(y) && status.equal(second)
            }
            (NodeCommand::SetEligible(x, eligible), NodeCommand::SetEligible(y, second)) => {
                x.equal(y) && eligible.equal(second)
            }
            (NodeCommand::Report(x, report), NodeCommand::Report(y, second)) => {
                x.equal(y) && report.equal(second)
            }
            _ => false,
        }
    }
}
