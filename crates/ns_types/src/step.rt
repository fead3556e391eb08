//! The steps of the server.

use crate::acl::{Policy, TokenKind};
use crate::allocation::ClientStatus;
use crate::good::{GoodAdmin, GoodAsk, GoodNodeCommand};
use crate::job::Registration;
use crate::node::{NodeStatus, Offer};
use crate::records::{Namespace, Pool, Quota};
use crate::rows::Rows;
use crate::text::Text;

/// A request in one namespace.
#[derive(Drop)]
pub enum AskCommand {
    /// The jobs whose ids begin with the text.
    ListJobs(Text),
    Register(Registration),
    ReadJob(Text),
    /// Stops the job, or removes it if the flag, purge, is set.
    Deregister(Text, bool),
    JobAllocations(Text),
    JobEvaluations(Text),
    ListEvaluations(Text),
    ReadEvaluation(u64),
    ListAllocations(Text),
    ReadAllocation(u64),
    StopAllocation(u64),
    ReadNamespace,
    QuotaUsage(Text),
    /// The events from that index on.
    Events(u64),
}

/// A token to be made, with the accessor and the secret that were drawn for it.
#[derive(Drop)]
pub struct NewToken {
    pub accessor: Text,
    pub secret: Text,
    pub name: Text,
    pub kind: TokenKind,
    pub policies: Rows<Text>,
}

/// A request of an administrator.
#[derive(Drop)]
pub enum AdminCommand {
    ListNamespaces,
    PutNamespace(Text, Namespace),
    DeleteNamespace(Text),
    ListQuotas,
    ReadQuota(Text),
    PutQuota(Text, Quota),
    DeleteQuota(Text),
    ListPools,
    PutPool(Text, Pool),
    DeletePool(Text),
    ReadPolicy(Text),
    PutPolicy(Text, Policy),
    DeletePolicy(Text),
    CreateToken(NewToken),
    /// The token with that accessor.
    DeleteToken(Text),
}

/// A client's report of the status of an allocation.
#[derive(Drop)]
pub struct Report {
    pub namespace: Text,
    pub number: u64,
    pub client: ClientStatus,
}

/// A request about one pool and its nodes.
#[derive(Drop)]
pub enum NodeCommand {
    ReadPool,
    ListNodes,
    PutNode(Text, Offer),
    DeleteNode(Text),
    SetStatus(Text, NodeStatus),
    SetEligible(Text, bool),
    Report(Text, Report),
}

/// One step of the server. A worker's step names the worker and the namespace of its evaluation.
pub enum Step {
    Ask(Text, Option<Text>, GoodAsk),
    Admin(Option<Text>, GoodAdmin),
    Node(Text, Option<Text>, GoodNodeCommand),
    Dequeue(u64, Text, u64),
    Snap(u64, Text),
    Submit(u64, Text),
    Apply(u64, Text),
    Finish(u64, Text),
    Nack(u64, Text),
}

impl Drop for Step {
    fn drop(self) {
        match self {
            Step::Ask(_namespace, _secret, _command) => {}
            Step::Admin(_secret, _command) => {}
            Step::Node(_pool, _secret, _command) => {}
            Step::Dequeue(_, _namespace, _) => {}
            Step::Snap(_, _namespace) => {}
            Step::Submit(_, _namespace) => {}
            Step::Apply(_, _namespace) => {}
            Step::Finish(_, _namespace) => {}
            Step::Nack(_, _namespace) => {}
        }
    }
}
