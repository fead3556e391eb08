//! Replies to steps.

use crate::acl::{Policy, TokenKind};
use crate::allocation::Allocation;
use crate::body::Body;
use crate::evaluation::{Evaluation, Status};
use crate::event::Event;
use crate::job::Job;
use crate::node::Node;
use crate::records::{Namespace, Pool, Quota};
use crate::refusal::Refusal;
use crate::resources::Resources;
use crate::rows::Rows;
use crate::shared::Shared;
use crate::text::Text;
use std::alloc::{Allocator, Global};

#[derive(Clone, Copy, PartialEq, Eq)]
pub enum JobStatus {
    Dead,
    Running,
    Pending,
}

#[derive(Drop)]
pub struct JobShown {
    pub namespace: Text,
    pub id: Text,
    pub row: Job,
    pub status: JobStatus,
}

#[derive(Drop)]
pub struct EvaluationShown {
    pub namespace: Text,
    pub number: u64,
    pub row: Evaluation,
}

#[derive(Drop)]
pub struct AllocationShown {
    pub namespace: Text,
    pub number: u64,
    pub row: Allocation,
}

#[derive(Drop)]
pub struct NamespaceShown {
    pub name: Text,
    pub row: Namespace,
}

#[derive(Drop)]
pub struct QuotaShown {
    pub name: Text,
    pub row: Quota,
}

#[derive(Drop)]
pub struct PoolShown {
    pub name: Text,
    pub row: Pool,
}

#[derive(Drop)]
pub struct NodeShown {
    pub pool: Text,
    pub name: Text,
    pub row: Node,
    pub used: Resources,
}

#[derive(Drop)]
pub struct PolicyShown {
    pub name: Text,
    pub row: Policy,
}

#[derive(Drop)]
pub struct TokenShown {
    pub accessor: Text,
    pub secret: Text,
    pub name: Text,
    pub kind: TokenKind,
    pub policies: Rows<Text>,
}

/// What a reply has beside the index. The longest rows are shared, so that each move of a reply copies less.
pub enum Content {
    /// The number of the evaluation that was made, its index, and the job's modify index.
    Registered(u64, u64, u64),
    /// The number of the evaluation that was made, and its index.
    Stopped(u64, u64),
    Job(JobShown),
    Jobs(Rows<JobShown>),
    Evaluation(Shared<EvaluationShown>),
    Evaluations(Rows<EvaluationShown>),
    Allocation(Shared<AllocationShown>),
    Allocations(Rows<AllocationShown>),
    Namespace(Shared<NamespaceShown>),
    Namespaces(Rows<NamespaceShown>),
    Quota(QuotaShown),
    Quotas(Rows<QuotaShown>),
    Usage(Text, Resources),
    Pool(PoolShown),
    Pools(Rows<PoolShown>),
    Nodes(Rows<NodeShown>),
    Policy(PolicyShown),
    Token(TokenShown),
    /// The events of that namespace.
    Events(Text, Rows<Event>),
    /// A write whose reply has no content.
    Written,
    Took(u64),
    Snapped(u64),
    Queued(u64),
    /// The numbers of the allocations that were made, and the nodes that were dropped, by name.
    Applied(Rows<u64>, Rows<Text>),
    /// How the evaluation ended, and the evaluation that follows it.
    Finished(Status, Option<u64>),
    Nacked(Status),
}

impl Drop for Content {
    fn drop(self) {
        match self {
            Content::Registered(_, _, _) => {}
            Content::Stopped(_, _) => {}
            Content::Job(_shown) => {}
            Content::Jobs(_shown) => {}
            Content::Evaluation(_shown) => {}
            Content::Evaluations(_shown) => {}
            Content::Allocation(_shown) => {}
            Content::Allocations(_shown) => {}
            Content::Namespace(_shown) => {}
            Content::Namespaces(_shown) => {}
            Content::Quota(_shown) => {}
            Content::Quotas(_shown) => {}
            Content::Usage(_quota, _) => {}
            Content::Pool(_shown) => {}
            Content::Pools(_shown) => {}
            Content::Nodes(_shown) => {}
            Content::Policy(_shown) => {}
            Content::Token(_shown) => {}
            Content::Events(_namespace, _events) => {}
            Content::Written => {}
            Content::Took(_) => {}
            Content::Snapped(_) => {}
            Content::Queued(_) => {}
            Content::Applied(_made, _dropped) => {}
            Content::Finished(_, _) => {}
            Content::Nacked(_) => {}
        }
    }
}

pub struct Reply {
    /// The namespace's index after the step, if the request was made in a namespace.
    pub index: Option<u64>,
    pub content: Content,
}

impl Drop for Reply {
    fn drop(self) {
        let Reply {
            index: _index,
            content: _content,
        } = self;
    }
}

/// An answer as it is sent.
#[derive(Drop)]
pub struct Rendered {
    pub status: u16,
    pub index: Option<u64>,
    pub body: Body,
}

/// The response to a request: the index and the body of a reply, whose status is 200, or a refusal, which takes no memory.
#[derive(Drop)]
pub enum Response<A: Allocator = Global> {
    Done(Option<u64>, String<A>),
    Refused(Refusal),
}

/// Why the head of a request is refused.
#[derive(Clone, Copy, PartialEq, Eq)]
pub enum HeadFault {
    BadHead,
    NeedLength,
    TooLarge,
}
