//! What requests want, by their path and their method.

ghost use Rattle.std.specs.Prelude.{◌≡◌, IfOk, is_some, true, unwrap_or};
ghost use Rattle.uuid.specs.Text.{parsed};
ghost use Rattle.ns_request.specs.declared.method.Method.TheVariants as Method;
ghost use Rattle.ns_json.specs.Ids.{id_of};
ghost use Rattle.ns_http.specs.Head.{asked};
ghost use Rattle.ns_endpoints.specs.Asking.{asked_of, canonical, deregistration_asked, events_asked};
ghost use Rattle.ns_endpoints.specs.Parts.{prefix_in, third_part};
ghost use Rattle.ns_endpoints.specs.Wanted.{IsServedWanted, Wants};

use crate::documents::{create_token, put_namespace, put_policy, put_pool, put_quota, register};
use crate::nodes::{put_eligibility, put_node, put_report, put_status};
use crate::wanted::{Wanted, administers, asks, asks_in, commands};
use ns_request::{Endpoint, Method, RequestTarget};
use ns_types::id::{IdKind, id_read};
use ns_types::refusal::Refusal;
use ns_types::step::{AdminCommand, AskCommand, NodeCommand};
use ns_types::text::Text;
use std::alloc::{AllocError, Global};
use uuid::Uuid;

/// The UUID that the text writes, in lower case with hyphens. Want of memory is the only error.
fn canonical(alloc: Global, text: &str) -> Result<Text, AllocError>
    requires { is_some (parsed text.now) ≡ true }
    ensures { IfOk result (λ id. id ≡ canonical text.now) }
{
    let Ok(id) = Uuid::parse_str(text) else {
        unreachable!()
    };
    let mut buffer = [0; 36];
    Text::from_str(alloc, id.hyphenated().encode_lower(&mut buffer))
}

/// The number of the id that the path names.
fn number(kind: IdKind, id: &Text) -> u64
    requires { is_some (id_of kind id.now) ≡ true }
    ensures { result ≡ unwrap_or (id_of kind id.now) 0 }
{
    let Some(number) = id_read(kind, id.as_str()) else {
        unreachable!()
    };
    number
}

/// The prefix of the ids to list. Want of memory is the only error.
fn prefix(alloc: Global, target: &RequestTarget<'_>) -> Result<Text, AllocError>
    ensures { IfOk result (λ prefix. prefix ≡ prefix_in (asked target.now.request)) }
{
    Text::from_str(alloc, target.query.prefix())
}

/// A deregistration of the job that the path names.
#[tactic(auto, unfolding(crate::specs::Asking::deregistration_asked, crate::specs::Wanted::step_of))]
fn deregister(alloc: Global, target: &RequestTarget<'_>) -> Result<Wanted, Refusal>
    requires { target.now.name ≡ third_part (asked target.now.request) }
    ensures wanted { Wants target.now.request result deregistration_asked }
    ensures served { IfOk result IsServedWanted }
{
    // A fault of the namespace comes before that of the purge.
    drop(target.query.namespace(alloc)?);
    let purge = target.query.purge()?;
    Ok(asks(AskCommand::Deregister(target.name.clone()?, purge)))
}

/// The events of a namespace, from the index that the query names.
#[tactic(auto, unfolding(crate::specs::Asking::events_asked, crate::specs::Wanted::step_of))]
fn stream(alloc: Global, target: &RequestTarget<'_>) -> Result<Wanted, Refusal>
    ensures wanted { Wants target.now.request result events_asked }
    ensures served { IfOk result IsServedWanted }
{
    // A fault of the namespace comes before that of the index.
    drop(target.query.namespace(alloc)?);
    let index = target.query.index()?;
    Ok(asks(AskCommand::Events(index)))
}

#[tactic(auto, unfolding(crate::specs::Asking::asked_of, crate::specs::Asking::ask_of, crate::specs::Asking::admin_of, crate::specs::Parts::bearer_in, crate::specs::Asking::namespace_read, crate::specs::Asking::pool_read, crate::specs::Nodes::node_of, crate::specs::Wanted::step_of))]
fn read(alloc: Global, target: &RequestTarget<'_>) -> Result<Wanted, Refusal>
    ensures wanted { Wants target.now.request result (asked_of target.now.endpoint Method.Get) }
    ensures served { IfOk result IsServedWanted }
{
    match target.endpoint {
        Endpoint::Jobs => Ok(asks(AskCommand::ListJobs(prefix(alloc, target)?))),
        Endpoint::Job => Ok(asks(AskCommand::ReadJob(target.name.clone()?))),
        Endpoint::JobAllocations => Ok(asks(AskCommand::JobAllocations(target.name.clone()?))),
        Endpoint::JobEvaluations => Ok(asks(AskCommand::JobEvaluations(target.name.clone()?))),
        Endpoint::Evaluations => Ok(asks(AskCommand::ListEvaluations(prefix(alloc, target)?))),
        Endpoint::Evaluation => Ok(asks(AskCommand::ReadEvaluation(number(
            IdKind::Evaluation,
            &target.name,
        )))),
        Endpoint::Allocations => Ok(asks(AskCommand::ListAllocations(prefix(alloc, target)?))),
        Endpoint::Allocation => Ok(asks(AskCommand::ReadAllocation(number(
            IdKind::Allocation,
            &target.name,
        )))),
        Endpoint::Namespaces => Ok(administers(AdminCommand::ListNamespaces)),
        Endpoint::Namespace => Ok(asks_in(target.name.clone()?, AskCommand::ReadNamespace)),
        Endpoint::Quotas => Ok(administers(AdminCommand::ListQuotas)),
        Endpoint::Quota => Ok(administers(AdminCommand::ReadQuota(target.name.clone()?))),
        Endpoint::QuotaUsage => Ok(asks(AskCommand::QuotaUsage(target.name.clone()?))),
        Endpoint::EventStream => stream(alloc, target),
        Endpoint::Pools => Ok(administers(AdminCommand::ListPools)),
        Endpoint::Pool => Ok(commands(target.name.clone()?, NodeCommand::ReadPool)),
        Endpoint::PoolNodes => Ok(commands(target.name.clone()?, NodeCommand::ListNodes)),
        Endpoint::Policy => Ok(administers(AdminCommand::ReadPolicy(target.name.clone()?))),
        _ => Err(Refusal::NotServed),
    }
}

#[tactic(auto, unfolding(crate::specs::Asking::asked_of, crate::specs::Asking::ask_of, crate::specs::Wanted::step_of))]
fn write(alloc: Global, target: &RequestTarget<'_>) -> Result<Wanted, Refusal>
    ensures wanted { Wants target.now.request result (asked_of target.now.endpoint Method.Write) }
    ensures served { IfOk result IsServedWanted }
{
    let request = &target.request;
    match target.endpoint {
        Endpoint::Jobs => register(alloc, request),
        Endpoint::NewNamespace => put_namespace(alloc, request, None),
        Endpoint::Namespace => put_namespace(alloc, request, Some(&target.name)),
        Endpoint::NewQuota => put_quota(alloc, request, None),
        Endpoint::Quota => put_quota(alloc, request, Some(&target.name)),
        Endpoint::Pools => put_pool(alloc, request, None),
        Endpoint::Pool => put_pool(alloc, request, Some(&target.name)),
        Endpoint::AllocationStop => Ok(asks(AskCommand::StopAllocation(number(
            IdKind::Allocation,
            &target.name,
        )))),
        Endpoint::Node => put_node(alloc, request, &target.name, &target.node),
        Endpoint::NodeStatus => put_status(alloc, request, &target.name, &target.node),
        Endpoint::NodeEligibility => put_eligibility(alloc, request, &target.name, &target.node),
        Endpoint::NodeReport => put_report(alloc, request, &target.name, &target.node),
        Endpoint::Policy => put_policy(alloc, request, &target.name),
        Endpoint::NewToken => create_token(alloc, request),
        _ => Err(Refusal::NotServed),
    }
}

#[tactic(auto, unfolding(crate::specs::Asking::asked_of, crate::specs::Asking::admin_of, crate::specs::Parts::bearer_in, crate::specs::Nodes::node_of, crate::specs::Wanted::step_of))]
fn delete(alloc: Global, target: &RequestTarget<'_>) -> Result<Wanted, Refusal>
    ensures wanted { Wants target.now.request result (asked_of target.now.endpoint Method.Delete) }
    ensures served { IfOk result IsServedWanted }
{
    let wanted = match target.endpoint {
        Endpoint::Job => return deregister(alloc, target),
        Endpoint::Namespace => administers(AdminCommand::DeleteNamespace(target.name.clone()?)),
        Endpoint::Quota => administers(AdminCommand::DeleteQuota(target.name.clone()?)),
        Endpoint::Pool => administers(AdminCommand::DeletePool(target.name.clone()?)),
        Endpoint::Node => {
            commands(
                target.name.clone()?,
                NodeCommand::DeleteNode(target.node.clone()?),
            )
        }
        Endpoint::Policy => administers(AdminCommand::DeletePolicy(target.name.clone()?)),
        Endpoint::Token => {
            let accessor = canonical(alloc, target.name.as_str())?;
            administers(AdminCommand::DeleteToken(accessor))
        }
        _ => return Err(Refusal::NotServed),
    };
    Ok(wanted)
}

/// What the request wants, by its path and its method, or the refusal that needs no state.
pub fn wanted(alloc: Global, target: &RequestTarget<'_>) -> Result<Wanted, Refusal>
    ensures wanted { Wants target.now.request result
        (asked_of target.now.endpoint target.now.method) }
    ensures served { IfOk result IsServedWanted }
{
    match target.method {
        Method::Get => read(alloc, target),
        Method::Write => write(alloc, target),
        Method::Delete => delete(alloc, target),
    }
}
