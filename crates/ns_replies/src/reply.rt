//! The responses to requests that were answered by a reply.

ghost use Rattle.std.specs.Prelude.{◌≡◌, IfOk, Ok, string_bytes};
ghost use Rattle.ns_types.specs.Wire.Responses.{rendered_of};
ghost use Rattle.ns_json.specs.Replies.{body_of, rendered};
ghost use Rattle.ns_replies.specs.Rendered.{IsRendered, IsText};

use crate::events::events_text;
use crate::records::usage_text;
use crate::room::Room;
use crate::shown::text_of;
use ns_types::reply::{Content, Reply, Response};
use std::alloc::{AllocError, Global};

/// The response to a request that was answered by a reply. Want of memory is the only error.
#[tactic(auto, unfolding(ns_json::specs::Replies::rendered, ns_json::specs::Replies::body_of))]
pub fn render(alloc: Global, reply: &Reply) -> Result<Response, AllocError>
    requires { IsRendered reply.now.content }
    ensures { IfOk result (λ response. rendered_of response ≡ rendered (Ok reply.now)) }
{
    match &reply.content {
        Content::Registered(_, _, _) | Content::Job(_) => ns_json::render(alloc, reply),
        Content::Stopped(_, _) | Content::Written => {
            let room = Room::new(alloc)?;
            Ok(room.render(reply))
        }
        content => {
            let body = body_text(alloc, content)?;
            Ok(Response::Done(reply.index, body))
        }
    }
}

#[tactic(auto, unfolding(ns_json::specs::Replies::body_of))]
fn body_text(alloc: Global, content: &Content) -> Result<String, AllocError>
    requires { IsText content.now }
    ensures { IfOk result (λ body. string_bytes body ≡ body_of content.now) }
{
    match content {
        Content::Jobs(jobs) => text_of(alloc, jobs),
        Content::Evaluation(evaluation) => text_of(alloc, evaluation.get()),
        Content::Evaluations(evaluations) => text_of(alloc, evaluations),
        Content::Allocation(allocation) => text_of(alloc, allocation.get()),
        Content::Allocations(allocations) => text_of(alloc, allocations),
        Content::Namespace(namespace) => text_of(alloc, namespace.get()),
        Content::Namespaces(namespaces) => text_of(alloc, namespaces),
        Content::Quota(quota) => text_of(alloc, quota),
        Content::Quotas(quotas) => text_of(alloc, quotas),
        Content::Usage(name, used) => usage_text(alloc, name, used),
        Content::Pool(pool) => text_of(alloc, pool),
        Content::Pools(pools) => text_of(alloc, pools),
        Content::Nodes(nodes) => text_of(alloc, nodes),
        Content::Policy(policy) => text_of(alloc, policy),
        Content::Token(token) => text_of(alloc, token),
        Content::Events(namespace, events) => events_text(alloc, namespace, events),
        _ => unreachable!(),
    }
}
