//! Answers as bytes.

ghost use Rattle.std.specs.Prelude.{◌≡◌, IfOk, Ok, string_bytes};
ghost use Rattle.ns_types.specs.Wire.Refused.{refused};
ghost use Rattle.ns_types.specs.Wire.Responses.{rendered_of};
ghost use Rattle.ns_json.specs.Replies.{rendered};

use crate::answers::body::body_text;
use ns_types::body::Body;
use ns_types::refusal::Refusal;
use ns_types::reply::{Content, Rendered, Reply, Response};
use std::alloc::{AllocError, Global};

/// The refusal as bytes. Want of memory is the only error.
pub fn refused(alloc: Global, refusal: Refusal) -> Result<Rendered, AllocError>
    ensures { IfOk result (λ r. r ≡ refused refusal) }
{
    let body = Body::from_str(alloc, refusal.text())?;
    Ok(Rendered {
        status: refusal.status(),
        index: None,
        body,
    })
}

/// The answer of a step that was made, with that body.
pub(crate) fn done(index: Option<u64>, body: String) -> Rendered
    ensures { result ≡ record { status = 200; index = index; body = string_bytes body } }
{
    Rendered {
        status: 200,
        index,
        body: Body::from_string(body),
    }
}

fn of_response(alloc: Global, response: Response) -> Result<Rendered, AllocError>
    ensures { IfOk result (λ r. r ≡ rendered_of response) }
{
    match response {
        Response::Done(index, body) => Ok(done(index, body)),
        Response::Refused(refusal) => refused(alloc, refusal),
    }
}

/// The reply as bytes, in new memory. Want of memory is the only error.
#[tactic(auto, unfolding(ns_json::specs::Replies::rendered))]
pub fn render(alloc: Global, reply: &Reply) -> Result<Rendered, AllocError>
    ensures { IfOk result (λ r. r ≡ rendered (Ok reply.now)) }
{
    match &reply.content {
        Content::Took(_)
        | Content::Snapped(_)
        | Content::Queued(_)
        | Content::Applied(_, _)
        | Content::Finished(_, _)
        | Content::Nacked(_) => {
            let body = body_text(Vec::new(alloc), &reply.content)?;
            Ok(done(reply.index, body))
        }
        _ => {
            let response = crate::render(alloc, reply)?;
            of_response(alloc, response)
        }
    }
}
