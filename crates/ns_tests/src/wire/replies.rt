// Replies to writes that are rendered without the room of a write, which no request shows. A reply is rendered again if memory
// ran out.
ghost use Rattle.std.specs.Prelude.{◌≡◌, IfOk};
ghost use Rattle.ns_replies.specs.Rendered.{IsRendered};

use ns_replies::render;
use ns_types::reply::{Content, Reply, Response};
use std::alloc::{AllocError, Global};
use std::test::Fail;

/// A reply in a box, since the drop of a box is proved sooner.
fn boxed(alloc: Global, content: Content) -> Result<Box<Reply>, AllocError>
    ensures { IfOk result (λ reply. reply.value.content ≡ content) }
{
    let reply = Reply {
        index: Some(7),
        content,
    };
    Ok(Box::new(alloc, reply)?)
}

/// The response that shows the content.
fn response(alloc: Global, content: Content) -> Result<Response, AllocError>
    requires { IsRendered content }
{
    let reply = boxed(alloc, content)?;
    render(alloc, &reply)
}

fn made(alloc: Global, registers: bool) -> Result<Response, AllocError> {
    if registers {
        response(alloc, Content::Registered(1, 7, 1))
    } else {
        response(alloc, Content::Written)
    }
}

/// The response to the first registration, or to another write.
fn shown(alloc: Global, registers: bool) -> Result<Response, AllocError> {
    match made(alloc, registers) {
        Ok(response) => Ok(response),
        Err(_) => made(alloc, registers),
    }
}

/// The body of a response that has the index.
fn body(response: &Response) -> &str {
    match response {
        Response::Done(Some(7), body) => body.as_str(),
        _ => "",
    }
}

/// Whether the body is these two texts, one after the other. It is proved sooner that each of the two is text.
fn shows(alloc: Global, registers: bool, first: &str, rest: &str) -> Result<bool, AllocError> {
    let response = shown(alloc, registers)?;
    Ok(body(&response).strip_prefix(first) == Some(rest))
}

#[test]
fn answers_writes(rt: HostRuntime) -> Result<(), Fail> {
    let alloc = rt.alloc();
    let first = "{\"EvalCreateIndex\":7,\"EvalID\":\"00000000-0000-0001-0000-000000000001\"";
    assert!(rt; shows(alloc, true, first, ",\"JobModifyIndex\":1}")?);
    assert!(rt; shows(alloc, false, "{}", "")?);
    Ok(())
}
