//! A response that borrows its text, and the parts of its head that the status decides.
ghost use Rattle.std.specs.Prelude.{◌≡◌, ◌≤◌, length};
ghost use Rattle.ns_types.specs.Wire.Refused.{refused};
ghost use Rattle.ns_types.specs.Wire.Responses.{phrase, content_type, rendered_of, fault_refusal, refusal_of};
ghost use Rattle.ns_http.specs.Output.{rendered_by};

use ns_types::refusal::Refusal;
use ns_types::reply::{HeadFault, Response};
use std::alloc::Allocator;

/// A response that borrows its text.
#[derive(Clone, Copy)]
pub(crate) struct Outgoing<'a> {
    pub(crate) status: u16,
    pub(crate) index: Option<u64>,
    pub(crate) body: &'a [u8],
}

impl<'a> Outgoing<'a> {
    /// The response of the handler.
    pub(crate) fn of<A: Allocator>(response: &'a Response<A>) -> Outgoing<'a>
        ensures { rendered_by result ≡ rendered_of response.now }
    {
        match response {
            Response::Done(index, body) => Outgoing {
                status: 200,
                index: *index,
                body: body.as_bytes(),
            },
            Response::Refused(refusal) => Outgoing::refusal(*refusal),
        }
    }

    /// A refusal, by its status and its text.
    fn refusal(refusal: Refusal) -> Outgoing<'static>
        ensures { rendered_by result ≡ refused refusal }
    {
        Outgoing {
            status: refusal.status(),
            index: None,
            body: refusal.text().as_bytes(),
        }
    }

    /// The engine's own response to a head with this fault.
    pub(crate) fn fault(fault: HeadFault) -> Outgoing<'static>
        ensures { rendered_by result ≡ refusal_of fault }
    {
        Outgoing::refusal(fault_refusal(fault))
    }
}

/// The refusal of a head with this fault.
fn fault_refusal(fault: HeadFault) -> Refusal
    ensures { result ≡ fault_refusal fault }
{
    match fault {
        HeadFault::BadHead => Refusal::BadHead,
        HeadFault::NeedLength => Refusal::NeedLength,
        HeadFault::TooLarge => Refusal::TooLarge,
    }
}

/// The phrase that goes with the status.
pub(crate) fn phrase(status: u16) -> &'static str
    ensures value { result.now ≡ phrase status }
    ensures len { length result.now ≤ 32 }
{
    match status {
        200 => "OK",
        400 => "Bad Request",
        403 => "Forbidden",
        404 => "Not Found",
        405 => "Method Not Allowed",
        409 => "Conflict",
        411 => "Length Required",
        413 => "Content Too Large",
        501 => "Not Implemented",
        503 => "Service Unavailable",
        _ => "",
    }
}

/// The media type of a body with the status.
pub(crate) fn content_type(status: u16) -> &'static str
    ensures value { result.now ≡ content_type status }
    ensures len { length result.now ≤ 32 }
{
    if status == 200 {
        "application/json"
    } else {
        "text/plain; charset=utf-8"
    }
}
