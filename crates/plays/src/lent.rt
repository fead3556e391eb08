//! The core that a server lends for one request.

use crate::same_bytes::SameBytes;
use ns_api::{Api, NoFollower, Takes, respond};
use ns_core::Core;
use ns_http::{Answer, Request};
use ns_types::reply::Response;
use ns_types::step::Step;
use std::alloc::{AllocError, Global};

#[derive(Drop)]
pub struct Lent<'a> {
    pub core: &'a mut Core,
}

impl Takes for Lent<'_> {
    ghost use Rattle.ns_api.specs.Answering.{AnswersOrWants};
    ghost use Rattle.ns_api.specs.Cores.{NotesNothing, itself};
    ghost use Rattle.ns_api.specs.Lacking.{LacksNothing};

    ghost takes = { λ step old reply new.
        AnswersOrWants itself NotesNothing LacksNothing step old.core.now reply new.core.now };

    fn respond(&mut self, alloc: Global, step: Step) -> Response {
        respond(alloc, self.core, step)
    }
}

/// The response of the core to the request. The first draw is of the byte `next`, and each later one of a byte that is greater
/// by `step`.
pub fn answered(
    alloc: Global,
    core: &mut Core,
    next: &mut u8,
    step: u8,
    request: &Request<'_>,
) -> Result<Response, AllocError> {
    let draws = SameBytes { next, step };
    let mut api = Api::new(alloc, Lent { core }, draws, NoFollower)?;
    let response = api.answer(request);
    drop(api);
    Ok(response)
}
