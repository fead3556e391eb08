//! Answers requests, over anything that takes the steps which they ask for, and does what follows them.

ghost use Rattle.std.specs.Prelude.{◌≡◌, IfOk};
ghost use Rattle.ns_types.specs.Wire.Responses.{rendered_of};
ghost use Rattle.ns_http.specs.Head;
ghost use Rattle.ns_steps.specs.Served.{IsServed};
ghost use Rattle.ns_api.specs.Answering.{AnswersRequest};
ghost use Rattle.ns_api.specs.Serving.{held};

use crate::following::Follows;
use ns_endpoints::{Draws, Router};
use ns_http::{Answer, Request};
use ns_types::reply::Response;
use ns_types::step::Step;
use std::alloc::{AllocError, Global};

/// What takes steps: a server, or a seat at one that threads share.
pub trait Takes {
    ghost use Rattle.ns_types.specs.declared.reply.Rendered.{Rendered};
    ghost use Rattle.ns_types.specs.declared.step.Step.{Step as AStep};

    // A call for that step, with that reply, leads from the first value to the second.
    ghost takes: { AStep → Self → Rendered → Self → Type 0 };

    /// Makes the step, and responds with its answer, or with the refusal that says what was wanting.
    fn respond(&mut self, alloc: Global, step: Step) -> Response
        requires { IsServed step }
        ensures { takes step self.old (rendered_of result) self.new };
}

/// Answers requests over what takes their steps, with the random bits that new tokens need, and does after each what follows.
#[derive(Drop)]
pub struct Api<T, D, F> {
    taker: T,
    router: Router<D>,
    follower: F,
    alloc: Global,
}

impl<T: Takes, D: Draws, F> Api<T, D, F> {
    /// Makes the table of the paths, once. Want of memory is the only error.
    pub fn new(alloc: Global, taker: T, draws: D, follower: F) -> Result<Api<T, D, F>, AllocError>
    where
        T: Drop,
        D: Drop,
        F: Drop,
        ensures taker { IfOk result (λ api. api.taker ≡ taker) }
        ensures drawer { IfOk result (λ api. api.router.draws ≡ draws) }
        ensures follower { IfOk result (λ api. api.follower ≡ follower) }
    {
        let router = Router::new(alloc, draws)?;
        Ok(Api {
            taker,
            router,
            follower,
            alloc,
        })
    }

    /// What takes the steps.
    pub fn taker(&self) -> &T
        ensures { result.now ≡ self.now.taker }
    {
        &self.taker
    }

    /// Returns what took the steps, and drops the rest.
    pub fn into_taker(self) -> T
    where
        D: Drop,
        F: Drop,
        ensures { result ≡ self.taker }
    {
        let Api {
            taker,
            router: _router,
            follower: _follower,
            alloc: _,
        } = self;
        taker
    }

    /// Answers a request, without what follows it.
    fn request(&mut self, request: &Request<'_>) -> Response
        ensures answered { AnswersRequest T.takes D.draws (held self.old)
            (Head.asked request.now) (rendered_of result) (held self.new) }
        ensures not_yet { self.new.follower ≡ self.old.follower }
    {
        match self.router.step(self.alloc, request) {
            Ok(step) => self.taker.respond(self.alloc, step),
            Err(refusal) => Response::Refused(refusal),
        }
    }
}

impl<T: Takes, D: Draws, F: Follows<T>> Answer for Api<T, D, F> {
    ghost use Rattle.ns_api.specs.Answering.{Answers};
    ghost use Rattle.ns_api.specs.Serving.{holding};

    ghost answers = { λ old a reply new.
        Answers T.takes D.draws F.follows (holding old) a reply (holding new) };

    type A = Global;

    fn answer(&mut self, request: &Request<'_>) -> Response {
        let response = self.request(request);
        self.follower.follow(self.alloc, &mut self.taker);
        response
    }
}
