//! Turns a request into the step that it asks for, with its random bits.

ghost use Rattle.std.specs.Prelude.{◌≡◌, IfErr, IfOk};
ghost use Rattle.ns_http.specs.Head;
ghost use Rattle.ns_steps.specs.Served.{IsServed};
ghost use Rattle.ns_endpoints.specs.Finding.{Finds, FindsNone};

use crate::asking::asked;
use crate::drawing::{Draws, drawn};
use ns_http::Request;
use ns_request::Routes;
use ns_types::refusal::Refusal;
use ns_types::step::Step;
use std::alloc::{AllocError, Global};

/// Finds the steps that requests ask for, and draws the random bits that new tokens need.
pub struct Router<D> {
    routes: Routes,
    draws: D,
}

impl<D: Drop> Drop for Router<D> {
    fn drop(self) {
        let Router {
            routes: _routes,
            draws: _draws,
        } = self;
    }
}

impl<D: Draws> Router<D> {
    /// Makes the table of the paths, once. Want of memory is the only error.
    pub fn new(alloc: Global, draws: D) -> Result<Router<D>, AllocError>
    where
        D: Drop,
        ensures { IfOk result (λ router. router.draws ≡ draws) }
    {
        let routes = Routes::new(alloc)?;
        Ok(Router { routes, draws })
    }

    /// The step that the request asks for, with what is drawn for it.
    ///
    /// # Errors
    ///
    /// The refusal that needs no state, for which nothing is drawn; and `Memory` where no memory was left, before the draws or
    /// after them.
    pub fn step(&mut self, alloc: Global, request: &Request<'_>) -> Result<Step, Refusal>
        ensures found { let a = Head.asked request.now in
            IfOk result (Finds D.draws a self.old.draws self.new.draws) }
        ensures served { IfOk result IsServed }
        ensures none { let a = Head.asked request.now in
            IfErr result (FindsNone D.draws a self.old.draws self.new.draws) }
    {
        match asked(alloc, &self.routes, request) {
            Ok(draft) => match drawn(alloc, &mut self.draws, draft) {
                Ok(step) => Ok(step),
                Err(_) => Err(Refusal::Memory),
            },
            Err(refusal) => Err(refusal),
        }
    }
}
