//! A seat at a server that threads share.

use ns_api::Takes;
use ns_types::reply::Response;
use ns_types::step::Step;
use ns_work_lock::{Retention, Seat, Shared};
use std::alloc::Global;
use std::sync::Wait;
use std::sync::ledger::Ledger;

/// A seat at a server that threads share. A call for a step waits while another thread holds the server.
#[derive(Drop)]
pub struct SharedSeat<'a, L: Ledger, R, M: Retention> {
    pub rt: &'a R,
    pub shared: &'a Shared<L>,
    pub seat: Seat<L, M>,
}

impl<L: Ledger, R: Wait, M: Retention> Takes for SharedSeat<'_, L, R, M> {
    ghost use Rattle.ns_listener.specs.Answering.{GainsOrWants};

    // Other threads may make steps in between, so this says nothing about the state of the server.
    ghost takes = { λ step old reply new. GainsOrWants step old.seat reply new.seat };

    fn respond(&mut self, alloc: Global, step: Step) -> Response {
        match self.shared.take(self.rt, alloc, &mut self.seat, step) {
            Ok(response) => response,
            Err(refusal) => Response::Refused(refusal),
        }
    }
}
