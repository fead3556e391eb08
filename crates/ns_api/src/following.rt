//! What a server does by itself after each request.

ghost use Rattle.std.specs.Prelude.{◌≡◌};
ghost use Rattle.ns_api.specs.Following.{driver_of};

use ns_driver::{Kept, Works, drive};
use std::alloc::Global;

/// What follows each request, over what took its step.
pub trait Follows<T> {
    // What follows leads from the first follower and taker to the second.
    ghost follows: { Self → T → T → Self → Type 0 };

    /// Does what follows a request.
    fn follow(&mut self, alloc: Global, taker: &mut T)
        ensures { follows self.old taker.old taker.new self.new };
}

/// Nothing follows.
#[derive(Drop)]
pub struct NoFollower;

impl<T> Follows<T> for NoFollower {
    ghost use Rattle.ns_api.specs.Following.{Stays};

    ghost follows = { Stays };

    fn follow(&mut self, _alloc: Global, _taker: &mut T) {}
}

/// Which worker a server drives after each request.
#[derive(Clone, Copy, PartialEq, Eq)]
pub enum Driven {
    Nobody,
    /// Worker 0: it dequeues evaluations, plans them, has its plans applied and finishes, at most 10,000 steps at a time.
    Worker,
}

/// The driver of a server's worker.
#[derive(Drop)]
pub enum Driver {
    Nobody,
    /// What the worker keeps from one step to the next.
    Worker(Kept),
}

impl Driver {
    /// The driver of a server that has just begun.
    pub fn new(driven: Driven) -> Driver
        ensures { result ≡ driver_of driven }
    {
        match driven {
            Driven::Nobody => Driver::Nobody,
            Driven::Worker => Driver::Worker(Kept::Nothing),
        }
    }
}

impl<T: Works> Follows<T> for Driver {
    ghost use Rattle.ns_api.specs.Following.{FollowsBy, FollowsInChain};

    ghost follows = { FollowsInChain T.state T.notes (FollowsBy T.state T.notes T.lacks) };

    /// A worker that is left busy goes on after the next request.
    fn follow(&mut self, alloc: Global, taker: &mut T) {
        if let Driver::Worker(kept) = self {
            let _stop = drive(alloc, taker, kept);
        }
    }
}
