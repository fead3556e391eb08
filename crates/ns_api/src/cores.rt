//! Lets servers take steps, without a log and with one.

ghost use Rattle.std.specs.Prelude.{◌≡◌, IfOk};
ghost use Rattle.ns_types.specs.Steps.{opening};
ghost use Rattle.ns_api.specs.Cores.{history_of};
ghost use Rattle.ns_api.specs.Following.{driver_of};

use crate::answering::{Api, Takes};
use crate::following::{Driven, Driver};
use crate::responding::respond;
use ns_core::Core;
use ns_endpoints::Draws;
use ns_types::name::Secret;
use ns_types::refusal::Refusal;
use ns_types::reply::Response;
use ns_types::shared::Shared;
use ns_types::step::Step;
use ns_work_log::Held;
use std::alloc::{AllocError, Global};

impl Takes for Core {
    ghost use Rattle.ns_api.specs.Answering.{AnswersOrWants};
    ghost use Rattle.ns_api.specs.Cores.{NotesNothing, itself};
    ghost use Rattle.ns_api.specs.Lacking.{LacksNothing};

    ghost takes = { AnswersOrWants itself NotesNothing LacksNothing };

    fn respond(&mut self, alloc: Global, step: Step) -> Response {
        respond(alloc, self, step)
    }
}

impl Takes for Held {
    ghost use Rattle.ns_work_log.specs.Logs.{IsNoted};
    ghost use Rattle.ns_api.specs.Answering.{AnswersOrWants};
    ghost use Rattle.ns_api.specs.Cores.{state_of};
    ghost use Rattle.ns_api.specs.Lacking.{LacksRoom};

    ghost takes = { AnswersOrWants state_of IsNoted LacksRoom };

    fn respond(&mut self, alloc: Global, step: Step) -> Response {
        let Ok(entry) = Shared::new(alloc, step) else {
            return Response::Refused(Refusal::Memory);
        };
        match self.take_rendered(alloc, entry) {
            Ok((receipt, response)) => {
                drop(receipt);
                response
            }
            Err(refusal) => Response::Refused(refusal),
        }
    }
}

/// A new server, which answers requests and drives the worker that `driven` names. Want of memory is the only error.
pub fn open<D: Draws + Drop>(
    alloc: Global,
    bootstrap: &Secret,
    draws: D,
    driven: Driven,
) -> Result<Api<Core, D, Driver>, AllocError>
    ensures taker { IfOk result (λ api. api.taker ≡ opening bootstrap.now) }
    ensures drawer { IfOk result (λ api. api.router.draws ≡ draws) }
    ensures follower { IfOk result (λ api. api.follower ≡ driver_of driven) }
{
    let core = Core::new(alloc, bootstrap)?;
    Api::new(alloc, core, draws, Driver::new(driven))
}

/// Drops a server. Its value is large, so its end is proved here and not by each caller.
pub fn close<D: Draws + Drop>(api: Api<Core, D, Driver>) {
    drop(api);
}

/// A new server with a log of at most `limit` entries, which drives the worker that `driven` names. Want of memory is the only
/// error.
pub fn open_held<D: Draws + Drop>(
    alloc: Global,
    bootstrap: &Secret,
    draws: D,
    driven: Driven,
    limit: u64,
) -> Result<Api<Held, D, Driver>, AllocError>
    ensures taker { IfOk result (λ api. api.taker ≡ history_of bootstrap.now limit) }
    ensures drawer { IfOk result (λ api. api.router.draws ≡ draws) }
    ensures follower { IfOk result (λ api. api.follower ≡ driver_of driven) }
{
    let held = Held::new(alloc, Core::new(alloc, bootstrap)?, limit);
    Api::new(alloc, held, draws, Driver::new(driven))
}

/// Drops a server with its log.
pub fn close_held<D: Draws + Drop>(api: Api<Held, D, Driver>) {
    drop(api);
}
