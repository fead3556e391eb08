//! The responses of a server that keeps no log.

ghost use Rattle.std.specs.Prelude.{◌≡◌, IfOk, false, true};
ghost use Rattle.ns_types.specs.Wire.Responses.{rendered_of};
ghost use Rattle.ns_steps.specs.Served.{IsServed};
ghost use Rattle.ns_replies.specs.Laws.{may_change};
ghost use Rattle.ns_json.specs.Replies.{rendered};
ghost use Rattle.ns_replies.specs.Rendered.{HasRoom, IsRendered};
ghost use Rattle.ns_api.specs.Answering.{AnswersOrWants};
ghost use Rattle.ns_api.specs.Cores.{NotesNothing, itself};
ghost use Rattle.ns_api.specs.Lacking.{LacksNothing};
ghost use Rattle.ns_api.specs.Rooms.{ShowsOrWants, room_of};

use ns_core::Core;
use ns_replies::answers::may_change;
use ns_replies::{Room, render};
use ns_types::refusal::Refusal;
use ns_types::reply::{Reply, Response};
use ns_types::step::{AdminCommand, Step};
use std::alloc::{AllocError, Global};

/// Room for the reply to a write. Want of memory is the only error.
fn room_for(alloc: Global, step: &Step) -> Result<Room, AllocError>
    ensures { IfOk result (λ room. room ≡ room_of step.now) }
{
    let Step::Admin(_, command) = step else {
        return Room::new(alloc);
    };
    match command.get() {
        AdminCommand::CreateToken(new) => Room::for_token(alloc, new),
        _ => Room::new(alloc),
    }
}

/// The response to a read. Its reply may still be refused for want of memory.
fn shown(alloc: Global, answer: &Result<Reply, Refusal>) -> Response
    requires { IfOk answer.now (λ reply. IsRendered reply.content) }
    ensures { ShowsOrWants answer.now (rendered_of result) }
{
    match answer {
        Ok(reply) => match render(alloc, reply) {
            Ok(response) => response,
            Err(_) => Response::Refused(Refusal::Memory),
        },
        Err(refusal) => Response::Refused(*refusal),
    }
}

/// The response to a write, in the room that was made for it.
#[tactic(auto, unfolding(ns_json::specs::Replies::rendered))]
fn shown_in(room: Room, answer: &Result<Reply, Refusal>) -> Response
    requires { IfOk answer.now (λ reply. HasRoom room reply.content) }
    ensures { rendered_of result ≡ rendered answer.now }
{
    match answer {
        Ok(reply) => room.render(reply),
        Err(refusal) => Response::Refused(*refusal),
    }
}

/// Makes a write. The room of the reply is taken before the step, so a write that was made is answered.
fn write(alloc: Global, core: &mut Core, step: Step) -> Response
    requires served { IsServed step }
    requires writes { may_change step ≡ true }
    ensures { AnswersOrWants itself NotesNothing LacksNothing step
        core.old (rendered_of result) core.new }
{
    let Ok(room) = room_for(alloc, &step) else {
        drop(step);
        return Response::Refused(Refusal::Memory);
    };
    let answer = core.take(&step);
    drop(step);
    let response = shown_in(room, &answer);
    drop(answer);
    response
}

/// Makes a read, which leaves the state as it is. If there is no memory for its reply, it counts as not made.
fn read(alloc: Global, core: &mut Core, step: Step) -> Response
    requires served { IsServed step }
    requires reads { may_change step ≡ false }
    ensures { AnswersOrWants itself NotesNothing LacksNothing step
        core.old (rendered_of result) core.new }
{
    let answer = core.take(&step);
    drop(step);
    let response = shown(alloc, &answer);
    drop(answer);
    response
}

/// Makes the step, and returns its answer as the response. If no memory is left, it is not made, and the response says so.
pub fn respond(alloc: Global, core: &mut Core, step: Step) -> Response
    requires { IsServed step }
    ensures { AnswersOrWants itself NotesNothing LacksNothing step
        core.old (rendered_of result) core.new }
{
    if may_change(&step) {
        write(alloc, core, step)
    } else {
        read(alloc, core, step)
    }
}
