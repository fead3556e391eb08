//! Writes answers of steps as bytes, for their callers.

ghost use Rattle.std.specs.Prelude.{◌≡◌, ◌≤◌, IfOk, IfSome, OnOk, length, true};
ghost use Rattle.ns_types.specs.Wire.Responses.{rendered_of};
ghost use Rattle.ns_json.specs.Replies.{rendered};
ghost use Rattle.ns_replies.specs.Rooms.{HasRoom, answer_bytes};
ghost use Rattle.ns_work_log.specs.Noting.{is_answer};
ghost use Rattle.ns_work_log.specs.Rendered.{IsGiven, rendered_step};

use crate::entry_room::EntryRoom;
use crate::noting::is_of_steps;
use ns_log::Owned;
use ns_replies::answers::{refused, render};
use ns_types::refusal::Refusal;
use ns_types::reply::{Rendered, Reply, Response};
use ns_types::shared::Shared;
use std::alloc::{AllocError, Global};

/// The answer as bytes in the room that was taken for it, if it is a step's. It takes no memory.
pub fn rendered_in(room: EntryRoom, answer: &Result<Reply, Refusal>) -> Option<Owned<Rendered>>
    requires { IfOk answer.now (λ reply. HasRoom room reply.content) }
    ensures shown { result ≡ rendered_step answer.now }
    ensures fits { IfSome result (λ shown. length shown.body ≤ answer_bytes room) }
{
    match answer {
        Ok(reply) => Some(room.render(reply)),
        Err(refusal) if is_of_steps(*refusal) => Some(room.refuse(*refusal)),
        Err(_) => {
            drop(room);
            None
        }
    }
}

/// The answer as bytes in new memory. Want of memory is an error, and so is an answer that is no step's.
pub(crate) fn rendered_anew(
    alloc: Global,
    answer: &Result<Reply, Refusal>,
) -> Result<Rendered, AllocError>
    ensures answer { OnOk result (is_answer answer.now ≡ true) }
    ensures rendered { IfOk result (λ shown. shown ≡ rendered answer.now) }
{
    match answer {
        Ok(reply) => render(alloc, reply),
        Err(refusal) if is_of_steps(*refusal) => refused(alloc, *refusal),
        Err(_) => Err(AllocError),
    }
}

/// The response that has the answer, with these bytes.
pub(crate) fn response(answer: &Result<Reply, Refusal>, shown: Rendered) -> Response
    requires { shown ≡ rendered answer.now }
    ensures { rendered_of result ≡ rendered answer.now }
{
    match answer {
        Ok(_) => {
            let Rendered { index, body, .. } = shown;
            Response::Done(index, body.into_string())
        }
        Err(refusal) => {
            drop(shown);
            Response::Refused(*refusal)
        }
    }
}

/// A copy that has the same bytes. Want of memory is the only error.
fn copied(shown: &Rendered) -> Result<Rendered, AllocError>
    ensures { IfOk result (λ copy. copy ≡ shown.now) }
{
    Ok(Rendered {
        status: shown.status,
        index: shown.index,
        body: shown.body.clone()?,
    })
}

/// The answer's bytes for its entry; for a receipt, which owns them together with the entry; and as the response. The entry has
/// a copy, which takes no more memory than it has bytes, and the response has what was rendered. Want of memory is the only
/// error.
pub(crate) fn shared_with(
    alloc: Global,
    answer: &Result<Reply, Refusal>,
    shown: Rendered,
) -> Result<(Owned<Rendered>, (Owned<Rendered>, Response)), AllocError>
    requires { shown ≡ rendered answer.now }
    ensures entry { IfOk result (λ made. made.0 ≡ rendered answer.now) }
    ensures given { IfOk result (λ made. IsGiven answer.now made.1) }
{
    let exact = copied(&shown)?;
    let entry = Shared::new(alloc, exact)?;
    let receipt = entry.share()?;
    Ok((
        Owned::together(entry),
        (Owned::together(receipt), response(answer, shown)),
    ))
}
