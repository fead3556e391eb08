//! The answer of a worker's step, which is copied from its entry.

ghost use Rattle.std.specs.Prelude.{◌≡◌, IfOk, option_map, slice_get};
ghost use Rattle.ns_json.specs.Replies.{rendered};
ghost use Rattle.ns_replies.specs.Rooms.{HasRoom};
ghost use Rattle.ns_work_log.specs.Rendered.{rendered_step};
ghost use Rattle.ns_work_lock.specs.Copying.{entry_answer, is_work};

use ns_log::{Entry, Owned};
use ns_types::refusal::Refusal;
use ns_types::reply::{Content, Rendered, Reply};
use ns_work_log::EntryRoom;

/// Whether the content answers a worker's step.
fn is_work(content: &Content) -> bool
    ensures { result ≡ is_work content.now }
{
    matches!(
        content,
        Content::Took(_)
            | Content::Snapped(_)
            | Content::Queued(_)
            | Content::Applied(_, _)
            | Content::Finished(_, _)
            | Content::Nacked(_)
    )
}

/// The answer as bytes once more, in the room that was taken for it. The answer of a worker's step that was made is copied.
fn repeat(room: EntryRoom, shown: &Rendered, answer: &Result<Reply, Refusal>) -> Owned<Rendered>
    requires room { IfOk answer.now (λ reply. HasRoom room reply.content) }
    requires shown { shown.now ≡ rendered answer.now }
    ensures { result ≡ shown.now }
{
    match answer {
        Ok(reply) if is_work(&reply.content) => room.repeat(shown),
        Ok(reply) => room.render(reply),
        Err(refusal) => room.refuse(*refusal),
    }
}

/// The answer as bytes once more, in the room that was taken for it, if the call made a step: then its entry stands at that
/// place, and otherwise no entry does. It takes no memory.
pub(crate) fn repeat_entry(
    room: EntryRoom,
    log: &[Entry],
    place: u64,
    answer: &Result<Reply, Refusal>,
) -> Option<Owned<Rendered>>
    requires room { IfOk answer.now (λ reply. HasRoom room reply.content) }
    requires entry { option_map entry_answer (slice_get log.now place) ≡ rendered_step answer.now }
    ensures { result ≡ rendered_step answer.now }
{
    match log.get(place as usize) {
        Some(entry) => Some(repeat(room, entry.rendered(), answer)),
        None => {
            drop(room);
            None
        }
    }
}
