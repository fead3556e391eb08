//! Adds entries to a log, in room that is made before their steps.

ghost use Rattle.std.specs.Prelude.{◌≡◌, ◌<◌, ◌≤◌, IfOk, IfErr, OnOk, length, option_copied, vec_len, vec_capacity};
ghost use Rattle.ns_types.specs.declared.refusal.Refusal.TheVariants as Refusal;
ghost use Rattle.ns_audit.specs.Refusals.{is_of_steps};
ghost use Rattle.ns_replies.specs.Rooms.{HasRoom, room_of};
ghost use Rattle.ns_work_log.specs.Noting.{Begins, noted};

use crate::entry_room::EntryRoom;
use ns_log::Entry;
use ns_types::refusal::Refusal;
use ns_types::reply::Reply;
use ns_types::shared::Shared;
use ns_types::step::Step;
use ns_types::worker::Worker;
use std::alloc::Global;

/// Makes room for one more entry. The errors are `LogFull`, if the log has as many entries as the limit, and `Memory`.
pub fn begin(log: &mut Vec<Entry>, limit: u64) -> Result<(), Refusal>
    requires { length log.old.items ≤ limit }
    ensures begins { Begins (length log.old.items) limit result }
    ensures same { log.new.items ≡ log.old.items }
    ensures room { OnOk result (vec_len log.new < vec_capacity log.new) }
{
    if log.len() as u64 == limit {
        return Err(Refusal::LogFull);
    }
    log.reserve(1)?;
    Ok(())
}

/// The step, with room for its answer. `row` is the worker's row, if it is a worker's step. Want of memory is the only error.
pub fn with_room(
    alloc: Global,
    step: Shared<Step>,
    row: Option<&Worker>,
) -> Result<(Shared<Step>, EntryRoom), Refusal>
    ensures room { IfOk result (λ made. made ≡ (step, room_of step (option_copied row.entry))) }
    ensures memory { IfErr result (λ refusal. refusal ≡ Refusal.Memory) }
{
    match EntryRoom::for_step(alloc, step.get(), row) {
        Ok(room) => Ok((step, room)),
        Err(_) => {
            drop(step);
            Err(Refusal::Memory)
        }
    }
}

/// Whether this is a refusal of a step, and not of a call that made no step.
pub fn is_of_steps(refusal: Refusal) -> bool
    ensures { result ≡ is_of_steps refusal }
{
    matches!(
        refusal,
        Refusal::Denied
            | Refusal::NotFound
            | Refusal::PoolNotPermitted
            | Refusal::BadField(_)
            | Refusal::Conflict
            | Refusal::InUse
            | Refusal::Full
    )
}

/// Adds the step with its answer, if the answer is a step's.
pub fn note(
    log: &mut Vec<Entry>,
    step: Shared<Step>,
    room: EntryRoom,
    answer: &Result<Reply, Refusal>,
)
    requires place { vec_len log.old < vec_capacity log.old }
    requires room { IfOk answer.now (λ reply. HasRoom room reply.content) }
    ensures { log.new.items ≡ noted step answer.now log.old.items }
{
    match answer {
        Ok(reply) => log.push_reserved(Entry::new(step, room.render(reply))),
        Err(refusal) if is_of_steps(*refusal) => {
            log.push_reserved(Entry::new(step, room.refuse(*refusal)));
        }
        Err(_) => {
            drop(step);
            drop(room);
        }
    }
}
