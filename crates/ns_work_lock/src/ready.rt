//! A worker's step, before it is made and once it is answered.

ghost use Rattle.std.specs.Prelude.{◌≡◌, ◌+◌, ◌<◌, IfErr, IfOk, OnOk, length, option_copied, option_map};
ghost use Rattle.std.specs.Prelude.{slice_get, vec_capacity, vec_len};
ghost use Rattle.ns_types.specs.declared.refusal.Refusal.TheVariants as Refusal;
ghost use Rattle.ns_replies.specs.Rooms.{HasRoom, room_of};
ghost use Rattle.ns_steps.specs.Works.{step_of};
ghost use Rattle.ns_work_log.specs.Logs.{next_place};
ghost use Rattle.ns_work_log.specs.Noting.{Begins};
ghost use Rattle.ns_work_log.specs.Rendered.{rendered_step};
ghost use Rattle.ns_work_lock.specs.Copying.{entry_answer};
ghost use Rattle.ns_work_lock.specs.Receiving.{count, received};

use crate::copying::repeat_entry;
use crate::seat::{prepare_place, receive, shared_twice};
use ns_log::Entry;
use ns_log::receipts::Receipt;
use ns_steps::work::{Work, step_of};
use ns_types::refusal::Refusal;
use ns_types::reply::Reply;
use ns_types::shared::Shared;
use ns_types::step::Step;
use ns_types::text::Text;
use ns_types::worker::Worker;
use ns_work_log::{EntryRoom, Held};
use std::alloc::Global;
use std::sync::ledger::{Book, Ledger, Share};

/// A worker's step that is about to be made, for its receipt, with room for its answer, the place that its entry will have, and
/// how many entries of the log are before it.
#[derive(Drop)]
pub(crate) struct Ready {
    pub(crate) step: Shared<Step>,
    pub(crate) room: EntryRoom,
    pub(crate) place: u64,
    pub(crate) number: u64,
}

/// The step with room for its answer, as the server's next one. `row` is the row of the worker that makes the step. Want of
/// memory is the only error.
fn with_room(
    alloc: Global,
    held: &Held,
    step: Shared<Step>,
    row: Option<&Worker>,
) -> Result<Ready, Refusal>
    ensures made { IfOk result (λ ready. ready ≡ record {
      step = step;
      room = room_of step (option_copied row.entry);
      place = next_place held.now;
      number = length held.now.log;
    }) }
    ensures memory { IfErr result (λ refusal. refusal ≡ Refusal.Memory) }
{
    match EntryRoom::for_step(alloc, step.get(), row) {
        Ok(room) => Ok(Ready {
            step,
            room,
            place: held.next_place(),
            number: held.log().len() as u64,
        }),
        Err(_) => {
            drop(step);
            Err(Refusal::Memory)
        }
    }
}

/// The worker's step of this kind with two owners, its entry and its receipt; with room for the receipt, and for its answer by
/// the worker's row. The errors are `LogFull`, if the log takes no more entries, and `Memory`.
pub(crate) fn prepare_work(
    alloc: Global,
    held: &Held,
    receipts: &mut Vec<Receipt>,
    work: Work,
    worker: u64,
    namespace: &Text,
    row: Option<&Worker>,
) -> Result<(Shared<Step>, Ready), Refusal>
    ensures begins { Begins (length held.now.log) held.now.limit result }
    ensures same { receipts.new.items ≡ receipts.old.items }
    ensures place { OnOk result (vec_len receipts.new < vec_capacity receipts.new) }
    ensures entry { IfOk result (λ made. made.0 ≡ step_of work worker namespace.now) }
    ensures made { let step = step_of work worker namespace.now in
        IfOk result (λ made. made.1 ≡ record {
          step = step;
          room = room_of step (option_copied row.entry);
          place = next_place held.now;
          number = length held.now.log;
        }) }
{
    prepare_place(held, receipts)?;
    let made = step_of(work, worker, namespace.clone()?);
    let (entry, step) = shared_twice(alloc, made)?;
    let ready = with_room(alloc, held, step, row)?;
    Ok((entry, ready))
}

/// Adds the receipt of a step that was made, with the answer that its entry has, and counts it. It takes no memory.
pub(crate) fn receive_answer<L: Ledger>(
    receipts: &mut Vec<Receipt>,
    share: &mut Share<L>,
    book: &mut Book<L>,
    log: &[Entry],
    ready: Ready,
    answer: &Result<Reply, Refusal>,
)
    requires place { vec_len receipts.old < vec_capacity receipts.old }
    requires part { share.old.parts ≡ 1 }
    requires room { IfOk answer.now (λ reply. HasRoom ready.room reply.content) }
    requires entry { let made = option_map entry_answer (slice_get log.now ready.number) in
        made ≡ rendered_step answer.now }
    ensures receipts { let rendered = rendered_step answer.now in
        receipts.new.items ≡ received ready.place ready.step rendered receipts.old.items }
    ensures number { let rendered = rendered_step answer.now in
        vec_len receipts.new ≡ vec_len receipts.old + count rendered }
    ensures parts { share.new.parts ≡ 1 }
    ensures amount { share.new.amount ≡ share.old.amount + count (rendered_step answer.now) }
    ensures total { book.new.total ≡ book.old.total + count (rendered_step answer.now) }
{
    let Ready {
        step,
        room,
        place,
        number,
    } = ready;
    let rendered = repeat_entry(room, log, number, answer);
    receive(receipts, share, book, place, step, rendered);
}
