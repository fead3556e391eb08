//! Makes the steps that requests ask for, and returns their answers as bytes.

ghost use Rattle.std.specs.Prelude.{◌≡◌, ◌<◌, ◌≤◌, IfErr, IfOk, None, OnErr, OnOk, false, length, true, vec_len};
ghost use Rattle.std.specs.Prelude.{vec_capacity};
ghost use Rattle.ns_types.specs.declared.refusal.Refusal.TheVariants as Refusal;
ghost use Rattle.ns_types.specs.Steps.{Makes};
ghost use Rattle.ns_steps.specs.Served.{IsServed};
ghost use Rattle.ns_json.specs.Replies.{rendered};
ghost use Rattle.ns_replies.specs.Laws.{may_change};
ghost use Rattle.ns_replies.specs.Rooms.{HasRoom, copy_room, room_of};
ghost use Rattle.ns_work_log.specs.Noting.{Begins, is_answer, noted};
ghost use Rattle.ns_work_log.specs.Rendered.{IsGiven, LogsRendered};

use crate::entry_room::EntryRoom;
use crate::held::Held;
use crate::noting::begin;
use crate::preparing::prepare;
use crate::rendering::{rendered_anew, rendered_in, response, shared_with};
use ns_core::Core;
use ns_log::{Entry, Owned};
use ns_replies::answers::{AnswerRoom, may_change};
use ns_types::refusal::Refusal;
use ns_types::reply::{Rendered, Reply, Response};
use ns_types::shared::Shared;
use ns_types::step::Step;
use std::alloc::{AllocError, Global};

/// Room for the answer of a request's step: in the log, and for its copies in a receipt and in the response.
#[derive(Drop)]
struct Rooms {
    entry: EntryRoom,
    receipt: EntryRoom,
    response: AnswerRoom,
    ghost receipt_is: { receipt ≡ copy_room entry },
    ghost response_is: { response ≡ copy_room entry },
}

/// Adds room for the copies of an answer that the entry has room for. Want of memory is the only error.
fn with_copies(alloc: Global, entry: EntryRoom) -> Result<Rooms, AllocError>
    ensures { IfOk result (λ rooms. rooms.entry ≡ entry) }
{
    let receipt = entry.for_copy(alloc)?;
    let response = entry.for_response(alloc)?;
    Ok(Rooms {
        entry,
        receipt,
        response,
    })
}

/// The step, with room for its entry and for its answer and the copies. The errors are `LogFull` and `Memory`.
fn with_rooms(
    alloc: Global,
    log: &mut Vec<Entry>,
    limit: u64,
    step: Shared<Step>,
) -> Result<(Shared<Step>, Rooms), Refusal>
    requires { length log.old.items ≤ limit }
    ensures begins { Begins (length log.old.items) limit result }
    ensures same { log.new.items ≡ log.old.items }
    ensures place { OnOk result (vec_len log.new < vec_capacity log.new) }
    ensures step { IfOk result (λ made. made.0 ≡ step) }
    ensures entry { IfOk result (λ made. made.1.entry ≡ room_of step None) }
{
    let (step, entry) = prepare(alloc, log, limit, step, None)?;
    match with_copies(alloc, entry) {
        Ok(rooms) => Ok((step, rooms)),
        Err(_) => {
            drop(step);
            Err(Refusal::Memory)
        }
    }
}

/// Adds the step with its answer and returns the answer, if it is a step's. Otherwise the error is `Memory`. It takes no
/// memory.
fn note_given(
    log: &mut Vec<Entry>,
    step: Shared<Step>,
    rooms: Rooms,
    answer: &Result<Reply, Refusal>,
) -> Result<(Owned<Rendered>, Response), Refusal>
    requires place { vec_len log.old < vec_capacity log.old }
    requires room { IfOk answer.now (λ reply. HasRoom rooms.entry reply.content) }
    ensures answer { OnOk result (is_answer answer.now ≡ true) }
    ensures given { IfOk result (λ given. IsGiven answer.now given) }
    ensures none { OnErr result (is_answer answer.now ≡ false) }
    ensures noted { log.new.items ≡ noted step answer.now log.old.items }
    ensures memory { IfErr result (λ refusal. refusal ≡ Refusal.Memory) }
{
    let Rooms {
        entry,
        receipt,
        response: again,
    } = rooms;
    match rendered_in(entry, answer) {
        Some(shown) => {
            let receipt = receipt.repeat(shown.get());
            let again = again.repeat(shown.get());
            log.push_reserved(Entry::new(step, shown));
            Ok((receipt, response(answer, again)))
        }
        None => {
            drop(step);
            drop(receipt);
            drop(again);
            Err(Refusal::Memory)
        }
    }
}

/// The answer as bytes in new memory: for the log, for a receipt and as the response. The only error is that no memory is left,
/// or that the answer is no step's.
fn given_anew(
    alloc: Global,
    answer: &Result<Reply, Refusal>,
) -> Result<(Owned<Rendered>, (Owned<Rendered>, Response)), AllocError>
    ensures answer { OnOk result (is_answer answer.now ≡ true) }
    ensures rendered { IfOk result (λ made. made.0 ≡ rendered answer.now) }
    ensures given { IfOk result (λ made. IsGiven answer.now made.1) }
{
    let shown = rendered_anew(alloc, answer)?;
    shared_with(alloc, answer, shown)
}

/// Adds the step with its answer in new memory, and returns the answer. The error is `Memory`, also if the answer is no step's.
fn give(
    log: &mut Vec<Entry>,
    alloc: Global,
    step: Shared<Step>,
    answer: &Result<Reply, Refusal>,
) -> Result<(Owned<Rendered>, Response), Refusal>
    requires { vec_len log.old < vec_capacity log.old }
    ensures answer { OnOk result (is_answer answer.now ≡ true) }
    ensures given { IfOk result (λ given. IsGiven answer.now given) }
    ensures noted { OnOk result (log.new.items ≡ noted step answer.now log.old.items) }
    ensures same { OnErr result (log.new.items ≡ log.old.items) }
    ensures memory { IfErr result (λ refusal. refusal ≡ Refusal.Memory) }
{
    match given_anew(alloc, answer) {
        Ok((shown, given)) => {
            log.push_reserved(Entry::new(step, shown));
            Ok(given)
        }
        Err(_) => {
            drop(step);
            Err(Refusal::Memory)
        }
    }
}

/// Makes the step that a request asks for.
fn take(core: &mut Core, step: &Shared<Step>) -> Result<Reply, Refusal>
    requires { IsServed step.now }
    ensures { Makes step.now core.old result core.new }
{
    core.take(step.get())
}

impl Held {
    /// Makes a step that may change the state. The rooms of the answer are taken before the step, so a step that was made is
    /// answered.
    fn write_rendered(
        &mut self,
        alloc: Global,
        step: Shared<Step>,
    ) -> Result<(Owned<Rendered>, Response), Refusal>
        requires served { IsServed step }
        requires writes { may_change step ≡ true }
        ensures { LogsRendered step self.old result self.new }
    {
        let Held {
            core,
            log,
            limit,
            ..
        } = self;
        let (step, rooms) = with_rooms(alloc, log, *limit, step)?;
        let answer = take(core, &step);
        let given = note_given(log, step, rooms, &answer);
        drop(answer);
        given
    }

    /// Makes a read. A read changes nothing, so if there is no memory for its answer, it counts as not made.
    fn read_rendered(
        &mut self,
        alloc: Global,
        step: Shared<Step>,
    ) -> Result<(Owned<Rendered>, Response), Refusal>
        requires served { IsServed step }
        requires reads { may_change step ≡ false }
        ensures { LogsRendered step self.old result self.new }
    {
        let Held {
            core,
            log,
            limit,
            ..
        } = self;
        if let Err(refusal) = begin(log, *limit) {
            drop(step);
            return Err(refusal);
        }
        let answer = take(core, &step);
        let given = give(log, alloc, step, &answer);
        drop(answer);
        given
    }

    /// Makes the step that a request asks for, and returns its answer twice as bytes: for a receipt, and as the response. For a
    /// read both are made before its entry, and for any other step their room is taken before the step; so a step that was made
    /// is answered. The errors are `LogFull` and `Memory`, and then no step was made. The entry and the receipt of a read own
    /// the bytes together.
    pub fn take_rendered(
        &mut self,
        alloc: Global,
        step: Shared<Step>,
    ) -> Result<(Owned<Rendered>, Response), Refusal>
        requires { IsServed step }
        ensures { LogsRendered step self.old result self.new }
    {
        if may_change(step.get()) {
            self.write_rendered(alloc, step)
        } else {
            self.read_rendered(alloc, step)
        }
    }
}
