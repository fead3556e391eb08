//! Room for the answer of a step, and for what owns it in the log.

ghost use Rattle.std.specs.Prelude.{◌≡◌, ◌≤◌, IfOk, Ok, length, option_copied};
ghost use Rattle.ns_types.specs.Wire.Refused.{refused};
ghost use Rattle.ns_json.specs.Replies.{rendered};
ghost use Rattle.ns_replies.specs.Rooms.{HasRoom, answer_bytes, copy_room, room_of};

use ns_log::Owned;
use ns_replies::answers::AnswerRoom;
use ns_types::body::Body;
use ns_types::refusal::Refusal;
use ns_types::reply::{Rendered, Reply};
use ns_types::step::Step;
use ns_types::worker::Worker;
use std::alloc::{AllocError, Global};
use std::marker::Model;

/// Room for the answer of a step, which is taken before the step, with the box in which an entry or a receipt owns it. Contracts
/// see the answer's room.
#[derive(Drop)]
pub struct EntryRoom {
    answer: AnswerRoom,
    place: Box<Rendered>,
}

impl Model for EntryRoom {
    ghost use Rattle.ns_replies.specs.Rooms.{AnswerRoom};

    ghost Value = { AnswerRoom };

    ghost view = { λ room. room.answer };
}

/// A box for an answer, with an empty one in it. Want of memory is the only error.
fn empty_place(alloc: Global) -> Result<Box<Rendered>, AllocError> {
    let none = Rendered {
        status: 0,
        index: None,
        body: Body::from_string(String::new(alloc)),
    };
    let place = Box::new(alloc, none)?;
    Ok(place)
}

impl EntryRoom {
    /// The answer's room, with a box for it. Want of memory is the only error.
    fn of(alloc: Global, answer: AnswerRoom) -> Result<EntryRoom, AllocError>
        ensures { IfOk result (λ room. room ≡ answer) }
    {
        let place = empty_place(alloc)?;
        Ok(EntryRoom { answer, place })
    }

    /// Room for the answer of the step. The row is the worker's before the step, if it is a worker's step. Want of memory is
    /// the only error.
    pub fn for_step(
        alloc: Global,
        step: &Step,
        row: Option<&Worker>,
    ) -> Result<EntryRoom, AllocError>
        ensures { IfOk result (λ room. room ≡ room_of step.now (option_copied row.entry)) }
    {
        let answer = AnswerRoom::for_step(alloc, step, row)?;
        EntryRoom::of(alloc, answer)
    }

    /// Room for a copy of an answer that this one has room for. Want of memory is the only error.
    pub fn for_copy(&self, alloc: Global) -> Result<EntryRoom, AllocError>
        ensures { IfOk result (λ copy. copy ≡ copy_room self.now) }
    {
        let answer = self.answer.for_copy(alloc)?;
        EntryRoom::of(alloc, answer)
    }

    /// Room for a copy in the response, which owns its answer without a box. Want of memory is the only error.
    pub fn for_response(&self, alloc: Global) -> Result<AnswerRoom, AllocError>
        ensures { IfOk result (λ copy. copy ≡ copy_room self.now) }
    {
        self.answer.for_copy(alloc)
    }

    /// The step's reply as bytes. It takes no memory.
    pub fn render(self, reply: &Reply) -> Owned<Rendered>
        requires { HasRoom self reply.now.content }
        ensures shown { result ≡ rendered (Ok reply.now) }
        ensures fits { length result.body ≤ answer_bytes self }
    {
        let EntryRoom { answer, mut place } = self;
        *place = answer.render(reply);
        Owned::alone(place)
    }

    /// The step's refusal as bytes. It takes no memory.
    pub fn refuse(self, refusal: Refusal) -> Owned<Rendered>
        ensures shown { result ≡ refused refusal }
        ensures fits { length result.body ≤ answer_bytes self }
    {
        let EntryRoom { answer, mut place } = self;
        *place = answer.refuse(refusal);
        Owned::alone(place)
    }

    /// A copy of an answer. It takes no memory.
    pub fn repeat(self, shown: &Rendered) -> Owned<Rendered>
        requires { length shown.now.body ≤ self.bytes }
        ensures { result ≡ shown.now }
    {
        let EntryRoom { answer, mut place } = self;
        *place = answer.repeat(shown);
        Owned::alone(place)
    }
}
