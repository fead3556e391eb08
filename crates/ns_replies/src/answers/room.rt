//! Room for the answer of a step, which is taken before the step.

ghost use Rattle.std.specs.Prelude.{◌≡◌, ◌≤◌, IfOk, Ok, length, option_copied, option_map, string_bytes};
ghost use Rattle.ns_types.specs.Wire.Refused.{refused};
ghost use Rattle.ns_json.specs.Replies.{rendered};
ghost use Rattle.ns_replies.specs.Rooms.{HasRoom, answer_bytes, copy_room, room_of, token_body};

use crate::answers::body::body_text;
use crate::answers::rendering::done;
use crate::answers::sizes::step_bytes;
use crate::shown::text_of;
use ns_types::body::Body;
use ns_types::refusal::Refusal;
use ns_types::reply::{Content, Rendered, Reply};
use ns_types::step::{AdminCommand, Step};
use ns_types::worker::Worker;
use std::alloc::{AllocError, Global};
use std::marker::Model;

/// Room for the answer of a step, which is taken before the step. Contracts see how many bytes a body or the text of a refusal
/// may have, and the body of the reply to a new token.
#[derive(Drop)]
pub struct AnswerRoom {
    text: String,
    token: Option<String>,
}

impl Model for AnswerRoom {
    ghost use Rattle.std.specs.Prelude.{◌≡◌, ◌≤◌, [], option_map};
    ghost use Rattle.std.specs.String.{string_bytes, string_capacity};
    ghost use Rattle.ns_replies.specs.Rooms;

    ghost Value = { Rooms.AnswerRoom };

    ghost view = { λ room. record {
      bytes = string_capacity room.text;
      token = option_map string_bytes room.token;
    } };

    ghost invariant = { λ room. (string_bytes room.text ≡ [])
        × (Rooms.refusal_bytes ≤ string_capacity room.text) };
}

/// The body of the reply to the step, if the step makes a token.
#[tactic(auto, unfolding(ns_json::specs::Replies::body_of))]
fn token_body(alloc: Global, step: &Step) -> Result<Option<String>, AllocError>
    ensures { IfOk result (λ body. option_map string_bytes body ≡ token_body step.now) }
{
    let Step::Admin(_, command) = step else {
        return Ok(None);
    };
    match command.get() {
        AdminCommand::CreateToken(new) => {
            let mut body = text_of(alloc, new)?;
            body.shrink_to_fit();
            Ok(Some(body))
        }
        _ => Ok(None),
    }
}

impl AnswerRoom {
    /// Room for the answer of the step. For a worker's step, `row` is the worker's row before it. Want of memory is the only
    /// error.
    pub fn for_step(
        alloc: Global,
        step: &Step,
        row: Option<&Worker>,
    ) -> Result<AnswerRoom, AllocError>
        ensures { IfOk result (λ room. room ≡ room_of step.now (option_copied row.entry)) }
    {
        let Some(bytes) = step_bytes(step, row) else {
            return Err(AllocError);
        };
        let token = token_body(alloc, step)?;
        let text = String::with_capacity(alloc, bytes)?;
        Ok(AnswerRoom { text, token })
    }

    /// Room for a copy of any answer for which this is room. Want of memory is the only error.
    pub fn for_copy(&self, alloc: Global) -> Result<AnswerRoom, AllocError>
        ensures { IfOk result (λ copy. copy ≡ copy_room self.now) }
    {
        let text_bytes = self.text.capacity();
        let bytes = match &self.token {
            Some(body) => text_bytes.max(body.len()),
            None => text_bytes,
        };
        let text = String::with_capacity(alloc, bytes)?;
        Ok(AnswerRoom { text, token: None })
    }

    /// The step's reply as bytes, in this room. It takes no memory.
    #[tactic(auto, unfolding(ns_json::specs::Replies::rendered))]
    pub fn render(self, reply: &Reply) -> Rendered
        requires { HasRoom self reply.now.content }
        ensures shown { result ≡ rendered (Ok reply.now) }
        ensures fits { length result.body ≤ answer_bytes self }
    {
        let AnswerRoom { text, token } = self;
        match &reply.content {
            Content::Token(_) => {
                let Some(body) = token else { unreachable!() };
                done(reply.index, body)
            }
            content => {
                let Ok(body) = body_text(text.into_bytes(), content) else {
                    unreachable!()
                };
                done(reply.index, body)
            }
        }
    }

    /// The step's refusal as bytes, in this room. It takes no memory.
    pub fn refuse(self, refusal: Refusal) -> Rendered
        ensures shown { result ≡ refused refusal }
        ensures fits { length result.body ≤ answer_bytes self }
    {
        let AnswerRoom { mut text, token } = self;
        drop(token);
        let pushed = text.push_str(refusal.text());
        prove!(pushed.is_ok());
        Rendered {
            status: refusal.status(),
            index: None,
            body: Body::from_string(text),
        }
    }

    /// A copy of the answer, in this room. It takes no memory.
    pub fn repeat(self, shown: &Rendered) -> Rendered
        requires { length shown.now.body ≤ self.bytes }
        ensures { result ≡ shown.now }
    {
        let AnswerRoom { mut text, token } = self;
        drop(token);
        let pushed = text.push_str(shown.body.as_str());
        prove!(pushed.is_ok());
        Rendered {
            status: shown.status,
            index: shown.index,
            body: Body::from_string(text),
        }
    }
}
