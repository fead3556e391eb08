//! Replies as JSON texts.

ghost use Rattle.std.specs.Prelude.{◌≡◌, ◌≤◌, IfOk, Ok, string_bytes, vec_capacity, length, []};
ghost use Rattle.serde_json.specs.Written.{compact_text};
ghost use Rattle.ns_types.specs.Wire.Responses.{rendered_of};
ghost use Rattle.ns_json.specs.Part.{Adds, tokens_of};
ghost use Rattle.ns_json.specs.Rendered.{IsRegistered, IsRendered, longest_registered};
ghost use Rattle.ns_json.specs.Rendering.{registered_json};
ghost use Rattle.ns_json.specs.Replies.{rendered};

use crate::job_text::job_text;
use crate::part::{Part, write_parts};
use json::Writer;
use ns_types::id::{IdKind, id_str};
use ns_types::reply::{Content, Reply, Response};
use std::alloc::{AllocError, Global};

/// Room for the reply to a write, which is taken before the step.
#[derive(Drop)]
pub struct ReplyRoom {
    bytes: Vec<u8>,
    ghost empty: { bytes.items ≡ [] },
    ghost enough: { 320 ≤ vec_capacity bytes },
}

impl ReplyRoom {
    /// Room for the longest reply to a write, even if each byte of a text takes six. Want of memory is the only error.
    pub fn new(alloc: Global) -> Result<ReplyRoom, AllocError> {
        let bytes = Vec::with_capacity(alloc, 320)?;
        Ok(ReplyRoom { bytes })
    }

    /// The room as an empty buffer, for the replies to other writes.
    pub fn into_bytes(self) -> Vec<u8>
        ensures empty { result.items ≡ [] }
        ensures enough { 320 ≤ vec_capacity result }
    {
        let ReplyRoom { bytes } = self;
        bytes
    }

    /// The response to a registration or a deregistration, in this room. It takes no memory.
    #[tactic(auto, unfolding(crate::specs::Replies::rendered, crate::specs::Replies::body_of))]
    pub fn render(self, reply: &Reply) -> Response
        requires { IsRegistered reply.now.content }
        ensures bytes { rendered_of result ≡ rendered (Ok reply.now) }
        ensures short { length (rendered_of result).body ≤ longest_registered }
    {
        let Content::Registered(evaluation, index, job_index) = &reply.content else {
            unreachable!()
        };
        let body = registered_text(self, *evaluation, *index, *job_index);
        Response::Done(reply.index, body)
    }
}

/// The response to a request that was answered by a reply. Want of memory is the only error.
#[tactic(auto, unfolding(crate::specs::Replies::rendered, crate::specs::Replies::body_of))]
pub fn render(alloc: Global, reply: &Reply) -> Result<Response, AllocError>
    requires { IsRendered reply.now.content }
    ensures { IfOk result (λ response. rendered_of response ≡ rendered (Ok reply.now)) }
{
    match &reply.content {
        Content::Registered(_, _, _) => {
            let room = ReplyRoom::new(alloc)?;
            Ok(room.render(reply))
        }
        Content::Job(job) => {
            let body = job_text(alloc, job)?;
            Ok(Response::Done(reply.index, body))
        }
        _ => unreachable!(),
    }
}

#[tactic(auto, unfolding(crate::specs::Rendering::registered_json))]
fn write_registered(
    out: &mut Writer,
    evaluation: u64,
    index: u64,
    job_index: u64,
) -> Result<(), AllocError>
    ensures { Adds result out.old out.new (tokens_of (registered_json evaluation index job_index)) }
{
    let mut buffer = [0; 36];
    let id = id_str(IdKind::Evaluation, evaluation, &mut buffer);
    write_parts(
        out,
        &[
            Part::BeginObject,
            Part::Key("EvalCreateIndex"),
            Part::Number(index),
            Part::Key("EvalID"),
            Part::Text(id),
            Part::Key("JobModifyIndex"),
            Part::Number(job_index),
            Part::EndObject,
        ],
    )
}

/// The body of the reply to a registration or a deregistration, in this room.
fn registered_text(room: ReplyRoom, evaluation: u64, index: u64, job_index: u64) -> String
    ensures text { string_bytes result ≡ compact_text (registered_json evaluation index job_index) }
    ensures short { length (string_bytes result) ≤ longest_registered }
{
    let ReplyRoom { bytes } = room;
    let mut out = Writer::new(bytes);
    let written = write_registered(&mut out, evaluation, index, job_index);
    prove!(written.is_ok());
    // What a writer wrote is UTF-8.
    unsafe { String::from_utf8_unchecked(out.into_inner()) }
}
