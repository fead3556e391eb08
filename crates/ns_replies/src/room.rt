//! Room for the reply to a write, which is taken before the step.

ghost use Rattle.std.specs.Prelude.{◌≡◌, ◌≤◌, IfOk, Ok, Some, None, string_bytes, vec_capacity, map, []};
ghost use Rattle.json.specs.Print.{print};
ghost use Rattle.json.specs.Tree;
ghost use Rattle.ns_types.specs.declared.reply.Content.TheVariants as Content;
ghost use Rattle.ns_types.specs.Asking.Policies.{made_token};
ghost use Rattle.ns_types.specs.Wire.Responses.{rendered_of};
ghost use Rattle.ns_json.specs.Part.{token_of};
ghost use Rattle.ns_json.specs.Replies.{body_of, rendered};
ghost use Rattle.ns_replies.specs.Rendered.{HasRoom, IsShort};

use crate::shown::{text_of, written_text};
use json::Writer;
use ns_json::part::{Part, write_parts};
use ns_types::id::{IdKind, id_str};
use ns_types::reply::{Content, Reply, Response};
use ns_types::step::NewToken;
use std::alloc::{AllocError, Global};
use std::marker::Model;

/// Room for the reply to a write, which is taken before the step. It is enough for a reply with numbers, and for an empty one.
/// The room for a new token also holds the body of its reply.
#[derive(Drop)]
pub struct Room {
    numbers: ns_json::ReplyRoom,
    token: Option<String>,
}

impl Model for Room {
    ghost use Rattle.std.specs.Prelude.{List, ℕ, Option, option_map, string_bytes};

    ghost Value = { Option (List ℕ) };

    ghost view = { λ room. option_map string_bytes room.token };
}

impl Room {
    /// Room for the reply to a registration, to the stop of an allocation, or to the write of a record. Want of memory is the
    /// only error.
    pub fn new(alloc: Global) -> Result<Room, AllocError>
        ensures { IfOk result (λ room. room ≡ None) }
    {
        let numbers = ns_json::ReplyRoom::new(alloc)?;
        Ok(Room {
            numbers,
            token: None,
        })
    }

    /// Such room, with the body of the reply to the creation of that token. Want of memory is the only error.
    #[tactic(auto, unfolding(ns_json::specs::Replies::body_of))]
    pub fn for_token(alloc: Global, new: &NewToken) -> Result<Room, AllocError>
        ensures { IfOk result (λ room. room ≡ Some (body_of (Content.Token (made_token new.now)))) }
    {
        let numbers = ns_json::ReplyRoom::new(alloc)?;
        let body = text_of(alloc, new)?;
        Ok(Room {
            numbers,
            token: Some(body),
        })
    }

    /// The response to a write, in the room that was taken for it. It takes no memory.
    #[tactic(auto, unfolding(ns_json::specs::Replies::rendered, ns_json::specs::Replies::body_of))]
    pub fn render(self, reply: &Reply) -> Response
        requires { HasRoom self reply.now.content }
        ensures bytes { rendered_of result ≡ rendered (Ok reply.now) }
        ensures short { IsShort reply.now.content (rendered_of result).body }
    {
        let Room { numbers, token } = self;
        match &reply.content {
            Content::Registered(_, _, _) => numbers.render(reply),
            Content::Stopped(evaluation, index) => {
                let body = stopped_text(numbers, *evaluation, *index);
                Response::Done(reply.index, body)
            }
            Content::Written => Response::Done(reply.index, nothing_text(numbers)),
            Content::Token(_) => {
                let Some(body) = token else { unreachable!() };
                Response::Done(reply.index, body)
            }
            _ => unreachable!(),
        }
    }
}

/// The text of the parts, in an empty buffer with room for them.
fn parts_text(bytes: Vec<u8>, parts: &[Part<'_>]) -> String
    requires empty { bytes.items ≡ [] }
    requires fits { Tree.room (map token_of parts.now) ≤ vec_capacity bytes }
    ensures { string_bytes result ≡ print (map token_of parts.now) }
{
    let mut out = Writer::new(bytes);
    let written = write_parts(&mut out, parts);
    prove!(written.is_ok());
    written_text(out)
}

fn nothing_text(numbers: ns_json::ReplyRoom) -> String
    ensures { string_bytes result ≡ body_of Content.Written }
{
    parts_text(numbers.into_bytes(), &[Part::BeginObject, Part::EndObject])
}

fn stopped_text(numbers: ns_json::ReplyRoom, evaluation: u64, index: u64) -> String
    ensures { string_bytes result ≡ body_of (Content.Stopped evaluation index) }
{
    let mut buffer = [0; 36];
    let id = id_str(IdKind::Evaluation, evaluation, &mut buffer);
    parts_text(
        numbers.into_bytes(),
        &[
            Part::BeginObject,
            Part::Key("EvalID"),
            Part::Text(id),
            Part::Key("Index"),
            Part::Number(index),
            Part::EndObject,
        ],
    )
}
