//! The bodies of answers that show no rows.

ghost use Rattle.std.specs.Prelude.{◌≡◌, ◌+◌, ◌*◌, ◌<◌, ◌≤◌, ◌∷◌, [], IfOk, OnErr, IsSomeAnd, length, sum_by};
ghost use Rattle.std.specs.Prelude.{codes, string_bytes, vec_capacity};
ghost use Rattle.std.specs.Option.{option_map_or};
ghost use Rattle.json.specs.Print.{escape};
ghost use Rattle.json.specs.Token.{string};
ghost use Rattle.serde_json.specs.Data;
ghost use Rattle.ns_types.specs.State.Id.{id_text};
ghost use Rattle.ns_json.specs.Part.{Adds, tokens_of};
ghost use Rattle.ns_json.specs.Rendering.{object_of, registered_json, stopped_json};
ghost use Rattle.ns_json.specs.Replies.{applied_json, body_of, finished_json, one_id};
ghost use Rattle.ns_replies.specs.Bodies.{IsBrief, WritesBody, WritesIn, id_tokens, nacked_json, text_tokens};
ghost use Rattle.ns_replies.specs.Bodies.{body_bytes, finished_bytes, nacked_bytes, one_id_bytes};
ghost use Rattle.ns_replies.specs.Bodies.{applied_bytes, id_bytes, registered_bytes, stopped_bytes, text_bytes};

use crate::shown::written_text;
use crate::words::status_text;
use json::Writer;
use ns_json::part::{Part, write_parts};
use ns_types::evaluation::Status;
use ns_types::id::{IdKind, id_str};
use ns_types::reply::Content;
use ns_types::text::Text;
use std::alloc::AllocError;

/// The id of the evaluation, written into the buffer, or an empty text if there is none.
fn id_or_empty(number: Option<u64>, buffer: &mut [u8]) -> &str
    requires { 36 ≤ length buffer.old }
    ensures { result.now ≡ option_map_or (id_text IdKind.Evaluation) number [] }
{
    match number {
        Some(number) => id_str(IdKind::Evaluation, number, buffer),
        None => "",
    }
}

fn write_registered(
    out: &mut Writer,
    evaluation: u64,
    index: u64,
    job_index: u64,
) -> Result<(), AllocError>
    ensures { WritesIn registered_bytes result out.old out.new
        (tokens_of (registered_json evaluation index job_index)) }
{
    let mut buffer = [0; 36];
    let id = id_str(IdKind::Evaluation, evaluation, &mut buffer);
    write_parts(
        out,
        &[
            Part::BeginObject,
            Part::Key("EvalCreateIndex"),
            Part::Number(index),
            Part::Key("EvalID"),
            Part::Text(id),
            Part::Key("JobModifyIndex"),
            Part::Number(job_index),
            Part::EndObject,
        ],
    )
}

fn write_stopped(out: &mut Writer, evaluation: u64, index: u64) -> Result<(), AllocError>
    ensures { WritesIn stopped_bytes result out.old out.new
        (tokens_of (stopped_json evaluation index)) }
{
    let mut buffer = [0; 36];
    let id = id_str(IdKind::Evaluation, evaluation, &mut buffer);
    write_parts(
        out,
        &[
            Part::BeginObject,
            Part::Key("EvalID"),
            Part::Text(id),
            Part::Key("Index"),
            Part::Number(index),
            Part::EndObject,
        ],
    )
}

fn write_one_id<'a>(out: &mut Writer, name: &'a str, id: &'a str) -> Result<(), AllocError>
    requires short { text_bytes name.now ≤ 10 }
    requires id { length (escape id.now) ≤ 36 }
    ensures { WritesIn one_id_bytes result out.old out.new
        (tokens_of (object_of ((name.now, Data.string id.now) ∷ []))) }
{
    write_parts(
        out,
        &[
            Part::BeginObject,
            Part::Key(name),
            Part::Text(id),
            Part::EndObject,
        ],
    )
}

fn write_took(out: &mut Writer, number: u64) -> Result<(), AllocError>
    ensures { WritesIn one_id_bytes result out.old out.new
        (tokens_of (one_id (codes "Took") number)) }
{
    let mut buffer = [0; 36];
    let id = id_str(IdKind::Evaluation, number, &mut buffer);
    write_one_id(out, "Took", id)
}

fn write_snapped(out: &mut Writer, number: u64) -> Result<(), AllocError>
    ensures { WritesIn one_id_bytes result out.old out.new
        (tokens_of (one_id (codes "Snapped") number)) }
{
    let mut buffer = [0; 36];
    let id = id_str(IdKind::Evaluation, number, &mut buffer);
    write_one_id(out, "Snapped", id)
}

fn write_queued(out: &mut Writer, number: u64) -> Result<(), AllocError>
    ensures { WritesIn one_id_bytes result out.old out.new
        (tokens_of (one_id (codes "Queued") number)) }
{
    let mut buffer = [0; 36];
    let id = id_str(IdKind::Evaluation, number, &mut buffer);
    write_one_id(out, "Queued", id)
}

fn write_finished(out: &mut Writer, status: Status, follower: Option<u64>) -> Result<(), AllocError>
    ensures { WritesIn finished_bytes result out.old out.new
        (tokens_of (finished_json status follower)) }
{
    let mut buffer = [0; 36];
    let id = id_or_empty(follower, &mut buffer);
    write_parts(
        out,
        &[
            Part::BeginObject,
            Part::Key("Follower"),
            Part::Text(id),
            Part::Key("Status"),
            Part::Text(status_text(status)),
            Part::EndObject,
        ],
    )
}

fn write_nacked(out: &mut Writer, status: Status) -> Result<(), AllocError>
    ensures { WritesIn nacked_bytes result out.old out.new (tokens_of (nacked_json status)) }
{
    write_parts(
        out,
        &[
            Part::BeginObject,
            Part::Key("Status"),
            Part::Text(status_text(status)),
            Part::EndObject,
        ],
    )
}

fn write_id(out: &mut Writer, number: u64) -> Result<(), AllocError>
    ensures { Adds result out.old out.new (string (id_text IdKind.Allocation number) ∷ []) }
{
    let mut buffer = [0; 36];
    let id = id_str(IdKind::Allocation, number, &mut buffer);
    write_parts(out, &[Part::Text(id)])
}

fn write_ids(out: &mut Writer, numbers: &[u64]) -> Result<(), AllocError>
    ensures { Adds result out.old out.new (id_tokens numbers.now) }
{
    for number in numbers {
        write_id(out, *number)?;
    }
    Ok(())
}

fn write_text(out: &mut Writer, text: &Text) -> Result<(), AllocError>
    ensures { Adds result out.old out.new (string text.now ∷ []) }
{
    write_parts(out, &[Part::Text(text.as_str())])
}

fn write_texts(out: &mut Writer, texts: &[Text]) -> Result<(), AllocError>
    ensures { Adds result out.old out.new (text_tokens texts.now) }
{
    for text in texts {
        write_text(out, text)?;
    }
    Ok(())
}

fn write_applied(out: &mut Writer, made: &[u64], dropped: &[Text]) -> Result<(), AllocError>
    ensures { WritesIn (applied_bytes + length made.now * id_bytes + sum_by text_bytes dropped.now)
        result out.old out.new (tokens_of (applied_json made.now dropped.now)) }
{
    write_parts(
        out,
        &[Part::BeginObject, Part::Key("Committed"), Part::BeginArray],
    )?;
    write_ids(out, made)?;
    write_parts(
        out,
        &[Part::EndArray, Part::Key("Dropped"), Part::BeginArray],
    )?;
    write_texts(out, dropped)?;
    write_parts(out, &[Part::EndArray, Part::EndObject])
}

fn write_nothing(out: &mut Writer) -> Result<(), AllocError>
    ensures { WritesBody Content.Written result out.old out.new }
{
    write_parts(out, &[Part::BeginObject, Part::EndObject])
}

fn write_body(out: &mut Writer, content: &Content) -> Result<(), AllocError>
    requires { IsBrief content.now }
    ensures { WritesBody content.now result out.old out.new }
{
    match content {
        Content::Registered(evaluation, index, job_index) => {
            write_registered(out, *evaluation, *index, *job_index)
        }
        Content::Stopped(evaluation, index) => write_stopped(out, *evaluation, *index),
        Content::Written => write_nothing(out),
        Content::Took(number) => write_took(out, *number),
        Content::Snapped(number) => write_snapped(out, *number),
        Content::Queued(number) => write_queued(out, *number),
        Content::Applied(made, dropped) => write_applied(out, made.as_slice(), dropped.as_slice()),
        Content::Finished(status, follower) => write_finished(out, *status, *follower),
        Content::Nacked(status) => write_nacked(out, *status),
        _ => unreachable!(),
    }
}

/// The body of a content that shows no rows, in an empty buffer. It takes memory only if the buffer is too small; want of
/// memory is the only error.
pub(crate) fn body_text(bytes: Vec<u8>, content: &Content) -> Result<String, AllocError>
    requires brief { IsBrief content.now }
    requires empty { bytes.items ≡ [] }
    ensures text { IfOk result (λ text. string_bytes text ≡ body_of content.now) }
    ensures fits { IfOk result
        (λ text. IsSomeAnd (body_bytes content.now) (λ n. length (string_bytes text) ≤ n)) }
    ensures room { OnErr result (IsSomeAnd (body_bytes content.now) (λ n. vec_capacity bytes < n)) }
{
    let mut out = Writer::new(bytes);
    write_body(&mut out, content)?;
    Ok(written_text(out))
}
