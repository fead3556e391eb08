//! Events as replies show them: a line for each event.

ghost use Rattle.std.specs.Prelude.{◌≡◌, IfOk, OnOk, string_bytes};
ghost use Rattle.std.specs.List.{flat_map};
ghost use Rattle.serde_json.specs.Data.{string};
ghost use Rattle.serde_json.specs.Written.{compact_text};
ghost use Rattle.ns_json.specs.Part.{Follows, tokens_of};
ghost use Rattle.ns_json.specs.Replies.{event_line, key_text, topic_word, type_word};
ghost use Rattle.ns_replies.specs.Events.{shown_json};

use crate::shown::{Shown, written_text};
use crate::work::write_id;
use json::Writer;
use ns_json::part::{Part, write_parts};
use ns_types::event::{Event, Topic};
use ns_types::id::IdKind;
use ns_types::rows::Rows;
use ns_types::text::Text;
use std::alloc::{AllocError, Global};

fn topic_word<'a>(topic: &Topic) -> &'a str
    ensures { result.now ≡ topic_word topic.now }
{
    match topic {
        Topic::JobRegistered(_) | Topic::JobDeregistered(_) => "Job",
        Topic::EvaluationUpdated(_) => "Evaluation",
        Topic::AllocationUpdated(_) => "Allocation",
    }
}

fn type_word<'a>(topic: &Topic) -> &'a str
    ensures { result.now ≡ type_word topic.now }
{
    match topic {
        Topic::JobRegistered(_) => "JobRegistered",
        Topic::JobDeregistered(_) => "JobDeregistered",
        Topic::EvaluationUpdated(_) => "EvaluationUpdated",
        Topic::AllocationUpdated(_) => "AllocationUpdated",
    }
}

/// Writes the id of the row that changed.
fn write_key(out: &mut Writer, topic: &Topic) -> Result<(), AllocError>
    ensures { OnOk result (Follows out.old out.new (tokens_of (string (key_text topic.now)))) }
{
    match topic {
        Topic::JobRegistered(id) | Topic::JobDeregistered(id) => id.write_json(out),
        Topic::EvaluationUpdated(number) => write_id(out, IdKind::Evaluation, *number),
        Topic::AllocationUpdated(number) => write_id(out, IdKind::Allocation, *number),
    }
}

fn write_event(out: &mut Writer, namespace: &Text, event: &Event) -> Result<(), AllocError>
    ensures { OnOk result (Follows out.old out.new
        (tokens_of (shown_json namespace.now event.now))) }
{
    write_parts(
        out,
        &[
            Part::BeginObject,
            Part::Key("Events"),
            Part::BeginArray,
            Part::BeginObject,
            Part::Key("Index"),
            Part::Number(event.index),
            Part::Key("Key"),
        ],
    )?;
    write_key(out, &event.topic)?;
    write_parts(
        out,
        &[
            Part::Key("Namespace"),
            Part::Text(namespace.as_str()),
            Part::Key("Topic"),
            Part::Text(topic_word(&event.topic)),
            Part::Key("Type"),
            Part::Text(type_word(&event.topic)),
            Part::EndObject,
            Part::EndArray,
            Part::Key("Index"),
            Part::Number(event.index),
            Part::EndObject,
        ],
    )
}

fn event_text(alloc: Global, namespace: &Text, event: &Event) -> Result<String, AllocError>
    ensures { IfOk result
        (λ s. string_bytes s ≡ compact_text (shown_json namespace.now event.now)) }
{
    let mut out = Writer::new(Vec::new(alloc));
    write_event(&mut out, namespace, event)?;
    Ok(written_text(out))
}

/// The text of a namespace's events. Want of memory is the only error.
pub fn events_text(
    alloc: Global,
    namespace: &Text,
    events: &Rows<Event>,
) -> Result<String, AllocError>
    ensures { IfOk result
        (λ s. string_bytes s ≡ flat_map (event_line namespace.now) events.now) }
{
    let mut lines = String::new(alloc);
    for event in events.as_slice() {
        let text = event_text(alloc, namespace, event)?;
        lines.push_str(text.as_str())?;
        lines.push_str("\n")?;
    }
    Ok(lines)
}
