//! The registrations in commands.

ghost use Rattle.std.specs.Prelude.{OnOk, codes, ◌∷◌, []};
ghost use Rattle.json.specs.Token.{end_array, end_object, key, string};
ghost use Rattle.ns_json.specs.Logs.{registration_json};
ghost use Rattle.ns_json.specs.Part.{Adds, Follows, tokens_of};

use json::Writer;
use ns_json::job_reply::{kind_text, write_constraints, write_groups};
use ns_json::part::{Part, write_parts};
use ns_replies::words::text_or_empty;
use ns_types::job::Registration;
use std::alloc::{AllocError, Global};

/// Writes the end of the groups, the last member, and the end of the object.
fn write_kind(out: &mut Writer, kind: &str) -> Result<(), AllocError>
    ensures { Adds result out.old out.new
        (end_array ∷ key (codes "Type") ∷ string kind.now ∷ end_object ∷ []) }
{
    write_parts(
        out,
        &[
            Part::EndArray,
            Part::Key("Type"),
            Part::Text(kind),
            Part::EndObject,
        ],
    )
}

#[tactic(auto, unfolding(ns_json::specs::Logs::registration_json))]
pub fn write_registration(
    out: &mut Writer,
    alloc: Global,
    registration: &Registration,
) -> Result<(), AllocError>
    ensures { OnOk result (Follows out.old out.new
        (tokens_of (registration_json registration.now))) }
{
    write_parts(
        out,
        &[
            Part::BeginObject,
            Part::Key("Constraints"),
            Part::BeginArray,
        ],
    )?;
    write_constraints(out, alloc, registration.constraints.as_slice())?;
    write_parts(
        out,
        &[
            Part::EndArray,
            Part::Key("ID"),
            Part::Text(registration.id.as_str()),
            Part::Key("NodePool"),
            Part::Text(text_or_empty(&registration.pool)),
            Part::Key("Priority"),
            Part::Number(registration.priority),
            Part::Key("TaskGroups"),
            Part::BeginArray,
        ],
    )?;
    write_groups(out, registration.groups.as_slice())?;
    write_kind(out, kind_text(registration.kind))
}
