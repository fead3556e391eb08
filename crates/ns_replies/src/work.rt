//! Evaluations and allocations as replies show them.

ghost use Rattle.std.specs.Prelude.{OnOk, ◌∷◌, []};
ghost use Rattle.json.specs.Token.{string};
ghost use Rattle.ns_types.specs.State.Id.{id_text};
ghost use Rattle.ns_json.specs.Part.{Follows, tokens_of};
ghost use Rattle.ns_json.specs.Rendering.{id_or_empty, evaluation_json, allocation_json};
ghost use Rattle.ns_replies.specs.Tokens.{evaluation_end, allocation_end};

use crate::shown::Shown;
use crate::words::{client_text, desired_text, status_text, text_or_empty, trigger_text};
use json::Writer;
use ns_json::job_reply::kind_text;
use ns_json::part::{Part, write_parts};
use ns_types::id::{IdKind, id_str};
use ns_types::reply::{AllocationShown, EvaluationShown};
use std::alloc::AllocError;

pub fn write_id(out: &mut Writer, kind: IdKind, number: u64) -> Result<(), AllocError>
    ensures { OnOk result (Follows out.old out.new (string (id_text kind number) ∷ [])) }
{
    let mut buffer = [0; 36];
    write_parts(out, &[Part::Text(id_str(kind, number, &mut buffer))])
}

/// Writes the id of the evaluation, or an empty text if there is none.
fn write_id_or_empty(out: &mut Writer, number: Option<u64>) -> Result<(), AllocError>
    ensures { OnOk result (Follows out.old out.new (tokens_of (id_or_empty number))) }
{
    match number {
        Some(number) => write_id(out, IdKind::Evaluation, number),
        None => write_parts(out, &[Part::Text("")]),
    }
}

/// Writes the members of an evaluation from its priority on.
fn write_evaluation_end(out: &mut Writer, evaluation: &EvaluationShown) -> Result<(), AllocError>
    ensures { OnOk result (Follows out.old out.new (evaluation_end evaluation.now)) }
{
    write_parts(
        out,
        &[
            Part::Key("Priority"),
            Part::Number(evaluation.row.priority),
            Part::Key("QuotaLimitReached"),
            Part::Text(text_or_empty(&evaluation.row.quota)),
            Part::Key("Status"),
            Part::Text(status_text(evaluation.row.status)),
            Part::Key("TriggeredBy"),
            Part::Text(trigger_text(evaluation.row.trigger)),
            Part::Key("Type"),
            Part::Text(kind_text(evaluation.row.kind)),
            Part::EndObject,
        ],
    )
}

impl Shown for EvaluationShown {
    ghost json = { λ evaluation. evaluation_json evaluation };

    fn write_json(&self, out: &mut Writer) -> Result<(), AllocError> {
        write_parts(out, &[Part::BeginObject, Part::Key("BlockedEval")])?;
        write_id_or_empty(out, self.row.follower)?;
        write_parts(
            out,
            &[
                Part::Key("CreateIndex"),
                Part::Number(self.row.create_index),
                Part::Key("EscapedComputedClass"),
                Part::Flag(self.row.escapes),
                Part::Key("ID"),
            ],
        )?;
        write_id(out, IdKind::Evaluation, self.number)?;
        write_parts(
            out,
            &[
                Part::Key("JobID"),
                Part::Text(self.row.job.as_str()),
                Part::Key("ModifyIndex"),
                Part::Number(self.row.modify_index),
                Part::Key("Namespace"),
                Part::Text(self.namespace.as_str()),
                Part::Key("NodePool"),
                Part::Text(self.row.pool.as_str()),
                Part::Key("PreviousEval"),
            ],
        )?;
        write_id_or_empty(out, self.row.previous)?;
        write_evaluation_end(out, self)
    }
}

/// Writes the members of an allocation from its job's id on.
fn write_allocation_end(out: &mut Writer, allocation: &AllocationShown) -> Result<(), AllocError>
    ensures { OnOk result (Follows out.old out.new (allocation_end allocation.now)) }
{
    write_parts(
        out,
        &[
            Part::Key("JobID"),
            Part::Text(allocation.row.job.as_str()),
            Part::Key("JobModifyIndex"),
            Part::Number(allocation.row.job_modify_index),
            Part::Key("ModifyIndex"),
            Part::Number(allocation.row.modify_index),
            Part::Key("Namespace"),
            Part::Text(allocation.namespace.as_str()),
            Part::Key("NodeName"),
            Part::Text(allocation.row.node.as_str()),
            Part::Key("NodePool"),
            Part::Text(allocation.row.pool.as_str()),
            Part::Key("Priority"),
            Part::Number(allocation.row.priority),
            Part::Key("Resources"),
        ],
    )?;
    allocation.row.size.write_json(out)?;
    write_parts(
        out,
        &[
            Part::Key("TaskGroup"),
            Part::Text(allocation.row.group.as_str()),
            Part::EndObject,
        ],
    )
}

impl Shown for AllocationShown {
    ghost json = { λ allocation. allocation_json allocation };

    fn write_json(&self, out: &mut Writer) -> Result<(), AllocError> {
        write_parts(
            out,
            &[
                Part::BeginObject,
                Part::Key("ClientStatus"),
                Part::Text(client_text(self.row.client)),
                Part::Key("CreateIndex"),
                Part::Number(self.row.create_index),
                Part::Key("DesiredStatus"),
                Part::Text(desired_text(self.row.desired)),
                Part::Key("EvalID"),
            ],
        )?;
        write_id(out, IdKind::Evaluation, self.row.evaluation)?;
        write_parts(out, &[Part::Key("ID")])?;
        write_id(out, IdKind::Allocation, self.number)?;
        write_allocation_end(out, self)
    }
}
