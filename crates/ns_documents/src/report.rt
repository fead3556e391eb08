//! Reads what a client reports of an allocation.

ghost use Rattle.std.specs.Prelude.{IfErr};
ghost use Rattle.serde_json.specs.View.{view};
ghost use Rattle.ns_json.specs.Reading.{Gives, same, body_in, IsOfDocument};
ghost use Rattle.ns_documents.specs.Nodes.{reported_in, report_in};

use crate::members::word;
use ns_json::member;
use ns_json::member::{demanded, document, read_json};
use ns_types::allocation::ClientStatus;
use ns_types::id::IdKind;
use ns_types::name::NameKind;
use ns_types::refusal::{Member, Refusal};
use ns_types::step::Report;
use serde_json::Value;
use std::alloc::Global;

#[tactic(auto, unfolding(crate::specs::Nodes::reported_in))]
fn reported(report: &Value) -> Result<ClientStatus, Refusal>
    ensures { Gives same result (reported_in (view report.now)) }
{
    let word = word(report, Member::ClientStatus)?;
    if word == "running" {
        return Ok(ClientStatus::Running);
    }
    if word == "complete" {
        return Ok(ClientStatus::Complete);
    }
    if word == "failed" {
        return Ok(ClientStatus::Failed);
    }
    Err(Refusal::BadField(Member::ClientStatus))
}

#[tactic(auto, unfolding(crate::specs::Nodes::report_in))]
fn report(alloc: Global, value: &Value) -> Result<Report, Refusal>
    ensures { Gives same result (report_in (view value.now)) }
{
    let top = document(value)?;
    let named = demanded(top, Member::Namespace)?;
    let namespace = member::name(alloc, named, Member::Namespace, NameKind::Namespace)?;
    let id = demanded(top, Member::Id)?;
    let number = member::id(id, Member::Id, IdKind::Allocation)?;
    let client = reported(top)?;
    Ok(Report {
        namespace,
        number,
        client,
    })
}

/// The report of an allocation in the body, or the first refusal.
#[tactic(auto, unfolding(ns_json::specs::Reading::body_in))]
pub fn read_report(alloc: Global, body: &[u8]) -> Result<Report, Refusal>
    ensures value { Gives same result (body_in report_in body.now) }
    // What the refusal can be.
    ensures kinds { IfErr result IsOfDocument }
{
    report(alloc, &read_json(alloc, body)?)
}
