//! A command to a server: its arguments and its name.

ghost use Rattle.std.specs.Prelude.{OnOk, map, codes, ◌∷◌, []};
ghost use Rattle.serde_json.specs.Data.{string};
ghost use Rattle.ns_json.specs.Logs.{asked, administered, node_call, documented, report_members};
ghost use Rattle.ns_json.specs.Part.{Follows};
ghost use Rattle.ns_json.specs.Rendering.{number_of};
ghost use Rattle.ns_log.specs.Members.{document_json, member_of, call_tokens};

use crate::document::Document;
use crate::member::{Member, number_or_null, write_object};
use json::Writer;
use ns_json::part::{Part, write_parts};
use ns_replies::words::{client_text, eligibility_text, node_status_text};
use ns_types::step::{AdminCommand, AskCommand, NodeCommand, Report};
use ns_types::text::Text;
use std::alloc::{AllocError, Global};

fn write_call(
    out: &mut Writer,
    alloc: Global,
    word: &str,
    arguments: &[Member<'_>],
) -> Result<(), AllocError>
    ensures { OnOk result (Follows out.old out.new
        (call_tokens (word.now, map member_of arguments.now))) }
{
    write_parts(out, &[Part::Key("Args")])?;
    write_object(out, alloc, arguments)?;
    write_parts(out, &[Part::Key("Do"), Part::Text(word)])
}

fn write_bare(out: &mut Writer, word: &str) -> Result<(), AllocError>
    ensures { OnOk result (Follows out.old out.new (call_tokens (word.now, []))) }
{
    write_parts(
        out,
        &[
            Part::Key("Args"),
            Part::BeginObject,
            Part::EndObject,
            Part::Key("Do"),
            Part::Text(word),
        ],
    )
}

fn write_text<'a>(
    out: &mut Writer,
    word: &'a str,
    name: &'a str,
    text: &'a Text,
) -> Result<(), AllocError>
    ensures { OnOk result (Follows out.old out.new
        (call_tokens (word.now, (name.now, string text.now) ∷ []))) }
{
    write_parts(
        out,
        &[
            Part::Key("Args"),
            Part::BeginObject,
            Part::Key(name),
            Part::Text(text.as_str()),
            Part::EndObject,
            Part::Key("Do"),
            Part::Text(word),
        ],
    )
}

fn write_number<'a>(
    out: &mut Writer,
    word: &'a str,
    name: &'a str,
    number: u64,
) -> Result<(), AllocError>
    ensures { OnOk result (Follows out.old out.new
        (call_tokens (word.now, (name.now, number_of number) ∷ []))) }
{
    write_parts(
        out,
        &[
            Part::Key("Args"),
            Part::BeginObject,
            Part::Key(name),
            Part::Number(number),
            Part::EndObject,
            Part::Key("Do"),
            Part::Text(word),
        ],
    )
}

fn write_put(
    out: &mut Writer,
    alloc: Global,
    word: &str,
    document: Document<'_>,
) -> Result<(), AllocError>
    ensures { OnOk result (Follows out.old out.new
        (call_tokens (word.now, documented (document_json document.entry) ∷ []))) }
{
    write_call(out, alloc, word, &[Member::Document(document)])
}

#[tactic(auto, unfolding(ns_json::specs::Logs::asked))]
pub fn write_asked(out: &mut Writer, alloc: Global, command: &AskCommand) -> Result<(), AllocError>
    ensures { OnOk result (Follows out.old out.new (call_tokens (asked command.now))) }
{
    match command {
        AskCommand::ListJobs(prefix) => write_text(out, "ListJobs", "Prefix", prefix),
        AskCommand::Register(registration) => {
            let document = Member::Document(Document::Registration(registration));
            let enforced = number_or_null("Enforce", registration.enforced);
            write_call(out, alloc, "Register", &[document, enforced])
        }
        AskCommand::ReadJob(id) => write_text(out, "ReadJob", "ID", id),
        AskCommand::Deregister(id, purge) => {
            let arguments = [Member::Text("ID", id), Member::Flag("Purge", *purge)];
            write_call(out, alloc, "Deregister", &arguments)
        }
        AskCommand::JobAllocations(id) => write_text(out, "JobAllocations", "ID", id),
        AskCommand::JobEvaluations(id) => write_text(out, "JobEvaluations", "ID", id),
        AskCommand::ListEvaluations(prefix) => write_text(out, "ListEvaluations", "Prefix", prefix),
        AskCommand::ReadEvaluation(n) => write_number(out, "ReadEvaluation", "Number", *n),
        AskCommand::ListAllocations(prefix) => write_text(out, "ListAllocations", "Prefix", prefix),
        AskCommand::ReadAllocation(n) => write_number(out, "ReadAllocation", "Number", *n),
        AskCommand::StopAllocation(n) => write_number(out, "StopAllocation", "Number", *n),
        AskCommand::ReadNamespace => write_bare(out, "ReadNamespace"),
        AskCommand::QuotaUsage(quota) => write_text(out, "QuotaUsage", "Name", quota),
        AskCommand::Events(index) => write_number(out, "Events", "From", *index),
    }
}

#[tactic(auto, unfolding(ns_json::specs::Logs::administered))]
pub fn write_administered(
    out: &mut Writer,
    alloc: Global,
    command: &AdminCommand,
) -> Result<(), AllocError>
    ensures { OnOk result (Follows out.old out.new (call_tokens (administered command.now))) }
{
    match command {
        AdminCommand::ListNamespaces => write_bare(out, "ListNamespaces"),
        AdminCommand::PutNamespace(name, row) => {
            write_put(out, alloc, "PutNamespace", Document::Namespace(name, row))
        }
        AdminCommand::DeleteNamespace(name) => write_text(out, "DeleteNamespace", "Name", name),
        AdminCommand::ListQuotas => write_bare(out, "ListQuotas"),
        AdminCommand::ReadQuota(name) => write_text(out, "ReadQuota", "Name", name),
        AdminCommand::PutQuota(name, quota) => {
            write_put(out, alloc, "PutQuota", Document::Quota(name, quota))
        }
        AdminCommand::DeleteQuota(name) => write_text(out, "DeleteQuota", "Name", name),
        AdminCommand::ListPools => write_bare(out, "ListPools"),
        AdminCommand::PutPool(name, pool) => {
            write_put(out, alloc, "PutPool", Document::Pool(name, pool))
        }
        AdminCommand::DeletePool(name) => write_text(out, "DeletePool", "Name", name),
        AdminCommand::ReadPolicy(name) => write_text(out, "ReadPolicy", "Name", name),
        AdminCommand::PutPolicy(name, policy) => {
            write_put(out, alloc, "PutPolicy", Document::Policy(name, policy))
        }
        AdminCommand::DeletePolicy(name) => write_text(out, "DeletePolicy", "Name", name),
        AdminCommand::CreateToken(new) => {
            write_put(out, alloc, "CreateToken", Document::Token(new))
        }
        AdminCommand::DeleteToken(id) => write_text(out, "DeleteToken", "AccessorID", id),
    }
}

fn write_report<'a>(out: &mut Writer, name: &'a Text, report: &'a Report) -> Result<(), AllocError>
    ensures { OnOk result (Follows out.old out.new
        (call_tokens (codes "Report", report_members name.now report.now))) }
{
    write_parts(
        out,
        &[
            Part::Key("Args"),
            Part::BeginObject,
            Part::Key("ClientStatus"),
            Part::Text(client_text(report.client)),
            Part::Key("Name"),
            Part::Text(name.as_str()),
            Part::Key("Namespace"),
            Part::Text(report.namespace.as_str()),
            Part::Key("Number"),
            Part::Number(report.number),
            Part::EndObject,
            Part::Key("Do"),
            Part::Text("Report"),
        ],
    )
}

#[tactic(auto, unfolding(ns_json::specs::Logs::node_call))]
pub fn write_node_call(
    out: &mut Writer,
    alloc: Global,
    command: &NodeCommand,
) -> Result<(), AllocError>
    ensures { OnOk result (Follows out.old out.new (call_tokens (node_call command.now))) }
{
    match command {
        NodeCommand::ReadPool => write_bare(out, "ReadPool"),
        NodeCommand::ListNodes => write_bare(out, "ListNodes"),
        NodeCommand::PutNode(name, offer) => {
            let document = Member::Document(Document::Offer(offer));
            write_call(
                out,
                alloc,
                "PutNode",
                &[document, Member::Text("Name", name)],
            )
        }
        NodeCommand::DeleteNode(name) => write_text(out, "DeleteNode", "Name", name),
        NodeCommand::SetStatus(name, status) => {
            let status = Member::Word("Status", node_status_text(*status));
            write_call(
                out,
                alloc,
                "SetStatus",
                &[Member::Text("Name", name), status],
            )
        }
        NodeCommand::SetEligible(name, eligible) => {
            let eligible = Member::Word("Eligibility", eligibility_text(*eligible));
            write_call(
                out,
                alloc,
                "SetEligible",
                &[eligible, Member::Text("Name", name)],
            )
        }
        NodeCommand::Report(name, report) => write_report(out, name, report),
    }
}
