//! Reads the commands about a pool and its nodes.

ghost use Rattle.std.specs.Prelude.{◌≤◌, IfOk, IsTrue};
ghost use Rattle.serde_json.specs.Data.{depth};
ghost use Rattle.serde_json.specs.Read.{max_depth};
ghost use Rattle.serde_json.specs.View.{view};
ghost use Rattle.ns_types.specs.Asking.Good.{IsGoodNodeCommand};
ghost use Rattle.ns_log_reader.specs.Lines.{node_command_fits};
ghost use Rattle.ns_log_reader.specs.Reading.{Gives, same, put_node_in, status_in, eligible_in, client_of, reported_in, of_pool, node_command_in};

use crate::document;
use crate::fault::LineFault;
use crate::member::{has, member, name, number, text, word};
use ns_types::allocation::ClientStatus;
use ns_types::name::NameKind;
use ns_types::node::NodeStatus;
use ns_types::step::{NodeCommand, Report};
use serde_json::Value;
use std::alloc::Global;

#[tactic(auto, unfolding(crate::specs::Reading::put_node_in))]
fn put_node(alloc: Global, arguments: &Value) -> Result<NodeCommand, LineFault>
    requires { depth (view arguments.now) ≤ max_depth }
    ensures value { Gives same result (put_node_in (view arguments.now)) }
    ensures good { IfOk result IsGoodNodeCommand }
    ensures fits { IfOk result (λ c. IsTrue (node_command_fits c)) }
{
    let node = member(arguments, "Doc")?;
    let name = name(alloc, arguments, "Name", NameKind::Node)?;
    let offer = document::offer(alloc, node)?;
    Ok(NodeCommand::PutNode(name, offer))
}

#[tactic(auto, unfolding(crate::specs::Reading::status_in))]
fn status(alloc: Global, arguments: &Value) -> Result<NodeCommand, LineFault>
    ensures value { Gives same result (status_in (view arguments.now)) }
    ensures good { IfOk result IsGoodNodeCommand }
    ensures fits { IfOk result (λ c. IsTrue (node_command_fits c)) }
{
    let name = text(alloc, arguments, "Name")?;
    let word = word(arguments, "Status")?;
    match word {
        "ready" => Ok(NodeCommand::SetStatus(name, NodeStatus::Ready)),
        "down" => Ok(NodeCommand::SetStatus(name, NodeStatus::Down)),
        _ => Err(LineFault::Bad),
    }
}

#[tactic(auto, unfolding(crate::specs::Reading::eligible_in))]
fn eligible(alloc: Global, arguments: &Value) -> Result<NodeCommand, LineFault>
    ensures value { Gives same result (eligible_in (view arguments.now)) }
    ensures good { IfOk result IsGoodNodeCommand }
    ensures fits { IfOk result (λ c. IsTrue (node_command_fits c)) }
{
    let name = text(alloc, arguments, "Name")?;
    let word = word(arguments, "Eligibility")?;
    if word == "eligible" {
        Ok(NodeCommand::SetEligible(name, true))
    } else if word == "ineligible" {
        Ok(NodeCommand::SetEligible(name, false))
    } else {
        Err(LineFault::Bad)
    }
}

#[tactic(auto, unfolding(crate::specs::Reading::client_of))]
fn client_of(word: &str) -> Result<ClientStatus, LineFault>
    ensures { Gives same result (client_of word.now) }
{
    match word {
        "pending" => Ok(ClientStatus::Pending),
        "running" => Ok(ClientStatus::Running),
        "complete" => Ok(ClientStatus::Complete),
        "failed" => Ok(ClientStatus::Failed),
        "lost" => Ok(ClientStatus::Lost),
        _ => Err(LineFault::Bad),
    }
}

#[tactic(auto, unfolding(crate::specs::Reading::reported_in))]
fn reported(alloc: Global, arguments: &Value) -> Result<NodeCommand, LineFault>
    ensures value { Gives same result (reported_in (view arguments.now)) }
    ensures good { IfOk result IsGoodNodeCommand }
    ensures fits { IfOk result (λ c. IsTrue (node_command_fits c)) }
{
    let client = client_of(word(arguments, "ClientStatus")?)?;
    let name = text(alloc, arguments, "Name")?;
    let namespace = text(alloc, arguments, "Namespace")?;
    let number = number(arguments, "Number")?;
    let report = Report {
        namespace,
        number,
        client,
    };
    Ok(NodeCommand::Report(name, report))
}

#[tactic(auto, unfolding(crate::specs::Reading::of_pool))]
fn of_pool(word: &str) -> Result<NodeCommand, LineFault>
    ensures value { Gives same result (of_pool word.now) }
    ensures good { IfOk result IsGoodNodeCommand }
    ensures fits { IfOk result (λ c. IsTrue (node_command_fits c)) }
{
    match word {
        "ReadPool" => Ok(NodeCommand::ReadPool),
        "ListNodes" => Ok(NodeCommand::ListNodes),
        _ => Err(LineFault::Bad),
    }
}

/// Reads the command with this word. The arguments decide which commands the word can name.
#[tactic(auto, unfolding(crate::specs::Reading::node_command_in))]
pub fn node_command(alloc: Global, word: &str, arguments: &Value) -> Result<NodeCommand, LineFault>
    requires { depth (view arguments.now) ≤ max_depth }
    ensures value { Gives same result (node_command_in word.now (view arguments.now)) }
    ensures good { IfOk result IsGoodNodeCommand }
    ensures fits { IfOk result (λ c. IsTrue (node_command_fits c)) }
{
    if has(arguments, "Doc") {
        put_node(alloc, arguments)
    } else if has(arguments, "Status") {
        status(alloc, arguments)
    } else if has(arguments, "Eligibility") {
        eligible(alloc, arguments)
    } else if has(arguments, "ClientStatus") {
        reported(alloc, arguments)
    } else if has(arguments, "Name") {
        Ok(NodeCommand::DeleteNode(text(alloc, arguments, "Name")?))
    } else {
        of_pool(word)
    }
}
