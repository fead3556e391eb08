//! Reads the commands about a namespace.

ghost use Rattle.std.specs.Prelude.{◌<◌, IfOk, IsTrue};
ghost use Rattle.serde_json.specs.Data.{depth};
ghost use Rattle.serde_json.specs.Read.{max_depth};
ghost use Rattle.serde_json.specs.View.{view};
ghost use Rattle.ns_types.specs.Asking.Good.{is_good_ask};
ghost use Rattle.ns_log_reader.specs.Lines.{ask_fits};
ghost use Rattle.ns_log_reader.specs.Reading.{Gives, same, registered_in, deregistered_in, with_prefix_in, with_id_in, with_number_in, usage_in, events_in, asked_in};

use crate::document;
use crate::fault::LineFault;
use crate::member::{flag, has, member, number, number_or_null, text};
use ns_types::step::AskCommand;
use serde_json::Value;
use std::alloc::Global;

#[tactic(auto, unfolding(crate::specs::Reading::registered_in))]
fn registered(alloc: Global, arguments: &Value) -> Result<AskCommand, LineFault>
    requires { depth (view arguments.now) < max_depth }
    ensures value { Gives same result (registered_in (view arguments.now)) }
    ensures good { IfOk result (λ c. IsTrue (is_good_ask c)) }
    ensures fits { IfOk result (λ c. IsTrue (ask_fits c)) }
{
    let job = member(arguments, "Doc")?;
    let enforced = number_or_null(arguments, "Enforce")?;
    let document = document::registration(alloc, job)?;
    let mut registration = document.registration;
    registration.enforced = enforced;
    Ok(AskCommand::Register(registration))
}

#[tactic(auto, unfolding(crate::specs::Reading::with_prefix_in))]
fn with_prefix(alloc: Global, word: &str, arguments: &Value) -> Result<AskCommand, LineFault>
    ensures value { Gives same result (with_prefix_in word.now (view arguments.now)) }
    ensures good { IfOk result (λ c. IsTrue (is_good_ask c)) }
    ensures fits { IfOk result (λ c. IsTrue (ask_fits c)) }
{
    let prefix = text(alloc, arguments, "Prefix")?;
    match word {
        "ListJobs" => Ok(AskCommand::ListJobs(prefix)),
        "ListEvaluations" => Ok(AskCommand::ListEvaluations(prefix)),
        "ListAllocations" => Ok(AskCommand::ListAllocations(prefix)),
        _ => Err(LineFault::Bad),
    }
}

#[tactic(auto, unfolding(crate::specs::Reading::with_id_in))]
fn with_id(alloc: Global, word: &str, arguments: &Value) -> Result<AskCommand, LineFault>
    ensures value { Gives same result (with_id_in word.now (view arguments.now)) }
    ensures good { IfOk result (λ c. IsTrue (is_good_ask c)) }
    ensures fits { IfOk result (λ c. IsTrue (ask_fits c)) }
{
    let id = text(alloc, arguments, "ID")?;
    match word {
        "ReadJob" => Ok(AskCommand::ReadJob(id)),
        "JobAllocations" => Ok(AskCommand::JobAllocations(id)),
        "JobEvaluations" => Ok(AskCommand::JobEvaluations(id)),
        _ => Err(LineFault::Bad),
    }
}

#[tactic(auto, unfolding(crate::specs::Reading::with_number_in))]
fn with_number(word: &str, arguments: &Value) -> Result<AskCommand, LineFault>
    ensures value { Gives same result (with_number_in word.now (view arguments.now)) }
    ensures good { IfOk result (λ c. IsTrue (is_good_ask c)) }
    ensures fits { IfOk result (λ c. IsTrue (ask_fits c)) }
{
    let number = number(arguments, "Number")?;
    match word {
        "ReadEvaluation" => Ok(AskCommand::ReadEvaluation(number)),
        "ReadAllocation" => Ok(AskCommand::ReadAllocation(number)),
        "StopAllocation" => Ok(AskCommand::StopAllocation(number)),
        _ => Err(LineFault::Bad),
    }
}

#[tactic(auto, unfolding(crate::specs::Reading::deregistered_in))]
fn deregistered(alloc: Global, arguments: &Value) -> Result<AskCommand, LineFault>
    ensures value { Gives same result (deregistered_in (view arguments.now)) }
    ensures good { IfOk result (λ c. IsTrue (is_good_ask c)) }
    ensures fits { IfOk result (λ c. IsTrue (ask_fits c)) }
{
    let id = text(alloc, arguments, "ID")?;
    let purge = flag(arguments, "Purge")?;
    Ok(AskCommand::Deregister(id, purge))
}

#[tactic(auto, unfolding(crate::specs::Reading::usage_in))]
fn usage(alloc: Global, arguments: &Value) -> Result<AskCommand, LineFault>
    ensures value { Gives same result (usage_in (view arguments.now)) }
    ensures good { IfOk result (λ c. IsTrue (is_good_ask c)) }
    ensures fits { IfOk result (λ c. IsTrue (ask_fits c)) }
{
    Ok(AskCommand::QuotaUsage(text(alloc, arguments, "Name")?))
}

#[tactic(auto, unfolding(crate::specs::Reading::events_in))]
fn events(arguments: &Value) -> Result<AskCommand, LineFault>
    ensures value { Gives same result (events_in (view arguments.now)) }
    ensures good { IfOk result (λ c. IsTrue (is_good_ask c)) }
    ensures fits { IfOk result (λ c. IsTrue (ask_fits c)) }
{
    Ok(AskCommand::Events(number(arguments, "From")?))
}

/// Reads the command with this word. The arguments decide which commands the word can name.
#[tactic(auto, unfolding(crate::specs::Reading::asked_in))]
pub fn asked(alloc: Global, word: &str, arguments: &Value) -> Result<AskCommand, LineFault>
    requires { depth (view arguments.now) < max_depth }
    ensures value { Gives same result (asked_in word.now (view arguments.now)) }
    ensures good { IfOk result (λ c. IsTrue (is_good_ask c)) }
    ensures fits { IfOk result (λ c. IsTrue (ask_fits c)) }
{
    if has(arguments, "Prefix") {
        with_prefix(alloc, word, arguments)
    } else if has(arguments, "Purge") {
        deregistered(alloc, arguments)
    } else if has(arguments, "ID") {
        with_id(alloc, word, arguments)
    } else if has(arguments, "Number") {
        with_number(word, arguments)
    } else if has(arguments, "Doc") {
        registered(alloc, arguments)
    } else if has(arguments, "Name") {
        usage(alloc, arguments)
    } else if has(arguments, "From") {
        events(arguments)
    } else {
        Ok(AskCommand::ReadNamespace)
    }
}
