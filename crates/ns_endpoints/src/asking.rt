//! Finds the step that a request asks for.

ghost use Rattle.std.specs.Prelude.{◌≡◌, IfOk};
ghost use Rattle.ns_http.specs.Head;
ghost use Rattle.ns_json.specs.Reading.{same};
ghost use Rattle.ns_request.specs.Gives.{Gives};
ghost use Rattle.ns_endpoints.specs.Asking.{asked, asked_of};
ghost use Rattle.ns_endpoints.specs.Parts.{namespace_of};
ghost use Rattle.ns_endpoints.specs.Wanted.{bearer_of, draft_step, IsServedDraft, IsServedWanted, step_by};

use crate::tables::wanted;
use crate::wanted::{Bearer, Draft, Wanted};
use ns_http::Request;
use ns_request::{RequestTarget, Routes, secret};
use ns_types::refusal::Refusal;
use ns_types::step::Step;
use ns_types::text::Text;
use std::alloc::{AllocError, Global};

/// The parameter's namespace, else the document's, else `default`.
fn namespace_or_default(
    alloc: Global,
    parameter: Option<Text>,
    document: Option<Text>,
) -> Result<Text, AllocError>
    ensures { IfOk result (λ name. name ≡ namespace_of parameter document) }
{
    match parameter {
        Some(name) => Ok(name),
        None => match document {
            Some(name) => Ok(name),
            None => Text::from_str(alloc, "default"),
        },
    }
}

/// Reads the secret and the namespace that the query names. A bad name of a namespace is refused for every step.
fn bearer(alloc: Global, target: &RequestTarget<'_>) -> Result<Bearer, Refusal>
    ensures { Gives same result (bearer_of (Head.asked target.now.request)) }
{
    let namespace = target.query.namespace(alloc)?;
    let secret = secret(alloc, target.request.token)?;
    Ok(Bearer { namespace, secret })
}

/// The wanted step with its bearer. Want of memory is the only error.
fn draft(alloc: Global, bearer: Bearer, wanted: Wanted) -> Result<Draft, AllocError>
    requires { IsServedWanted wanted }
    ensures step { IfOk result (λ draft. draft_step draft ≡ step_by bearer wanted) }
    ensures served { IfOk result IsServedDraft }
{
    let Bearer { namespace, secret } = bearer;
    match wanted {
        Wanted::Ask(document, command) => {
            match namespace_or_default(alloc, namespace, document) {
                Ok(namespace) => Ok(Draft::Step(Step::Ask(namespace, secret, command))),
                Err(error) => {
                    drop(command);
                    Err(error)
                }
            }
        }
        Wanted::AskIn(namespace, command) => {
            Ok(Draft::Step(Step::Ask(namespace, secret, command)))
        }
        Wanted::Admin(command) => Ok(Draft::Step(Step::Admin(secret, command))),
        Wanted::Token(token) => Ok(Draft::Token(secret, token)),
        Wanted::Node(pool, command) => Ok(Draft::Step(Step::Node(pool, secret, command))),
    }
}

/// The step that a target asks for, or the refusal that needs no state.
#[tactic(auto, unfolding(crate::specs::Wanted::step_of))]
fn asked_of(alloc: Global, target: &RequestTarget<'_>) -> Result<Draft, Refusal>
    ensures step { Gives draft_step result
        (asked_of target.now.endpoint target.now.method (Head.asked target.now.request)) }
    ensures served { IfOk result IsServedDraft }
{
    let wanted = wanted(alloc, target)?;
    match bearer(alloc, target) {
        Ok(bearer) => Ok(draft(alloc, bearer, wanted)?),
        Err(refusal) => {
            drop(wanted);
            Err(refusal)
        }
    }
}

/// The step that a request asks for, or the refusal that needs no state. The accessor and secret of a new token are drawn
/// later.
#[tactic(auto, unfolding(crate::specs::Asking::asked))]
pub fn asked(alloc: Global, routes: &Routes, request: &Request<'_>) -> Result<Draft, Refusal>
    ensures step { Gives draft_step result (asked (Head.asked request.now)) }
    ensures served { IfOk result IsServedDraft }
{
    let target = RequestTarget::find(alloc, routes, request)?;
    let draft = asked_of(alloc, &target);
    drop(target);
    draft
}
