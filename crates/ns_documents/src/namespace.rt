//! The document of a namespace.

ghost use Rattle.std.specs.Prelude.{None, IfOk, IfErr, IsTrue, option_copied};
ghost use Rattle.serde_json.specs.View.{view};
ghost use Rattle.ns_types.specs.State.Limits.{is_good_namespace};
ghost use Rattle.ns_json.specs.Reading.{Gives, same, present, or_else, body_in, IsOfDocument};
ghost use Rattle.ns_json.specs.Registration.{name_if_any};
ghost use Rattle.ns_documents.specs.Members.{IsNamedWell};
ghost use Rattle.ns_documents.specs.Records.{namespace_in};

use crate::members::{description, named};
use crate::pools::configuration_or_every_pool;
use ns_json::member::{document, name_if_any, present, read_json};
use ns_types::name::NameKind;
use ns_types::records::Namespace;
use ns_types::refusal::{Member, Refusal};
use ns_types::text::Text;
use serde_json::Value;
use std::alloc::Global;

#[derive(Drop)]
pub struct NamedNamespace {
    pub name: Text,
    pub namespace: Namespace,
}

fn quota_if_any(alloc: Global, document: &Value) -> Result<Option<Text>, Refusal>
    ensures { Gives same result
        (or_else None (name_if_any Member.Quota NameKind.Quota)
        (present Member.Quota (view document.now))) }
{
    match present(document, Member::Quota) {
        None => Ok(None),
        Some(value) => name_if_any(alloc, value, Member::Quota, NameKind::Quota),
    }
}

#[tactic(auto, unfolding(crate::specs::Records::namespace_in))]
fn namespace(
    alloc: Global,
    path_name: Option<&Text>,
    value: &Value,
) -> Result<NamedNamespace, Refusal>
    ensures { Gives same result (namespace_in (option_copied path_name.entry) (view value.now)) }
{
    let top = document(value)?;
    let name = named(alloc, NameKind::Namespace, path_name, top)?;
    let description = description(alloc, top)?;
    let quota = quota_if_any(alloc, top)?;
    let pools = configuration_or_every_pool(alloc, top)?;
    Ok(NamedNamespace {
        name,
        namespace: Namespace {
            description,
            quota,
            default_pool: pools.default_pool,
            allowed: pools.allowed,
            denied: pools.denied,
        },
    })
}

/// The namespace that the body describes, or the first refusal. Its name is the path's, if the path has one.
#[tactic(auto, unfolding(ns_json::specs::Reading::body_in))]
pub fn read_namespace(
    alloc: Global,
    path_name: Option<&Text>,
    body: &[u8],
) -> Result<NamedNamespace, Refusal>
    ensures value { Gives same result
        (body_in (namespace_in (option_copied path_name.entry)) body.now) }
    // What is read is within the limits, and so is the name if the path's is.
    ensures good { IfOk result (λ d. IsTrue (is_good_namespace d.namespace)) }
    ensures name { IfOk result (λ d.
        IsNamedWell NameKind.Namespace (option_copied path_name.entry) d.name) }
    // What the refusal can be.
    ensures kinds { IfErr result IsOfDocument }
{
    namespace(alloc, path_name, &read_json(alloc, body)?)
}
