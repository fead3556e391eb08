//! Reads documents with the readers that also read requests. These take text, so a document is written as text first.

ghost use Rattle.std.specs.Prelude.{◌≡◌, ◌<◌, ◌≤◌, ◌&&◌, ◌∷◌, [], None, Some, Ok, codes, IfOk, IsTrue, string_bytes, List, ℕ};
ghost use Rattle.serde_json.specs.Data.{depth};
ghost use Rattle.serde_json.specs.Read.{read, max_depth};
ghost use Rattle.serde_json.specs.View.{view};
ghost use Rattle.ns_types.specs.declared.name.NameKind.TheVariants as NameKind;
ghost use Rattle.ns_types.specs.State.Limits.{is_good_namespace, is_good_offer, is_good_policy, is_good_quota, is_good_registration, is_good_token, is_pool_name, is_text, IsInOrder};
ghost use Rattle.ns_types.specs.State.Name.{is_name};
ghost use Rattle.ns_json.specs.Registration.{registration_in};
ghost use Rattle.ns_json.specs.Rendering.{object_of};
ghost use Rattle.ns_policy.specs.Json.{rules_of};
ghost use Rattle.ns_documents.specs.Access.{policy_in, token_in, with_accessor};
ghost use Rattle.ns_documents.specs.Nodes.{node_in};
ghost use Rattle.ns_documents.specs.Records.{namespace_in, quota_in, pool_in};
ghost use Rattle.ns_log_reader.specs.Reading.{Gives, same, accepted};

use crate::fault::{LineFault, accepted};
use ns_documents::{
    NamedNamespace, NamedPool, NamedQuota, TokenDocument, read_namespace, read_node, read_policy,
    read_pool, read_quota, read_token,
};
use ns_json::{RegistrationDocument, read_registration};
use ns_types::acl::Policy;
use ns_types::node::Offer;
use serde_json::{Map, Value};
use std::alloc::{AllocError, Global};

/// Writes the document as text that is read as the same document. Want of memory is the only error.
fn text_of(alloc: Global, document: &Value) -> Result<String, AllocError>
    requires { depth (view document.now) ≤ max_depth }
    ensures { IfOk result (λ s. read (string_bytes s) ≡ Some (view document.now)) }
{
    document.to_string(alloc)
}

pub fn namespace(alloc: Global, document: &Value) -> Result<NamedNamespace, LineFault>
    requires { depth (view document.now) ≤ max_depth }
    ensures value { Gives same result (accepted (namespace_in None (view document.now))) }
    ensures good { IfOk result (λ n.
        IsTrue (is_name NameKind.Namespace n.name && is_good_namespace n.namespace)) }
{
    let text = text_of(alloc, document)?;
    accepted(read_namespace(alloc, None, text.as_str().as_bytes()))
}

pub fn quota(alloc: Global, document: &Value) -> Result<NamedQuota, LineFault>
    requires { depth (view document.now) ≤ max_depth }
    ensures value { Gives same result (accepted (quota_in None (view document.now))) }
    ensures good { IfOk result (λ q.
        IsTrue (is_name NameKind.Quota q.name && is_good_quota q.quota)) }
{
    let text = text_of(alloc, document)?;
    accepted(read_quota(alloc, None, text.as_str().as_bytes()))
}

pub fn pool(alloc: Global, document: &Value) -> Result<NamedPool, LineFault>
    requires { depth (view document.now) ≤ max_depth }
    ensures value { Gives same result (accepted (pool_in None (view document.now))) }
    ensures good { IfOk result (λ p. IsTrue (is_pool_name p.name && is_text p.pool.description)) }
{
    let text = text_of(alloc, document)?;
    accepted(read_pool(alloc, None, text.as_str().as_bytes()))
}

pub fn policy(alloc: Global, document: &Value) -> Result<Policy, LineFault>
    requires { depth (view document.now) ≤ max_depth }
    ensures value { Gives same result (accepted (policy_in (view document.now))) }
    ensures good { IfOk result (λ p. IsTrue (is_good_policy p)) }
    ensures rules { IfOk result (λ p. rules_of p.text ≡ Ok p.rules) }
{
    let text = text_of(alloc, document)?;
    accepted(read_policy(alloc, text.as_str().as_bytes()))
}

pub fn token(alloc: Global, document: &Value) -> Result<TokenDocument, LineFault>
    requires { depth (view document.now) ≤ max_depth }
    ensures value { Gives same result (accepted (token_in (view document.now))) }
    ensures good { IfOk result (λ t. (accessor : List ℕ) →
        IsTrue (is_good_token (with_accessor accessor t))) }
{
    let text = text_of(alloc, document)?;
    accepted(read_token(alloc, text.as_str().as_bytes()))
}

pub fn offer(alloc: Global, document: &Value) -> Result<Offer, LineFault>
    requires { depth (view document.now) ≤ max_depth }
    ensures value { Gives same result (accepted (node_in (view document.now))) }
    ensures good { IfOk result (λ o. IsTrue (is_good_offer o)) }
    ensures in_order { IfOk result IsInOrder }
{
    let text = text_of(alloc, document)?;
    accepted(read_node(alloc, text.as_str().as_bytes()))
}

/// The body of a request that registers the job.
fn body_of(alloc: Global, job: &Value) -> Result<Value, AllocError>
    ensures { IfOk result (λ v.
        view v ≡ object_of ((codes "Job", view job.now) ∷ [])) }
{
    let mut body = Map::new(alloc);
    body.insert(String::from_str(alloc, "Job")?, job.clone()?)?;
    Ok(Value::Object(body))
}

pub fn registration(alloc: Global, job: &Value) -> Result<RegistrationDocument, LineFault>
    requires { depth (view job.now) < max_depth }
    ensures value { Gives same result
        (accepted (registration_in (object_of ((codes "Job", view job.now) ∷ [])))) }
    ensures good { IfOk result (λ r. IsTrue (is_good_registration r.registration)) }
{
    let body = body_of(alloc, job)?;
    let text = text_of(alloc, &body)?;
    accepted(read_registration(alloc, text.as_str().as_bytes()))
}
