//! The document of a pool.

ghost use Rattle.std.specs.Prelude.{IfOk, IfErr, IsTrue, option_copied};
ghost use Rattle.serde_json.specs.View.{view};
ghost use Rattle.ns_types.specs.State.Limits.{is_text};
ghost use Rattle.ns_json.specs.Reading.{Gives, same, body_in, IsOfDocument};
ghost use Rattle.ns_documents.specs.Members.{IsPoolNamedWell};
ghost use Rattle.ns_documents.specs.Records.{pool_in};

use crate::members::{description, named};
use ns_json::member::{document, read_json};
use ns_types::name::NameKind;
use ns_types::records::Pool;
use ns_types::refusal::{Member, Refusal};
use ns_types::text::Text;
use serde_json::Value;
use std::alloc::Global;

#[derive(Drop)]
pub struct NamedPool {
    pub name: Text,
    pub pool: Pool,
}

#[tactic(auto, unfolding(crate::specs::Records::pool_in))]
fn pool(alloc: Global, path_name: Option<&Text>, value: &Value) -> Result<NamedPool, Refusal>
    ensures { Gives same result (pool_in (option_copied path_name.entry) (view value.now)) }
{
    let top = document(value)?;
    let name = named(alloc, NameKind::Pool, path_name, top)?;
    if name.as_str() == "all" {
        return Err(Refusal::BadField(Member::Name));
    }
    let description = description(alloc, top)?;
    Ok(NamedPool {
        name,
        pool: Pool { description },
    })
}

/// The pool that the body describes, or the first refusal. Its name is the path's, if the path has one.
#[tactic(auto, unfolding(ns_json::specs::Reading::body_in))]
pub fn read_pool(alloc: Global, path_name: Option<&Text>, body: &[u8]) -> Result<NamedPool, Refusal>
    ensures value { Gives same result
        (body_in (pool_in (option_copied path_name.entry)) body.now) }
    // What is read is within the limits, and so is the name if the path's is.
    ensures good { IfOk result (λ d. IsTrue (is_text d.pool.description)) }
    ensures name { IfOk result (λ d.
        IsPoolNamedWell (option_copied path_name.entry) d.name) }
    // What the refusal can be.
    ensures kinds { IfErr result IsOfDocument }
{
    pool(alloc, path_name, &read_json(alloc, body)?)
}
