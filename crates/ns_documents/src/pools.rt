//! Reads which pools a namespace may use.

ghost use Rattle.std.specs.Prelude.{[], None};
ghost use Rattle.serde_json.specs.View.{view};
ghost use Rattle.ns_types.specs.State.Names.{default_name};
ghost use Rattle.ns_json.specs.Reading.{Gives, same, or_else, some, present};
ghost use Rattle.ns_documents.specs.Records.{default_pool_in, pools_in, configuration_in, every_pool};

use crate::members::{has_name, names};
use ns_json::member::{name_if_any, object, present};
use ns_types::name::NameKind;
use ns_types::refusal::{Member, Refusal};
use ns_types::rows::Rows;
use ns_types::text::Text;
use serde_json::Value;
use std::alloc::Global;

/// The pool of a job that names none, and the lists of allowed and of denied pools.
#[derive(Drop)]
pub struct PoolConfiguration {
    pub default_pool: Text,
    pub allowed: Option<Rows<Text>>,
    pub denied: Rows<Text>,
}

fn default_name(alloc: Global) -> Result<Text, Refusal>
    ensures { Gives same result (Ok default_name) }
{
    Ok(Text::from_str(alloc, "default")?)
}

#[tactic(auto, unfolding(crate::specs::Records::default_pool_in))]
fn default_pool(alloc: Global, value: &Value) -> Result<Text, Refusal>
    ensures { Gives same result (default_pool_in (view value.now)) }
{
    match name_if_any(alloc, value, Member::Default, NameKind::Pool)? {
        None => default_name(alloc),
        Some(pool) if pool.as_str() == "all" => Err(Refusal::BadField(Member::Default)),
        Some(pool) => Ok(pool),
    }
}

fn default_pool_or_default(alloc: Global, configuration: &Value) -> Result<Text, Refusal>
    ensures { Gives same result
        (or_else default_name default_pool_in
        (present Member.Default (view configuration.now))) }
{
    match present(configuration, Member::Default) {
        None => default_name(alloc),
        Some(value) => default_pool(alloc, value),
    }
}

/// The value, which has to be a list of pools, none of them `all`.
#[tactic(auto, unfolding(crate::specs::Records::pools_in))]
fn pools(alloc: Global, value: &Value, member: Member) -> Result<Rows<Text>, Refusal>
    ensures { Gives same result (pools_in member (view value.now)) }
{
    let pools = names(alloc, value, member, NameKind::Pool, 1000)?;
    if has_name(pools.as_slice(), "all") {
        return Err(Refusal::BadField(member));
    }
    Ok(pools)
}

fn allowed_if_any(alloc: Global, configuration: &Value) -> Result<Option<Rows<Text>>, Refusal>
    ensures { Gives same result
        (or_else None (λ a. some (pools_in Member.Allowed a))
        (present Member.Allowed (view configuration.now))) }
{
    match present(configuration, Member::Allowed) {
        None => Ok(None),
        Some(value) => {
            let pools = pools(alloc, value, Member::Allowed)?;
            Ok(Some(pools))
        }
    }
}

fn denied_or_none(alloc: Global, configuration: &Value) -> Result<Rows<Text>, Refusal>
    ensures { Gives same result
        (or_else [] (pools_in Member.Denied)
        (present Member.Denied (view configuration.now))) }
{
    match present(configuration, Member::Denied) {
        None => Ok(Rows::new(alloc)),
        Some(value) => pools(alloc, value, Member::Denied),
    }
}

#[tactic(auto, unfolding(crate::specs::Records::configuration_in))]
fn configuration(alloc: Global, value: &Value) -> Result<PoolConfiguration, Refusal>
    ensures { Gives same result (configuration_in (view value.now)) }
{
    let configuration = object(value, Member::NodePoolConfiguration)?;
    let default_pool = default_pool_or_default(alloc, configuration)?;
    let allowed = allowed_if_any(alloc, configuration)?;
    let denied = denied_or_none(alloc, configuration)?;
    if (allowed.is_some() && !denied.as_slice().is_empty())
        || has_name(denied.as_slice(), default_pool.as_str())
    {
        return Err(Refusal::BadField(Member::Denied));
    }
    Ok(PoolConfiguration {
        default_pool,
        allowed,
        denied,
    })
}

/// The pools that a document permits; all pools if it has no such member.
pub fn configuration_or_every_pool(
    alloc: Global,
    document: &Value,
) -> Result<PoolConfiguration, Refusal>
    ensures { Gives same result
        (or_else every_pool configuration_in
        (present Member.NodePoolConfiguration (view document.now))) }
{
    match present(document, Member::NodePoolConfiguration) {
        None => Ok(PoolConfiguration {
            default_pool: default_name(alloc)?,
            allowed: None,
            denied: Rows::new(alloc),
        }),
        Some(value) => configuration(alloc, value),
    }
}
