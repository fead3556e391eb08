//! The pools and the quotas that a namespace has in the base.

ghost use Rattle.std.specs.Prelude.{◌≡◌, [], ◌∷◌, IfOk};
ghost use Rattle.std.specs.Option.{option_map_or};
ghost use Rattle.ns_types.specs.Access.Sharing.{namespace_at, pools_of};
ghost use Rattle.ns_pipe.specs.Claimed.{quotas_of};

use ns_core::Core;
use ns_types::records::Namespace;
use ns_types::rows::Rows;
use ns_types::text::Text;
use std::alloc::{AllocError, Global};

/// Pools and quotas.
#[derive(Drop)]
pub(crate) struct Claimed {
    pub(crate) pools: Rows<Text>,
    pub(crate) quotas: Rows<Text>,
}

/// The pool, and behind it those of the list. Want of memory is the only error.
fn listed(alloc: Global, first: &Text, others: &[Text]) -> Result<Rows<Text>, AllocError>
    ensures { IfOk result (λ names. names ≡ first.now ∷ others.now) }
{
    let mut names = Rows::new(alloc);
    names.push(first.clone()?)?;
    for other in others {
        names.push(other.clone()?)?;
    }
    Ok(names)
}

/// The default pool and those of the list, if there is a list. Want of memory is the only error.
fn pools_of(alloc: Global, namespace: &Namespace) -> Result<Rows<Text>, AllocError>
    ensures { IfOk result (λ pools. pools ≡ pools_of namespace.now) }
{
    match &namespace.allowed {
        Some(allowed) => listed(alloc, &namespace.default_pool, allowed.as_slice()),
        None => Ok(Rows::new(alloc)),
    }
}

/// The quota, if there is one. Want of memory is the only error.
fn quotas_of(alloc: Global, namespace: &Namespace) -> Result<Rows<Text>, AllocError>
    ensures { IfOk result (λ quotas. quotas ≡ quotas_of namespace.now) }
{
    let mut quotas = Rows::new(alloc);
    if let Some(quota) = &namespace.quota {
        quotas.push(quota.clone()?)?;
    }
    Ok(quotas)
}

/// The pools to which the namespace is confined in the base, and its quota there. A namespace that does not exist has none.
/// Want of memory is the only error.
pub(crate) fn claimed_in(
    alloc: Global,
    base: &Core,
    namespace: &Text,
) -> Result<Claimed, AllocError>
    ensures pools { IfOk result (λ claimed.
        claimed.pools ≡ option_map_or pools_of (namespace_at base.now.world namespace.now) []) }
    ensures quotas { IfOk result (λ claimed.
        claimed.quotas ≡ option_map_or quotas_of (namespace_at base.now.world namespace.now) []) }
{
    match base.namespace_at(namespace) {
        Some(record) => Ok(Claimed {
            pools: pools_of(alloc, record)?,
            quotas: quotas_of(alloc, record)?,
        }),
        None => Ok(Claimed {
            pools: Rows::new(alloc),
            quotas: Rows::new(alloc),
        }),
    }
}
