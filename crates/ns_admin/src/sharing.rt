//! What a namespace's record permits, names and shares. Nothing here takes memory.

ghost use Rattle.std.specs.Prelude.{◌≡◌};
ghost use Rattle.std.specs.List.{list_any};
ghost use Rattle.ns_types.specs.Asking.Admins.{is_withdrawn, names_pool, same_quota};
ghost use Rattle.ns_types.specs.Access.Sharing.{is_confined, overlaps, permits, pools_of};
ghost use Rattle.ns_types.specs.State.Sums.{names_quota};
ghost use Rattle.ns_admin.specs.Viewed.{shares_quota};

use ns_equality::{has_name, same_text};
use ns_types::records::Namespace;
use ns_types::text::Text;

/// Whether the namespace may use the pool, which need not exist.
pub fn permits(namespace: &Namespace, pool: &Text) -> bool
    ensures { result ≡ permits namespace.now pool.now }
{
    match &namespace.allowed {
        Some(allowed) => {
            same_text(pool, &namespace.default_pool) || has_name(allowed.as_slice(), pool)
        }
        None => !has_name(namespace.denied.as_slice(), pool),
    }
}

/// Whether the namespace has a list of the pools that it may use.
pub fn is_confined(namespace: &Namespace) -> bool
    ensures { result ≡ is_confined namespace.now }
{
    namespace.allowed.is_some()
}

/// Whether the pool is permitted by the old record, and not by the new one.
pub(crate) fn is_withdrawn(old: &Namespace, new: &Namespace, pool: &Text) -> bool
    ensures { result ≡ is_withdrawn old.now new.now pool.now }
{
    permits(old, pool) && !permits(new, pool)
}

/// Whether both name the same quota, or neither names one.
pub fn same_quota(a: &Namespace, b: &Namespace) -> bool
    ensures { result ≡ same_quota a.now b.now }
{
    match (&a.quota, &b.quota) {
        (None, None) => true,
        (Some(quota), Some(other)) => same_text(quota, other),
        _ => false,
    }
}

/// Whether the namespace names the quota.
pub fn names_quota(quota: &Text, namespace: &Namespace) -> bool
    ensures { result ≡ names_quota quota.now namespace.now }
{
    match &namespace.quota {
        Some(named) => same_text(quota, named),
        None => false,
    }
}

/// Whether the pool is the namespace's default, or on its list of allowed pools.
pub(crate) fn names_pool(pool: &Text, namespace: &Namespace) -> bool
    ensures { result ≡ names_pool pool.now namespace.now }
{
    if same_text(pool, &namespace.default_pool) {
        return true;
    }
    match &namespace.allowed {
        Some(allowed) => has_name(allowed.as_slice(), pool),
        None => false,
    }
}

fn permits_any(namespace: &Namespace, pools: &[Text]) -> bool
    ensures { result ≡ list_any (permits namespace.now) pools.now }
{
    pools.iter().any(|pool| permits(namespace, pool))
}

/// Whether the other namespace may use a pool of this namespace, if this one is confined.
fn shares_pool(namespace: &Namespace, other: &Namespace) -> bool
    ensures { result ≡ list_any (permits other.now) (pools_of namespace.now) }
{
    match &namespace.allowed {
        Some(allowed) => {
            permits(other, &namespace.default_pool) || permits_any(other, allowed.as_slice())
        }
        None => false,
    }
}

fn shares_quota(namespace: &Namespace, other: &Namespace) -> bool
    ensures { result ≡ shares_quota namespace.now other.now }
{
    match &namespace.quota {
        Some(quota) => names_quota(quota, other),
        None => false,
    }
}

/// Whether the other namespace may use a pool of the confined namespace, or names its quota.
pub fn overlaps(namespace: &Namespace, other: &Namespace) -> bool
    ensures { result ≡ overlaps namespace.now other.now }
{
    shares_pool(namespace, other) || shares_quota(namespace, other)
}
