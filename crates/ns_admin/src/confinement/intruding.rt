//! Whether a namespace intrudes on pools and quotas that another one is to have to itself.

ghost use Rattle.std.specs.Prelude.{◌≡◌, not, ◌&&◌, true, false};
ghost use Rattle.std.specs.List.{list_all, list_any};
ghost use Rattle.std.specs.Option.{option_map_or};
ghost use Rattle.keyed.specs.Table.{at_slot};
ghost use Rattle.ns_types.specs.Access.Sharing.{intrudes, names_within};
ghost use Rattle.ns_admin.specs.Straying.{other_intrudes};
ghost use Rattle.ns_types.specs.Access.Sharing.{permits};
ghost use Rattle.ns_types.specs.State.Names.{has_name, same_name};
ghost use Rattle.ns_types.specs.State.Tables.{any_row};
ghost use Rattle.ns_tables.specs.World.{world_of};

use crate::permits;
use keyed::NameSlot;
use ns_equality::{has_name, same_text};
use ns_tables::{Tables, TenantRows};
use ns_types::records::Namespace;
use ns_types::text::Text;

fn permits_any(namespace: &Namespace, pools: &[Text]) -> bool
    ensures { result ≡ list_any (permits namespace.now) pools.now }
{
    pools.iter().any(|pool| permits(namespace, pool))
}

fn has_all(names: &[Text], wanted: &[Text]) -> bool
    ensures { result ≡ list_all (has_name names.now) wanted.now }
{
    wanted.iter().all(|name| has_name(names, name))
}

/// Whether the namespace names one of the quotas.
fn names_any(namespace: &Namespace, quotas: &[Text]) -> bool
    ensures { result ≡ option_map_or (has_name quotas.now) namespace.now.quota false }
{
    match &namespace.quota {
        Some(quota) => has_name(quotas, quota),
        None => false,
    }
}

/// Whether its quota, if it names one, is in the list.
fn quota_within(namespace: &Namespace, quotas: &[Text]) -> bool
    ensures { result ≡ option_map_or (has_name quotas.now) namespace.now.quota true }
{
    match &namespace.quota {
        Some(quota) => has_name(quotas, quota),
        None => true,
    }
}

/// Whether the pools of its list, if it has one, are in the list.
fn allowed_within(namespace: &Namespace, pools: &[Text]) -> bool
    ensures { result ≡ option_map_or (list_all (has_name pools.now)) namespace.now.allowed true }
{
    match &namespace.allowed {
        Some(allowed) => has_all(pools, allowed.as_slice()),
        None => true,
    }
}

/// Whether all pools and quotas that the record names are in the lists.
pub fn names_within(namespace: &Namespace, pools: &[Text], quotas: &[Text]) -> bool
    ensures { result ≡ names_within (has_name pools.now) (has_name quotas.now) namespace.now }
{
    has_name(pools, &namespace.default_pool)
        && allowed_within(namespace, pools)
        && quota_within(namespace, quotas)
}

/// Whether the other namespace permits one of the pools or has it as its default, or names one of the quotas.
fn intrudes(other: &Namespace, pools: &[Text], quotas: &[Text]) -> bool
    ensures { result ≡ intrudes pools.now quotas.now other.now }
{
    permits_any(other, pools) || has_name(pools, &other.default_pool) || names_any(other, quotas)
}

fn other_intrudes(
    slot: &NameSlot<TenantRows>,
    namespace: &Text,
    pools: &[Text],
    quotas: &[Text],
) -> bool
    ensures { result ≡ at_slot (other_intrudes namespace.now pools.now quotas.now) slot.now }
{
    match &slot.1 {
        Some(other) => {
            !same_text(&slot.0, namespace) && intrudes(&other.namespace, pools, quotas)
        }
        None => false,
    }
}

fn some_intrudes(
    slots: &[NameSlot<TenantRows>],
    namespace: &Text,
    pools: &[Text],
    quotas: &[Text],
) -> bool
    ensures { result ≡ list_any (at_slot (other_intrudes namespace.now pools.now quotas.now)) slots.now }
{
    slots
        .iter()
        .any(|slot| other_intrudes(slot, namespace, pools, quotas))
}

/// Whether some other namespace intrudes on these pools and quotas.
pub(crate) fn any_intrudes(
    tables: &Tables,
    namespace: &Text,
    pools: &[Text],
    quotas: &[Text],
) -> bool
    ensures { let w = world_of tables.now in
        result ≡ any_row (λ name other. not (same_name name namespace.now)
        && intrudes pools.now quotas.now other.namespace) w.tenants }
{
    some_intrudes(tables.tenants.as_slice(), namespace, pools, quotas)
}
