//! Decides which pools a namespace may use, whether it has its pools and its quotas to itself, and whether a put finds its table
//! full. Nothing here takes memory.

ghost use Rattle.std.specs.Prelude.{◌≡◌, option_copied};
ghost use Rattle.ns_types.specs.Isolation.{lacks_room};
ghost use Rattle.ns_types.specs.Access.Sharing.{has_pool, is_apart, namespace_at, stays_within, strays_from};
ghost use Rattle.ns_admin.specs.Straying.{stays_there};
ghost use Rattle.ns_tables.specs.World.{tenant_of, world_of};

mod intruding;
mod straying;

use crate::confinement::intruding::any_intrudes;
pub use crate::confinement::intruding::names_within;
use crate::confinement::straying::{
    has_allocation_astray, has_evaluation_astray, has_worker_astray,
};
use crate::{is_confined, is_full, permits_in};
use ns_tables::{Tables, TenantRows};
use ns_types::records::Namespace;
use ns_types::step::{AdminCommand, Step};
use ns_types::text::Text;

/// Whether the namespace is there and may use the pool, which need not exist.
pub fn permits(tables: &Tables, namespace: &Text, pool: &Text) -> bool
    ensures { result ≡ has_pool (world_of tables.now) namespace.now pool.now }
{
    permits_in(tables, namespace, pool)
}

/// The namespace's record, if it is there.
pub fn namespace_at<'a>(tables: &'a Tables, name: &Text) -> Option<&'a Namespace>
    ensures { option_copied result ≡ namespace_at (world_of tables.now) name.now }
{
    match tables.tenants.get(name) {
        Some(tenant) => Some(&tenant.namespace),
        None => None,
    }
}

/// Whether something of the namespace names a pool that is not in the list: an open evaluation, a kept snapshot, or an
/// allocation that the client has not ended, whatever its desired status.
pub fn strays(tenant: &TenantRows, pools: &[Text]) -> bool
    ensures { result ≡ strays_from pools.now (tenant_of tenant.now) }
{
    has_evaluation_astray(tenant, pools)
        || has_worker_astray(tenant, pools)
        || has_allocation_astray(tenant, pools)
}

/// Whether the namespace is confined to these pools, names no other quota, and has nothing in another pool.
fn stays_within(tenant: &TenantRows, pools: &[Text], quotas: &[Text]) -> bool
    ensures { result ≡ stays_within pools.now quotas.now (tenant_of tenant.now) }
{
    is_confined(&tenant.namespace)
        && names_within(&tenant.namespace, pools, quotas)
        && !strays(tenant, pools)
}

/// Whether the namespace, if it is there, stays within these pools and quotas.
fn stays_there(tables: &Tables, namespace: &Text, pools: &[Text], quotas: &[Text]) -> bool
    ensures { result ≡ stays_there pools.now quotas.now namespace.now (world_of tables.now) }
{
    match tables.tenants.get(namespace) {
        Some(tenant) => stays_within(tenant, pools, quotas),
        None => true,
    }
}

/// Whether the namespace has these pools and these quotas to itself: no other permits one of the pools, has it as its default or
/// names one of the quotas, and if the namespace is there, it is confined to them, names no other quota and has nothing elsewhere.
#[tactic(auto, unfolding(ns_types::specs::Access::Sharing::is_apart))]
pub fn apart(tables: &Tables, namespace: &Text, pools: &[Text], quotas: &[Text]) -> bool
    ensures { result ≡ is_apart (world_of tables.now) namespace.now pools.now quotas.now }
{
    !any_intrudes(tables, namespace, pools, quotas) && stays_there(tables, namespace, pools, quotas)
}

/// Whether the step puts a namespace, a quota or a pool of a new name, and the table is full.
pub fn lacks_room(tables: &Tables, step: &Step) -> bool
    ensures { result ≡ lacks_room step.now (world_of tables.now) }
{
    let Step::Admin(_, command) = step else {
        return false;
    };
    match command.get() {
        AdminCommand::PutNamespace(name, _) => is_full(tables.tenants.as_table(), name),
        AdminCommand::PutQuota(name, _) => is_full(&tables.quotas, name),
        AdminCommand::PutPool(name, _) => is_full(tables.pools.as_table(), name),
        _ => false,
    }
}
