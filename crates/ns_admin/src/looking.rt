//! Look-ups by name, by which commands are decided.

ghost use Rattle.std.specs.Prelude.{◌≡◌};
ghost use Rattle.std.specs.FinMap.{contains_key};
ghost use Rattle.std.specs.List.{list_any};
ghost use Rattle.keyed.specs.Table.{at_slot, rows};
ghost use Rattle.ns_types.specs.Access.Sharing.{shares};
ghost use Rattle.ns_types.specs.Asking.Admins.{is_full};
ghost use Rattle.ns_types.specs.State.Names.{default_name, same_name};
ghost use Rattle.ns_admin.specs.Viewed.{is_confined_in, overlaps_other, permits_in};
ghost use Rattle.ns_tables.specs.World.{world_of};

use crate::sharing::{is_confined, overlaps, permits};
use keyed::{NameSlot, NameTable};
use ns_equality::same_text;
use ns_tables::{Tables, TenantRows};
use ns_types::records::Namespace;
use ns_types::text::Text;

/// The name of the namespace and of the pool that are there from the start.
pub(crate) const DEFAULT: &str = "default";

/// The greatest number of namespaces, of pools and of quotas.
const MOST_ROWS: usize = 10000;

/// Whether the name is `default`: what has this name is there from the start and is not deleted.
#[tactic(auto, using(ns_types::proofs::Named::text_ties))]
pub(crate) fn is_default(name: &Text) -> bool
    ensures { result ≡ same_name name.now default_name }
{
    name.as_str() == DEFAULT
}

/// Whether the table has no room for a new row of that name.
pub fn is_full<V: Drop>(table: &NameTable<V>, name: &Text) -> bool
    ensures { result ≡ is_full (rows table.now) name.now }
{
    match table.get(name) {
        Some(_) => false,
        None => table.len() >= MOST_ROWS,
    }
}

pub(crate) fn has_pool(tables: &Tables, name: &Text) -> bool
    ensures { result ≡ contains_key (world_of tables.now).pools name.now }
{
    match tables.pools.get(name) {
        Some(_) => true,
        None => false,
    }
}

/// Whether the namespace may use the pool, which need not exist. A namespace that is not there may use none.
pub fn permits_in(tables: &Tables, name: &Text, pool: &Text) -> bool
    ensures { result ≡ permits_in name.now pool.now (world_of tables.now) }
{
    match tables.tenants.get(name) {
        Some(tenant) => permits(&tenant.namespace, pool),
        None => false,
    }
}

/// Whether the namespace has a list of the pools that it may use. One that is not there has none.
pub fn is_confined_in(tables: &Tables, name: &Text) -> bool
    ensures { result ≡ is_confined_in name.now (world_of tables.now) }
{
    match tables.tenants.get(name) {
        Some(tenant) => is_confined(&tenant.namespace),
        None => false,
    }
}

fn overlaps_slot(slot: &NameSlot<TenantRows>, name: &Text, namespace: &Namespace) -> bool
    ensures { result ≡ at_slot (overlaps_other name.now namespace.now) slot.now }
{
    match &slot.1 {
        Some(other) => !same_text(&slot.0, name) && overlaps(namespace, &other.namespace),
        None => false,
    }
}

fn overlaps_any(slots: &[NameSlot<TenantRows>], name: &Text, namespace: &Namespace) -> bool
    ensures { result ≡ list_any (at_slot (overlaps_other name.now namespace.now)) slots.now }
{
    slots
        .iter()
        .any(|slot| overlaps_slot(slot, name, namespace))
}

/// Whether others may use a pool or the quota of the namespace: the namespace is not there, is not confined, or overlaps
/// another one.
pub fn shares(tables: &Tables, name: &Text) -> bool
    ensures { result ≡ shares (world_of tables.now) name.now }
{
    let Some(tenant) = tables.tenants.get(name) else {
        return true;
    };
    !is_confined(&tenant.namespace)
        || overlaps_any(tables.tenants.as_slice(), name, &tenant.namespace)
}
