//! Copies of the tables.

ghost use Rattle.std.specs.Prelude.{◌≡◌, IfOk, filter};
ghost use Rattle.std.specs.FinMap.{retain_keys};
ghost use Rattle.ns_types.specs.Isolation.{alone_in, part_of};
ghost use Rattle.ns_types.specs.Validity.{IsSound};
ghost use Rattle.ns_copies.specs.Chosen.{chosen_part, is_chosen};
ghost use Rattle.ns_copies.specs.Copied.{seen_rows};
ghost use Rattle.ns_tables.specs.World.{pool_of, quota_of, tenant_of, world_of};

use crate::choosing::ChosenNames;
use crate::lists::copied_keys;
use crate::tables::copied_names;
use keyed::{KeyQueue, NameTable, OwnerTable};
use ns_tables::{PoolRows, QuotaRows, Tables, TenantRows};
use ns_types::text::Text;
use std::alloc::{AllocError, Global};

/// The three ordered lists.
#[derive(Drop)]
struct OrderedLists {
    ready: KeyQueue,
    plans: KeyQueue,
    blocked: KeyQueue,
}

/// The owners, by name.
#[derive(Drop)]
struct Owners {
    tenants: OwnerTable<TenantRows>,
    pools: OwnerTable<PoolRows>,
    quotas: NameTable<QuotaRows>,
}

fn copied_lists(
    alloc: Global,
    tables: &Tables,
    spaces: ChosenNames<'_>,
) -> Result<OrderedLists, AllocError>
    ensures ready { IfOk result (λ lists. lists.ready.items
        ≡ filter (λ key. is_chosen spaces.entry key.0) tables.now.ready.items) }
    ensures plans { IfOk result (λ lists. lists.plans.items
        ≡ filter (λ key. is_chosen spaces.entry key.0) tables.now.plans.items) }
    ensures blocked { IfOk result (λ lists. lists.blocked.items
        ≡ filter (λ key. is_chosen spaces.entry key.0) tables.now.blocked.items) }
{
    Ok(OrderedLists {
        ready: copied_keys(alloc, &tables.ready, spaces)?,
        plans: copied_keys(alloc, &tables.plans, spaces)?,
        blocked: copied_keys(alloc, &tables.blocked, spaces)?,
    })
}

fn copied_owners(
    alloc: Global,
    tables: &Tables,
    spaces: ChosenNames<'_>,
    pools: ChosenNames<'_>,
    quotas: ChosenNames<'_>,
) -> Result<Owners, AllocError>
    requires { IsSound (world_of tables.now) }
    ensures tenants { IfOk result (λ owners. seen_rows tenant_of owners.tenants
        ≡ retain_keys (seen_rows tenant_of tables.now.tenants) (is_chosen spaces.entry)) }
    ensures pools { IfOk result (λ owners. seen_rows pool_of owners.pools
        ≡ retain_keys (seen_rows pool_of tables.now.pools) (is_chosen pools.entry)) }
    ensures quotas { IfOk result (λ owners. seen_rows quota_of owners.quotas
        ≡ retain_keys (seen_rows quota_of tables.now.quotas) (is_chosen quotas.entry)) }
{
    Ok(Owners {
        quotas: copied_names(alloc, &tables.quotas, quotas)?,
        pools: OwnerTable::from_table(copied_names(alloc, tables.pools.as_table(), pools)?),
        tenants: OwnerTable::from_table(copied_names(alloc, tables.tenants.as_table(), spaces)?),
    })
}

/// A copy of the rows and list entries of the chosen owners. Want of memory is the only error.
fn copied(
    alloc: Global,
    tables: &Tables,
    spaces: ChosenNames<'_>,
    pools: ChosenNames<'_>,
    quotas: ChosenNames<'_>,
) -> Result<Tables, AllocError>
    requires { IsSound (world_of tables.now) }
    ensures { let part = chosen_part spaces.entry pools.entry quotas.entry in
        IfOk result (λ copy. world_of copy ≡ alone_in part (world_of tables.now)) }
{
    let lists = copied_lists(alloc, tables, spaces)?;
    match copied_owners(alloc, tables, spaces, pools, quotas) {
        Ok(owners) => Ok(Tables {
            alloc,
            tenants: owners.tenants,
            pools: owners.pools,
            quotas: owners.quotas,
            ready: lists.ready,
            plans: lists.plans,
            blocked: lists.blocked,
        }),
        Err(error) => {
            drop(lists);
            Err(error)
        }
    }
}

/// A copy of all tables. Want of memory is the only error.
pub fn copy(alloc: Global, tables: &Tables) -> Result<Tables, AllocError>
    requires { IsSound (world_of tables.now) }
    ensures { IfOk result (λ copy. world_of copy ≡ world_of tables.now) }
{
    copied(
        alloc,
        tables,
        ChosenNames::All,
        ChosenNames::All,
        ChosenNames::All,
    )
}

/// A copy of what the namespace has, with these pools and these quotas: their rows, and its entries in the lists. Want of
/// memory is the only error.
pub fn alone(
    alloc: Global,
    tables: &Tables,
    namespace: &Text,
    pools: &[Text],
    quotas: &[Text],
) -> Result<Tables, AllocError>
    requires { IsSound (world_of tables.now) }
    ensures { let part = part_of namespace.now pools.now quotas.now in
        IfOk result (λ copy. world_of copy ≡ alone_in part (world_of tables.now)) }
{
    copied(
        alloc,
        tables,
        ChosenNames::Only(namespace),
        ChosenNames::Among(pools),
        ChosenNames::Among(quotas),
    )
}
