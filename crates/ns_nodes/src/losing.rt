//! The jobs that lose an allocation with a node, and whether their namespaces have numbers for an evaluation of each.

ghost use Rattle.std.specs.Prelude.{◌≡◌, ◌&&◌, ◌++◌, not, flat_map, fold, map, IfOk, OnOk, None, Some};
ghost use Rattle.std.specs.FinMap.{empty};
ghost use Rattle.std.specs.List.{list_any};
ghost use Rattle.ns_types.specs.State.Names.{same_name};
ghost use Rattle.ns_types.specs.State.Rows.{is_live_on};
ghost use Rattle.ns_live_index.specs.Index.{IsRight};
ghost use Rattle.ns_nodes.specs.Losing.{is_last_of_job, is_losing, key_at, losing_keys, losing_keys_at};
ghost use Rattle.ns_nodes.specs.Losing.{looked, numbers_pass_at, with_losing};
ghost use Rattle.ns_tables.specs.World.{tenant_of, world_of};

use keyed::{NameSlot, NameTable, NumberSlot, NumberTable};
use ns_change::is_live_on;
use ns_equality::same_text;
use ns_live_index::Live;
use ns_tables::{Tables, TenantRows};
use ns_types::allocation::Allocation;
use ns_types::key::EvalKey;
use ns_types::rows::Rows;
use ns_types::text::Text;
use std::alloc::{AllocError, Global};

// ---- numbers

/// Whether the allocation is of the job, and live on the node.
fn is_of_job(pool: &Text, node: &Text, job: &Text, row: &Allocation) -> bool
    ensures { result ≡ (same_name job.now row.now.job && is_live_on pool.now node.now row.now) }
{
    same_text(job, &row.job) && is_live_on(pool, node, row)
}

/// Whether the allocation at the number is of the job, and live on the node.
fn is_losing(
    pool: &Text,
    node: &Text,
    job: &Text,
    tenant: &TenantRows,
    slot: &NumberSlot<()>,
) -> bool
    ensures { result
        ≡ is_losing pool.now node.now job.now (looked (tenant_of tenant.now) slot.now) }
{
    match tenant.allocations.get(slot.0) {
        Some(row) => is_of_job(pool, node, job, row),
        None => false,
    }
}

fn any_is_losing(
    pool: &Text,
    node: &Text,
    job: &Text,
    tenant: &TenantRows,
    slots: &[NumberSlot<()>],
) -> bool
    ensures { let t = tenant_of tenant.now in
        result ≡ list_any (λ slot. is_losing pool.now node.now job.now (looked t slot)) slots.now }
{
    slots
        .iter()
        .any(|slot| is_losing(pool, node, job, tenant, slot))
}

/// Whether the allocation is live on the node, and no later one that is live there is of its job.
fn is_last(
    pool: &Text,
    node: &Text,
    tenant: &TenantRows,
    row: &Allocation,
    later: &[NumberSlot<()>],
) -> bool
    ensures { let t = tenant_of tenant.now in
        let is_of = is_losing pool.now node.now row.now.job in
        result ≡ (is_live_on pool.now node.now row.now
        && not (list_any (λ slot. is_of (looked t slot)) later.now)) }
{
    is_live_on(pool, node, row) && !any_is_losing(pool, node, &row.job, tenant, later)
}

/// Whether the allocation at the number is live on the node, and no later one that is live there is of its job.
fn is_last_of_job(
    pool: &Text,
    node: &Text,
    tenant: &TenantRows,
    slot: &NumberSlot<()>,
    later: &[NumberSlot<()>],
) -> bool
    ensures { let t = tenant_of tenant.now in
        result ≡ is_last_of_job pool.now node.now (looked t slot.now) (map (looked t) later.now) }
{
    match tenant.allocations.get(slot.0) {
        Some(row) => is_last(pool, node, tenant, row, later),
        None => false,
    }
}

/// Whether the namespace has too few numbers for an evaluation of each of the jobs that lose an allocation, given the numbers
/// of its live allocations on the node. It takes no memory.
pub(crate) fn numbers_pass_at(
    pool: &Text,
    node: &Text,
    tenant: &TenantRows,
    slots: &[NumberSlot<()>],
) -> bool
    ensures { result ≡ numbers_pass_at pool.now node.now (tenant_of tenant.now) slots.now }
{
    let mut number = tenant.evaluation_number;
    let mut rest = slots;
    while let Some((slot, later)) = rest.split_first() {
        if is_last_of_job(pool, node, tenant, slot, later) {
            if number == u64::MAX {
                return true;
            }
            number += 1;
        }
        rest = later;
    }
    false
}

// ---- keys

/// Puts the number of an allocation under its job, if the allocation is live on the node and the job has no number yet.
fn put_losing(
    losing: &mut NameTable<u64>,
    pool: &Text,
    node: &Text,
    number: u64,
    row: &Allocation,
) -> Result<(), AllocError>
    ensures { OnOk result (losing.new
        ≡ with_losing pool.now node.now losing.old (number, Some row.now)) }
{
    if is_live_on(pool, node, row) && !losing.has_slot(&row.job) {
        losing.reserve(&row.job)?;
        losing.set(&row.job, number);
    }
    Ok(())
}

/// Puts the slot's number under the job of its allocation, if that is live on the node and the job has no number yet.
fn put_losing_at(
    losing: &mut NameTable<u64>,
    pool: &Text,
    node: &Text,
    tenant: &TenantRows,
    slot: &NumberSlot<()>,
) -> Result<(), AllocError>
    ensures { let row = looked (tenant_of tenant.now) slot.now in
        OnOk result (losing.new ≡ with_losing pool.now node.now losing.old row) }
{
    match tenant.allocations.get(slot.0) {
        Some(row) => put_losing(losing, pool, node, slot.0, row),
        None => Ok(()),
    }
}

/// For each job the number of its first allocation that is live on the node, given the numbers of the live allocations on it.
fn losing_numbers(
    alloc: Global,
    pool: &Text,
    node: &Text,
    tenant: &TenantRows,
    slots: &[NumberSlot<()>],
) -> Result<NameTable<u64>, AllocError>
    ensures { let rows = map (looked (tenant_of tenant.now)) slots.now in
        IfOk result (λ losing. losing ≡ fold (with_losing pool.now node.now) empty rows) }
{
    let mut losing = NameTable::new(alloc);
    for slot in slots {
        put_losing_at(&mut losing, pool, node, tenant, slot)?;
    }
    Ok(losing)
}

fn add_key(
    keys: &mut Rows<EvalKey>,
    namespace: &Text,
    slot: &NameSlot<u64>,
) -> Result<(), AllocError>
    ensures { OnOk result (keys.new ≡ keys.old ++ key_at namespace.now slot.now) }
{
    if let Some(number) = &slot.1 {
        keys.push(EvalKey::new(namespace.clone()?, *number))?;
    }
    Ok(())
}

fn add_keys(
    keys: &mut Rows<EvalKey>,
    namespace: &Text,
    slots: &[NameSlot<u64>],
) -> Result<(), AllocError>
    ensures { OnOk result (keys.new ≡ keys.old ++ flat_map (key_at namespace.now) slots.now) }
{
    for slot in slots {
        add_key(keys, namespace, slot)?;
    }
    Ok(())
}

fn add_keys_at(
    keys: &mut Rows<EvalKey>,
    tables: &Tables,
    pool: &Text,
    node: &Text,
    slot: &NameSlot<NumberTable<()>>,
) -> Result<(), AllocError>
    ensures { OnOk result (keys.new
        ≡ keys.old ++ losing_keys_at (world_of tables.now) pool.now node.now slot.now) }
{
    let Some(numbers) = &slot.1 else {
        return Ok(());
    };
    let Some(tenant) = tables.tenants.get(&slot.0) else {
        return Ok(());
    };
    let losing = losing_numbers(tables.alloc, pool, node, tenant, numbers.as_slice())?;
    add_keys(keys, &slot.0, losing.as_slice())
}

fn add_all_keys(
    keys: &mut Rows<EvalKey>,
    tables: &Tables,
    pool: &Text,
    node: &Text,
    slots: &[NameSlot<NumberTable<()>>],
) -> Result<(), AllocError>
    ensures { OnOk result (keys.new ≡ keys.old
        ++ flat_map (losing_keys_at (world_of tables.now) pool.now node.now) slots.now) }
{
    for slot in slots {
        add_keys_at(keys, tables, pool, node, slot)?;
    }
    Ok(())
}

/// For each job that has live allocations on the node, the key of the one with the least number, by namespace, then job id.
/// Its work grows only with the number of live allocations on the node.
pub(crate) fn losing_keys(
    tables: &Tables,
    live: &Live,
    pool: &Text,
    node: &Text,
) -> Result<Rows<EvalKey>, AllocError>
    requires { IsRight (world_of tables.now) live.now }
    ensures { IfOk result (λ keys. keys ≡ losing_keys pool.now node.now (world_of tables.now)) }
{
    let mut keys = Rows::new(tables.alloc);
    let Some(held) = live.keys_on(pool, node) else {
        return Ok(keys);
    };
    add_all_keys(&mut keys, tables, pool, node, held.as_slice())?;
    Ok(keys)
}
