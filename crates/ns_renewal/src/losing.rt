//! The jobs that lose allocations by preemption, each with the least number of its victims.

ghost use Rattle.std.specs.Prelude.{◌≡◌, ◌∷◌, [], IfOk, OnOk, map, option_map};
ghost use Rattle.std.specs.Option.{option_and_then, option_copied};
ghost use Rattle.ns_types.specs.Working.Commit.{victim_at};
ghost use Rattle.ns_renewal.specs.Losing.{keys_left, losing_keys, victims_at};
ghost use Rattle.ns_renewal.specs.Losses.{Lowers, Takes, job_key, number_at};
ghost use Rattle.ns_tables.specs.World.{world_of};

use crate::losses::Losses;
use ns_tables::Tables;
use ns_types::allocation::Allocation;
use ns_types::key::EvalKey;
use ns_types::plan::Eviction;
use ns_types::rows::Rows;
use std::alloc::AllocError;

/// The eviction's allocation as it was before the step, if it is there.
pub(crate) fn allocation<'a>(tables: &'a Tables, eviction: &Eviction) -> Option<&'a Allocation>
    ensures { option_map (λ a. (eviction.now.namespace, (eviction.now.number, a)))
        (option_copied result) ≡ victim_at (world_of tables.now) eviction.now }
{
    let Some(tenant) = tables.tenants.get(&eviction.namespace) else {
        return None;
    };
    tenant.allocations.get(eviction.number)
}

/// Lowers the number of the allocation's job to the allocation's number, if the job has none yet or a greater one.
fn lower(tables: &Tables, losses: &mut Losses, eviction: &Eviction) -> Result<(), AllocError>
    ensures { OnOk result (Lowers (victims_at (world_of tables.now) (eviction.now ∷ []))
        losses.old losses.new) }
{
    let Some(row) = allocation(tables, eviction) else {
        return Ok(());
    };
    losses.lower(&eviction.namespace, &row.job, eviction.number)
}

fn lower_each(
    tables: &Tables,
    losses: &mut Losses,
    evictions: &[&Eviction],
) -> Result<(), AllocError>
    ensures { OnOk result (Lowers (victims_at (world_of tables.now)
        (map (λ e. e.now) evictions.now)) losses.old losses.new) }
{
    for eviction in evictions {
        lower(tables, losses, eviction)?;
    }
    Ok(())
}

/// Takes out the number of the job of the eviction's allocation, and returns the key with that number. None: the job has no
/// number, or the allocation is not there.
fn take(
    tables: &Tables,
    losses: &mut Losses,
    eviction: &Eviction,
) -> Result<Option<EvalKey>, AllocError>
    ensures key { IfOk result (λ key. key
        ≡ option_and_then (job_key losses.old) (victim_at (world_of tables.now) eviction.now)) }
    ensures others { OnOk result (Takes (victim_at (world_of tables.now) eviction.now)
        losses.old losses.new) }
{
    let Some(row) = allocation(tables, eviction) else {
        return Ok(None);
    };
    match losses.take(&eviction.namespace, &row.job) {
        Some(number) => Ok(Some(EvalKey::new(eviction.namespace.clone()?, number))),
        None => Ok(None),
    }
}

/// The key of each job's number, in the order of the jobs' first victims. The jobs are those of the evictions' allocations. A
/// job without a number has no key.
fn take_each(
    tables: &Tables,
    losses: &mut Losses,
    evictions: &[&Eviction],
) -> Result<Rows<EvalKey>, AllocError>
    ensures { IfOk result (λ keys. keys ≡ keys_left (number_at losses.old)
        (victims_at (world_of tables.now) (map (λ e. e.now) evictions.now))) }
{
    let mut keys = Rows::new(tables.alloc);
    for victim in evictions {
        if let Some(key) = take(tables, losses, victim)? {
            keys.push(key)?;
        }
    }
    Ok(keys)
}

/// For each job that loses an allocation, the key of its victim with the least number, in the order of the jobs' first
/// victims.
pub(crate) fn losing_keys(
    tables: &Tables,
    evictions: &[&Eviction],
) -> Result<Rows<EvalKey>, AllocError>
    ensures { IfOk result (λ keys. keys ≡ losing_keys (victims_at (world_of tables.now)
        (map (λ e. e.now) evictions.now))) }
{
    let mut losses = Losses::new(tables.alloc);
    lower_each(tables, &mut losses, evictions)?;
    take_each(tables, &mut losses, evictions)
}
