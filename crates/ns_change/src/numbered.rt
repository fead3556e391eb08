//! Rows of a namespace that have a number: evaluations, allocations and busy workers.

ghost use Rattle.std.specs.Prelude.{◌≡◌, ℕ, OnOk, option_copied};
ghost use Rattle.std.specs.FinMap.{FinMap, insert};
ghost use Rattle.std.specs.Ordering.{nat_cmp};
ghost use Rattle.keyed.specs.Over.{over};
ghost use Rattle.keyed.specs.Table.{rows};
ghost use Rattle.ns_types.specs.State.Names.{name_cmp};
ghost use Rattle.ns_types.specs.State.Rows.{Tenant};
ghost use Rattle.ns_types.specs.Working.Work.{with_worker};
ghost use Rattle.ns_change.specs.Changed.{DoesIn, changed_tenant, put_allocation, put_evaluation, row_in, view};
ghost use Rattle.ns_tables.specs.World.{tenant_of};

use crate::change::{Change, TenantChange};
use crate::editing::open;
use keyed::{NameTable, NumberTable};
use ns_tables::{Tables, TenantRows};
use ns_types::allocation::Allocation;
use ns_types::evaluation::Evaluation;
use ns_types::text::Text;
use ns_types::worker::Worker;
use std::alloc::AllocError;

/// A kind of row that a namespace has by number.
pub trait NumberedRow: Drop {
    /// A namespace's rows of that kind.
    ghost rows_of: { Tenant → FinMap nat_cmp Self };

    /// A namespace with the row under that number.
    ghost put_in: { ℕ → Self → Tenant → Tenant };

    /// The rows before the step.
    fn stored(tenant: &TenantRows) -> &NumberTable<Self>
        ensures { rows result.now ≡ rows_of (tenant_of tenant.now) };

    /// The rows that the step changes.
    fn changed(change: &TenantChange) -> &NumberTable<Self>
        ensures { (t : Tenant) → over (rows_of t) result.now
            ≡ rows_of (changed_tenant t change.now) };

    /// Puts the row into the namespace's change. Want of memory is the only error.
    fn put(self, changed: &mut TenantChange, number: u64) -> Result<(), AllocError>
        ensures { OnOk result ((t : Tenant) → changed_tenant t changed.new
            ≡ put_in number self (changed_tenant t changed.old)) };
}

impl NumberedRow for Evaluation {
    ghost rows_of = { λ t. t.evaluations };

    ghost put_in = { put_evaluation };

    fn stored(tenant: &TenantRows) -> &NumberTable<Evaluation> {
        tenant.evaluations.rows()
    }

    fn changed(change: &TenantChange) -> &NumberTable<Evaluation> {
        &change.evaluations
    }

    fn put(self, changed: &mut TenantChange, number: u64) -> Result<(), AllocError> {
        put_slot(&mut changed.evaluations, number, self)
    }
}

impl NumberedRow for Allocation {
    ghost rows_of = { λ t. t.allocations };

    ghost put_in = { put_allocation };

    fn stored(tenant: &TenantRows) -> &NumberTable<Allocation> {
        tenant.allocations.rows()
    }

    fn changed(change: &TenantChange) -> &NumberTable<Allocation> {
        &change.allocations
    }

    fn put(self, changed: &mut TenantChange, number: u64) -> Result<(), AllocError> {
        put_slot(&mut changed.allocations, number, self)
    }
}

impl NumberedRow for Worker {
    ghost rows_of = { λ t. t.workers };

    ghost put_in = { with_worker };

    fn stored(tenant: &TenantRows) -> &NumberTable<Worker> {
        &tenant.workers
    }

    fn changed(change: &TenantChange) -> &NumberTable<Worker> {
        &change.workers
    }

    fn put(self, changed: &mut TenantChange, number: u64) -> Result<(), AllocError> {
        put_slot(&mut changed.workers, number, self)
    }
}

/// The row after the change: looked up first in the change, then in the tables.
pub fn row<'a, R: NumberedRow>(
    tables: &'a Tables,
    change: &'a Change,
    namespace: &Text,
    number: u64,
) -> Option<&'a R>
    ensures { option_copied result
        ≡ row_in R.rows_of (view tables.now change.now) namespace.now number }
{
    let Some(tenant) = tables.tenants.get(namespace) else {
        return None;
    };
    match change.tenants.get(namespace) {
        Some(change) => R::stored(tenant).get_over(R::changed(change), number),
        None => R::stored(tenant).get(number),
    }
}

/// Puts a row into a table of changed rows.
fn put_slot<V: Drop>(changed: &mut NumberTable<V>, number: u64, row: V) -> Result<(), AllocError>
    ensures { OnOk result ((m : FinMap nat_cmp V) → over m changed.new
        ≡ insert (over m changed.old) number row) }
{
    changed.reserve(number)?;
    changed.set(number, row);
    Ok(())
}

/// Puts a row into a table of changed rows by name.
pub(crate) fn put_name<V: Drop>(
    changed: &mut NameTable<V>,
    name: &Text,
    row: V,
) -> Result<(), AllocError>
    ensures { OnOk result ((m : FinMap name_cmp V) → over m changed.new
        ≡ insert (over m changed.old) name.now row) }
{
    changed.reserve(name)?;
    changed.set(name, row);
    Ok(())
}

/// Puts a row into the namespace, if the namespace is there. A change that the namespace has already is edited in place. Want of
/// memory is the only error.
pub fn put_row<R: NumberedRow>(
    tables: &Tables,
    change: &mut Change,
    namespace: &Text,
    number: u64,
    row: R,
) -> Result<(), AllocError>
    ensures { DoesIn namespace.now result tables.now change.old change.new (R.put_in number row) }
{
    if let Some(changed) = change.tenants.get_mut(namespace) {
        return row.put(changed, number);
    }
    let Some(mut changed) = open(tables, change, namespace)? else {
        drop(row);
        return Ok(());
    };
    let put = row.put(&mut changed, number);
    change.tenants.set(namespace, changed);
    put
}
