//! Small changes, each as the model has it. If no memory is left, the caller drops the change.

ghost use Rattle.std.specs.Prelude.{◌≡◌, IfOk};
ghost use Rattle.ns_types.specs.Settling.Making.{with_status};
ghost use Rattle.ns_change.specs.Changed.{DoesIn, unchanged};
ghost use Rattle.ns_change.specs.Opened.{Opened};
ghost use Rattle.ns_tables.specs.World.{tenant_of};

use crate::change::{Change, TenantChange};
use crate::looking::evaluation;
use crate::numbered::put_row;
use keyed::{NameTable, NumberTable};
use ns_tables::{Tables, TenantRows};
use ns_types::evaluation::Status;
use ns_types::key::EvalKey;
use ns_types::text::Text;
use std::alloc::{AllocError, Global};

/// An empty change of a namespace.
pub(crate) fn unchanged(alloc: Global, tenant: &TenantRows) -> TenantChange
    ensures { result ≡ unchanged (tenant_of tenant.now) }
{
    TenantChange {
        evaluation_number: tenant.evaluation_number,
        allocation_number: tenant.allocation_number,
        jobs: NameTable::new(alloc),
        evaluations: NumberTable::new(alloc),
        allocations: NumberTable::new(alloc),
        workers: NumberTable::new(alloc),
    }
}

/// Takes the namespace's change out of `change`, or makes an empty one; the caller puts it back. None: there is no such
/// namespace. Want of memory is the only error.
pub(crate) fn open(
    tables: &Tables,
    change: &mut Change,
    namespace: &Text,
) -> Result<Option<TenantChange>, AllocError>
    ensures { IfOk result (λ x. Opened tables.now change.old namespace.now x change.new) }
{
    let Some(tenant) = tables.tenants.get(namespace) else {
        return Ok(None);
    };
    if let Some(changed) = change.tenants.take(namespace) {
        return Ok(Some(changed));
    }
    change.tenants.reserve(namespace)?;
    Ok(Some(unchanged(tables.alloc, tenant)))
}

/// Sets the status of the evaluation, if it is there. Want of memory is the only error.
pub fn set_status(
    tables: &Tables,
    change: &mut Change,
    key: &EvalKey,
    status: Status,
) -> Result<(), AllocError>
    ensures { DoesIn key.now.0 result tables.now change.old change.new
        (with_status key.now.1 status) }
{
    let Some(row) = evaluation(tables, change, key.namespace(), key.number()) else {
        return Ok(());
    };
    let mut row = row.clone()?;
    row.status = status;
    put_row(tables, change, key.namespace(), key.number(), row)
}
