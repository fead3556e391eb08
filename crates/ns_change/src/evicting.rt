//! The desired status and the client status of allocations.

ghost use Rattle.ns_types.specs.Settling.Making.{with_client, with_desired};
ghost use Rattle.ns_change.specs.Changed.{DoesIn};

use crate::change::Change;
use crate::copying::copied_allocation;
use crate::looking::allocation;
use crate::numbered::put_row;
use ns_tables::Tables;
use ns_types::allocation::{ClientStatus, DesiredStatus};
use ns_types::key::EvalKey;
use std::alloc::AllocError;

/// Sets the desired status of the allocation, if it is there. Want of memory is the only error.
pub fn set_desired(
    tables: &Tables,
    change: &mut Change,
    key: &EvalKey,
    desired: DesiredStatus,
) -> Result<(), AllocError>
    ensures { DoesIn key.now.0 result tables.now change.old change.new
        (with_desired key.now.1 desired) }
{
    let Some(row) = allocation(tables, change, key.namespace(), key.number()) else {
        return Ok(());
    };
    let mut row = copied_allocation(row)?;
    row.desired = desired;
    put_row(tables, change, key.namespace(), key.number(), row)
}

/// Sets the client status of the allocation, if it is there. Want of memory is the only error.
pub fn set_client(
    tables: &Tables,
    change: &mut Change,
    key: &EvalKey,
    client: ClientStatus,
) -> Result<(), AllocError>
    ensures { DoesIn key.now.0 result tables.now change.old change.new
        (with_client key.now.1 client) }
{
    let Some(row) = allocation(tables, change, key.namespace(), key.number()) else {
        return Ok(());
    };
    let mut row = copied_allocation(row)?;
    row.client = client;
    put_row(tables, change, key.namespace(), key.number(), row)
}
