//! Makes the index of live allocations anew, with the namespaces that name each quota and what they use.

ghost use Rattle.std.specs.Prelude.{IfOk};
ghost use Rattle.ns_live_index.specs.Index.{IsRight};
ghost use Rattle.ns_tables.specs.World.{world_of};

use keyed::NumberTable;
use ns_live_index::Live;
use ns_tables::Tables;
use std::alloc::{AllocError, Global};

/// The index of the tables' live allocations, with the namespaces that name each quota and what they use. No node is shown in
/// it yet. Want of memory is the only error.
pub fn live_of(alloc: Global, tables: &Tables) -> Result<Live, AllocError>
    ensures { IfOk result (IsRight (world_of tables.now)) }
{
    let none = NumberTable::new(alloc);
    let mut live = Live::new(alloc);
    for slot in tables.tenants.as_slice() {
        if let Some(tenant) = &slot.1 {
            let allocations = tenant.allocations.rows();
            let quota = tenant.namespace.quota.as_ref();
            live.reserve_all(&slot.0, allocations)?;
            live.put_all(&slot.0, &none, allocations);
            live.reserve_quota(&slot.0, quota)?;
            live.put_quota(&slot.0, None, quota, tenant.allocations.live_total());
        }
    }
    Ok(live)
}
