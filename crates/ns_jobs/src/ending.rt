//! What the end of an allocation releases.

ghost use Rattle.std.specs.Prelude.{◌≡◌};
ghost use Rattle.ns_jobs.specs.Ending.{ending_passes, left_room_passes};
ghost use Rattle.ns_tables.specs.World.{tenant_of, world_of};

use ns_counters::{given_room_passes, left_quota_passes};
use ns_equality::is_free;
use ns_tables::{Tables, TenantRows};
use ns_types::allocation::Allocation;

/// Whether a counter passes its bound by the room that the allocation leaves on its node. A node that is not there, not
/// ready or not eligible gives none.
fn left_room_passes(tables: &Tables, row: &Allocation) -> bool
    ensures { result ≡ left_room_passes (world_of tables.now) row.now }
{
    match tables.node(&row.pool, &row.node) {
        Some(node) => is_free(node) && given_room_passes(tables, &row.pool, &node.offer),
        None => false,
    }
}

/// Whether a counter passes its bound by what the end of the allocation releases. It takes no memory.
pub fn ending_passes(tables: &Tables, tenant: &TenantRows, row: &Allocation) -> bool
    ensures { result ≡ ending_passes (world_of tables.now) (tenant_of tenant.now) row.now }
{
    left_room_passes(tables, row) || left_quota_passes(tables, tenant)
}
