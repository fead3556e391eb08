//! Whether replies show an evaluation differently once it has woken. It takes no memory.

ghost use Rattle.std.specs.Prelude.{◌≡◌};
ghost use Rattle.ns_types.specs.Settling.Settle.{changes_evaluation, pending};
ghost use Rattle.ns_tables.specs.World.{tenant_of};

use ns_equality::same_with_status;
use ns_tables::TenantRows;
use ns_types::evaluation::{Evaluation, Status};

/// Whether the row, once it is pending, is new or shown differently than before.
pub fn changes_awake(tenant: &TenantRows, number: u64, row: &Evaluation) -> bool
    ensures { result ≡ changes_evaluation (tenant_of tenant.now) number (pending row.now) }
{
    match tenant.evaluations.rows().get(number) {
        Some(old) => !same_with_status(old, row, Status::Pending),
        None => true,
    }
}
