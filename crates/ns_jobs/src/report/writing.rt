//! The change of a report.

ghost use Rattle.std.specs.Prelude.{◌≡◌, Some, false};
ghost use Rattle.keyed.specs.Table.{row_at};
ghost use Rattle.ns_types.specs.declared.reply.Content.TheVariants as Content;
ghost use Rattle.ns_types.specs.Asking.Nodes.{reported};
ghost use Rattle.ns_types.specs.Settling.Outcome.{Done};
ghost use Rattle.ns_change.specs.Changed.{Does, view};
ghost use Rattle.ns_change.specs.Prepared.{Prepares};
ghost use Rattle.ns_jobs.specs.Reporting.{number_passes};
ghost use Rattle.ns_tables.specs.World.{tenant_of, world_of};

use crate::report::statuses::calls_for_one;
use ns_change::{Change, Prepared, evaluation_for, make, prepare, set_client};
use ns_tables::{Tables, TenantRows};
use ns_types::allocation::Allocation;
use ns_types::evaluation::Trigger;
use ns_types::key::EvalKey;
use ns_types::refusal::Refusal;
use ns_types::reply::Content;
use ns_types::step::Report;
use std::alloc::AllocError;

/// Gives the allocation the client's status, and makes an evaluation of its job if the status calls for one. The premises are
/// that nothing was changed before, and that the namespace has a number for the evaluation.
fn write_report(
    tables: &Tables,
    change: &mut Change,
    tenant: &TenantRows,
    row: &Allocation,
    report: &Report,
) -> Result<(), AllocError>
    requires tenant { row_at tables.now.tenants report.now.namespace ≡ Some tenant.now }
    requires first { view tables.now change.old ≡ world_of tables.now }
    requires number { number_passes (tenant_of tenant.now) row.now report.now.client ≡ false }
    ensures { Does result tables.now change.old change.new (reported report.now row.now) }
{
    let key = EvalKey::new(report.namespace.clone()?, report.number);
    set_client(tables, change, &key, report.client)?;
    if !calls_for_one(tenant, row, report.client) {
        return Ok(());
    }
    let evaluation = evaluation_for(tables.alloc, tenant, row, Trigger::AllocFailure)?;
    make(tables, change, &report.namespace, evaluation)
}

/// The reply and the change of a report of a status that the allocation did not have.
pub(crate) fn reported(
    tables: &Tables,
    tenant: &TenantRows,
    row: &Allocation,
    report: &Report,
) -> Result<Prepared, Refusal>
    requires tenant { row_at tables.now.tenants report.now.namespace ≡ Some tenant.now }
    requires number { number_passes (tenant_of tenant.now) row.now report.now.client ≡ false }
    ensures { let done = Done Content.Written (reported report.now row.now (world_of tables.now)) in
        Prepares done tables.now result }
{
    let mut change = Change::new(tables.alloc);
    let made = write_report(tables, &mut change, tenant, row, report);
    prepare(Content::Written, change, made)
}
