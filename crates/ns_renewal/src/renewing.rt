//! Evaluations of the jobs of allocations that ended.

ghost use Rattle.std.specs.Prelude.{fold};
ghost use Rattle.ns_change.specs.Changed.{Does, HasEvaluationLeft, view};
ghost use Rattle.ns_renewal.specs.Renewing.{HasNumbers, renewed};
ghost use Rattle.ns_tables.specs.World.{world_of};

use ns_change::{Change, evaluation_for, make};
use ns_tables::Tables;
use ns_types::evaluation::Trigger;
use ns_types::key::EvalKey;
use std::alloc::AllocError;

/// Makes an evaluation for the job of the allocation at that key, with the job's type, priority and pool before the step.
fn renew(
    tables: &Tables,
    change: &mut Change,
    key: &EvalKey,
    trigger: Trigger,
) -> Result<(), AllocError>
    requires { HasEvaluationLeft (view tables.now change.old) key.now.0 }
    ensures { Does result tables.now change.old change.new
        (λ x. renewed trigger (world_of tables.now) x key.now) }
{
    let Some(tenant) = tables.tenants.get(key.namespace()) else {
        return Ok(());
    };
    let Some(ended) = tenant.allocations.get(key.number()) else {
        return Ok(());
    };
    let evaluation = evaluation_for(tables.alloc, tenant, ended, trigger)?;
    make(tables, change, key.namespace(), evaluation)
}

/// Makes an evaluation for the job of the allocation at each of the keys, in this order, with the job's type, priority and
/// pool before the step. Want of memory is the only error.
pub fn renew_each(
    tables: &Tables,
    change: &mut Change,
    keys: &[EvalKey],
    trigger: Trigger,
) -> Result<(), AllocError>
    requires { HasNumbers (view tables.now change.old) keys.now }
    ensures { Does result tables.now change.old change.new
        (λ x. fold (renewed trigger (world_of tables.now)) x keys.now) }
{
    for key in keys {
        renew(tables, change, key, trigger)?;
    }
    Ok(())
}
