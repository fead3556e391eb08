//! New evaluations, which take the next number of their namespace, and the follower that an evaluation names.

ghost use Rattle.std.specs.Prelude.{◌≡◌, IfOk};
ghost use Rattle.ns_types.specs.Settling.Making.{with_evaluation};
ghost use Rattle.ns_types.specs.Working.Work.{tied_to};
ghost use Rattle.ns_change.specs.Changed.{DoesIn, HasEvaluationLeft, next_evaluation, view};

use crate::change::Change;
use crate::editing::open;
use crate::looking::evaluation;
use crate::numbered::{NumberedRow, put_row};
use ns_tables::Tables;
use ns_types::evaluation::Evaluation;
use ns_types::key::EvalKey;
use ns_types::text::Text;
use std::alloc::AllocError;

/// Names the evaluation's follower, if the evaluation is there. Want of memory is the only error.
pub fn set_follower(
    tables: &Tables,
    change: &mut Change,
    key: &EvalKey,
    follower: u64,
) -> Result<(), AllocError>
    ensures { DoesIn key.now.0 result tables.now change.old change.new
        (tied_to key.now.1 follower) }
{
    let Some(row) = evaluation(tables, change, key.namespace(), key.number()) else {
        return Ok(());
    };
    let mut row = row.clone()?;
    row.follower = Some(follower);
    put_row(tables, change, key.namespace(), key.number(), row)
}

/// Adds an evaluation under the namespace's next number, and returns the number. None: there is no such namespace. Want of
/// memory is the only error.
pub fn add_evaluation(
    tables: &Tables,
    change: &mut Change,
    namespace: &Text,
    row: Evaluation,
) -> Result<Option<u64>, AllocError>
    requires { HasEvaluationLeft (view tables.now change.old) namespace.now }
    ensures made { DoesIn namespace.now result tables.now change.old change.new
        (with_evaluation row) }
    ensures number { IfOk result (λ number. number
        ≡ next_evaluation (view tables.now change.old) namespace.now) }
{
    let Some(mut tenant) = open(tables, change, namespace)? else {
        drop(row);
        return Ok(None);
    };
    let number = tenant.evaluation_number + 1;
    let put = row.put(&mut tenant, number);
    tenant.evaluation_number = number;
    change.tenants.set(namespace, tenant);
    put?;
    Ok(Some(number))
}
