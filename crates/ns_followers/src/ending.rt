//! Ends an evaluation, and makes its follower.

ghost use Rattle.ns_change.specs.Changed.{Does, DoesIn, HasEvaluationLeft, view};
ghost use Rattle.ns_types.specs.Settling.Making.{change_tenant};
ghost use Rattle.ns_types.specs.State.Rows.{is_blocked};
ghost use Rattle.ns_followers.specs.Ending.{ended_alone, ended_followed, ended_in, ended_of};
ghost use Rattle.ns_followers.specs.Ending.{followed_as, listed_if};

use ns_change::{
    Change, add_blocked, add_evaluation, cancel_blocked, promote, remove_worker, set_follower,
    set_status, unlist_blocked,
};
use ns_tables::Tables;
use ns_types::evaluation::{Evaluation, Status};
use ns_types::key::EvalKey;
use ns_types::text::Text;
use std::alloc::AllocError;

/// An evaluation that ends.
#[derive(Clone, Copy)]
pub(crate) struct EndingEvaluation<'a> {
    /// The number of the worker that has it.
    pub(crate) worker: u64,
    pub(crate) key: &'a EvalKey,
    pub(crate) job: &'a Text,
    /// The status that it gets.
    pub(crate) status: Status,
}

/// Ends the evaluation: it gets its last status, the job's blocked evaluation is canceled and no longer listed, and the worker
/// is idle.
fn end(
    tables: &Tables,
    change: &mut Change,
    ending: &EndingEvaluation<'_>,
) -> Result<(), AllocError>
    ensures { Does result tables.now change.old change.new (ended_in (ended_of ending.now)) }
{
    let namespace = ending.key.namespace();
    unlist_blocked(tables, change, namespace, ending.job)?;
    remove_worker(tables, change, namespace, ending.worker)?;
    set_status(tables, change, ending.key, ending.status)?;
    cancel_blocked(tables, change, namespace, ending.job)
}

/// Adds the follower under that number, which is the namespace's next, and names it in the evaluation.
fn tie(
    tables: &Tables,
    change: &mut Change,
    key: &EvalKey,
    number: u64,
    row: Evaluation,
) -> Result<(), AllocError>
    requires { HasEvaluationLeft (view tables.now change.old) key.now.0 }
    ensures { DoesIn key.now.0 result tables.now change.old change.new
        (followed_as key.now.1 number row) }
{
    set_follower(tables, change, key, number)?;
    add_evaluation(tables, change, key.namespace(), row)?;
    Ok(())
}

/// Adds the follower as `tie` does, and lists it if it is blocked.
fn follow(
    tables: &Tables,
    change: &mut Change,
    key: &EvalKey,
    number: u64,
    row: Evaluation,
) -> Result<(), AllocError>
    requires { HasEvaluationLeft (view tables.now change.old) key.now.0 }
    ensures { Does result tables.now change.old change.new
        (λ w. listed_if (is_blocked row.status) (key.now.0, number)
        (change_tenant key.now.0 (followed_as key.now.1 number row) w)) }
{
    let is_blocked = matches!(row.status, Status::Blocked);
    tie(tables, change, key, number, row)?;
    if is_blocked {
        add_blocked(change, EvalKey::new(key.namespace().clone()?, number))?;
    }
    Ok(())
}

/// Ends the evaluation without a follower, and makes the job's first waiting evaluation ready.
pub(crate) fn end_alone(
    tables: &Tables,
    change: &mut Change,
    ending: &EndingEvaluation<'_>,
) -> Result<(), AllocError>
    ensures { Does result tables.now change.old change.new (ended_alone (ended_of ending.now)) }
{
    end(tables, change, ending)?;
    promote(tables, change, ending.key.namespace(), ending.job)
}

/// Ends the evaluation with this follower, whose number is the namespace's next, and makes the job's first waiting evaluation
/// ready.
pub(crate) fn end_followed(
    tables: &Tables,
    change: &mut Change,
    ending: &EndingEvaluation<'_>,
    follower: u64,
    row: Evaluation,
) -> Result<(), AllocError>
    requires { HasEvaluationLeft (view tables.now change.old) ending.now.key.now.0 }
    ensures { Does result tables.now change.old change.new
        (ended_followed (ended_of ending.now) follower row) }
{
    end(tables, change, ending)?;
    follow(tables, change, ending.key, follower, row)?;
    promote(tables, change, ending.key.namespace(), ending.job)
}
