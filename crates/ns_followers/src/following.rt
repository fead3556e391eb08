//! The follower of an evaluation, which is its follow-up evaluation.

ghost use Rattle.std.specs.Prelude.{◌≡◌, None, IfOk, if◌then◌else◌};
ghost use Rattle.ns_followers.specs.Following.{follower_for, limiting};

use crate::shortage::{escapes, infeasible_classes};
use ns_types::evaluation::{Evaluation, Status, Trigger};
use ns_types::snapshot::Snapshot;
use ns_types::text::Text;
use std::alloc::{AllocError, Global};

/// The name of the snapshot's quota, if there is one and it limits the follower.
fn limiting(kept: &Snapshot, limited: bool) -> Result<Option<Text>, AllocError>
    ensures { IfOk result (λ name. name ≡ limiting kept.now limited) }
{
    match &kept.quota {
        Some(quota) if limited => Ok(Some(quota.name.clone()?)),
        _ => Ok(None),
    }
}

fn trigger_for(failed: bool) -> Trigger
    ensures { result ≡ (if failed then Trigger.MaxPlanAttempts else Trigger.QueuedAllocs) }
{
    if failed {
        Trigger::MaxPlanAttempts
    } else {
        Trigger::QueuedAllocs
    }
}

/// The follower of the evaluation with that number, as a blocked evaluation. It remembers what kept allocations from being
/// placed in the snapshot. After a failure it escapes classes, and no quota limits it. Want of memory is the only error.
pub fn follower(
    alloc: Global,
    row: &Evaluation,
    number: u64,
    kept: &Snapshot,
    failed: bool,
    limited: bool,
) -> Result<Evaluation, AllocError>
    ensures { IfOk result (λ follower. follower
        ≡ follower_for row.now number kept.now failed limited) }
{
    Ok(Evaluation {
        job: row.job.clone()?,
        kind: row.kind,
        priority: row.priority,
        pool: kept.pool.clone()?,
        trigger: trigger_for(failed),
        status: Status::Blocked,
        previous: Some(number),
        follower: None,
        quota: limiting(kept, limited && !failed)?,
        escapes: failed || escapes(kept),
        infeasible: infeasible_classes(alloc, kept)?,
        nacks: 0,
        create_index: 0,
        modify_index: 0,
    })
}
