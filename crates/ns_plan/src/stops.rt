//! Whether a plan still stands, and which of its stops count.

ghost use Rattle.std.specs.Prelude.{◌≡◌, IfOk, false, option_copied};
ghost use Rattle.std.specs.Option.{option_map_or};
ghost use Rattle.ns_types.specs.State.Rows.{is_live};
ghost use Rattle.ns_types.specs.Working.Commit.{has_ended, same_version, still_stands};
ghost use Rattle.ns_plan.specs.After.{counted_stops};

use crate::view::View;
use ns_types::allocation::Allocation;
use ns_types::job::Job;
use ns_types::text::Text;
use std::alloc::{AllocError, Global};

fn has_ended(job: Option<&Job>) -> bool
    ensures { result ≡ has_ended (option_copied job.entry) }
{
    match job {
        Some(job) => job.stop,
        None => true,
    }
}

#[tactic(auto, using(ns_types::proofs::Named::number_ties))]
fn same_version(a: Option<&Job>, b: Option<&Job>) -> bool
    ensures { result ≡ same_version (option_copied a.entry) (option_copied b.entry) }
{
    match (a, b) {
        (Some(a), Some(b)) => a.modify_index == b.modify_index,
        _ => false,
    }
}

/// Whether a plan still stands that was made for the job as `planned`, now that the job is as `present`. Of a plan that does
/// not stand, nothing is done. It takes no memory.
pub fn stands(planned: Option<&Job>, present: Option<&Job>) -> bool
    ensures { result ≡ still_stands (option_copied planned.entry) (option_copied present.entry) }
{
    if has_ended(planned) {
        has_ended(present)
    } else {
        !has_ended(present) && same_version(planned, present)
    }
}

fn is_live(row: Option<&Allocation>) -> bool
    ensures { result ≡ option_map_or is_live (option_copied row.entry) false }
{
    match row {
        Some(row) => row.is_live(),
        None => false,
    }
}

/// The stops of live allocations, in their order. It costs a look-up for each stop. Want of memory is the only error.
pub fn live_stops<V: View>(
    alloc: Global,
    view: &V,
    namespace: &Text,
    stops: &[u64],
) -> Result<Vec<u64>, AllocError>
    ensures { IfOk result (λ v. v.items ≡
        counted_stops (V.world view.now) namespace.now stops.now) }
{
    let mut live = Vec::new(alloc);
    for number in stops {
        if is_live(view.allocation(namespace, *number)) {
            live.push(*number)?;
        }
    }
    Ok(live)
}
