//! Evaluations of the jobs that lose allocations by preemption.

ghost use Rattle.std.specs.Prelude.{map};
ghost use Rattle.ns_types.specs.Working.Commit.{make_up};
ghost use Rattle.ns_change.specs.Changed.{Does, view};
ghost use Rattle.ns_renewal.specs.Losing.{CanMakeUp, victims_at};
ghost use Rattle.ns_renewal.specs.Renewing.{SameJobs};
ghost use Rattle.ns_tables.specs.World.{world_of};

use crate::losing::losing_keys;
use crate::renewing::renew_each;
use ns_change::Change;
use ns_tables::Tables;
use ns_types::evaluation::Trigger;
use ns_types::plan::Eviction;
use std::alloc::AllocError;

/// Makes an evaluation for each job that loses an allocation by one of the evictions, in the order of the jobs' first victims,
/// with the job's type, priority and pool before the step. An eviction whose allocation is not there counts for nothing, and
/// an allocation that is named twice counts once. The premises are that the change leaves the jobs as they were, and that each
/// namespace has numbers for its evaluations. It costs a few look-ups for each eviction, and the making of one evaluation for
/// each job that loses an allocation. Want of memory is the only error.
pub fn make_up(
    tables: &Tables,
    change: &mut Change,
    evictions: &[&Eviction],
) -> Result<(), AllocError>
    requires jobs { SameJobs (world_of tables.now) (view tables.now change.old) }
    requires numbers { CanMakeUp (victims_at (world_of tables.now)
        (map (λ e. e.now) evictions.now)) (view tables.now change.old) }
    ensures { Does result tables.now change.old change.new
        (make_up (victims_at (world_of tables.now) (map (λ e. e.now) evictions.now))) }
{
    let keys = losing_keys(tables, evictions)?;
    renew_each(tables, change, keys.as_slice(), Trigger::Preemption)
}
