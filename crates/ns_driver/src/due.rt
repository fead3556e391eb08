//! The next step of a driven worker.

ghost use Rattle.std.specs.Prelude.{◌≡◌, IfOk, None, OnErr, Some, option_map};
ghost use Rattle.ns_types.specs.State.Rows.{World};
ghost use Rattle.ns_types.specs.Working.Looks.{row_of};
ghost use Rattle.ns_broker.specs.Looking.{busy_fields, busy_of};
ghost use Rattle.ns_driver.specs.Driving.{driven, IsAtRest};
ghost use Rattle.ns_driver.specs.Working.{IsDue};

use crate::works::Works;
use ns_broker::Busy;
use ns_types::key::EvalKey;
use ns_types::text::Text;
use ns_types::worker::Phase;
use std::alloc::AllocError;

/// The number of the driven worker.
pub(crate) const WORKER: u64 = 0;

/// What the worker does next, with the namespace of its evaluation.
#[derive(Drop)]
pub(crate) enum Due {
    /// It is idle, and nothing is ready.
    Nothing,
    /// It is idle, and dequeues this evaluation.
    Take(EvalKey),
    /// It takes a snapshot, for the first time or again.
    Look(Text),
    /// It has a snapshot, and submits its plan, or finishes if the plan does nothing.
    Plan(Text),
    /// Its plan is to be applied.
    Apply(Text),
    /// It finishes: all of its plan was applied, or its tries are used up.
    End(Text),
}

/// What a busy worker does next. Want of memory is the only error.
fn of_busy(busy: Busy<'_>) -> Result<Due, AllocError>
    ensures { IfOk result (λ due. (w : World) →
        Some (busy_fields busy.entry) ≡ option_map busy_of (row_of w driven) → IsDue w due) }
{
    let namespace = busy.namespace.clone()?;
    Ok(match busy.phase {
        Phase::Took => Due::Look(namespace),
        Phase::Snapped => Due::Plan(namespace),
        Phase::Submitted => Due::Apply(namespace),
        Phase::Applied => Due::End(namespace),
        Phase::Dropped if busy.tries == 0 => Due::End(namespace),
        Phase::Dropped => Due::Look(namespace),
    })
}

/// What the worker does next, if it is idle. Want of memory is the only error.
fn of_idle<W: Works>(works: &W) -> Result<Due, AllocError>
    requires { row_of (W.state works.now).world driven ≡ None }
    ensures due { IfOk result (IsDue (W.state works.now).world) }
    ensures memory { OnErr result (IsAtRest (W.state works.now).world → ⊥) }
{
    match works.served() {
        Some(key) => Ok(Due::Take(key.clone()?)),
        None => Ok(Due::Nothing),
    }
}

/// What the worker does next. Want of memory is the only error.
pub(crate) fn next<W: Works>(works: &W) -> Result<Due, AllocError>
    ensures due { IfOk result (IsDue (W.state works.now).world) }
    ensures memory { OnErr result (IsAtRest (W.state works.now).world → ⊥) }
{
    match works.phase(WORKER) {
        Some(busy) => of_busy(busy),
        None => of_idle(works),
    }
}
