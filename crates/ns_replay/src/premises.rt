//! Decides whether the premises hold after a step. It looks at them only if the step may have broken them.

ghost use Rattle.std.specs.Prelude.{◌≡◌, ◌&&◌, IfErr, IfOk, true};
ghost use Rattle.ns_audit.specs.Orderly.{IsSteady};
ghost use Rattle.ns_audit.specs.Staying.{puts_namespace};
ghost use Rattle.ns_types.specs.Isolation.{is_own, lacks_room};
ghost use Rattle.ns_replay.specs.Replying.{Replies};
ghost use Rattle.ns_replay.specs.Abreast.{IsBreachBy, KeepsPremisesBy, breaks_premise, is_apart_by, its_part};

use crate::claim::Claim;
use crate::fault::ReplayFault;
use crate::own::is_own;
use crate::rerun::shown;
use ns_core::Core;
use ns_types::refusal::Refusal;
use ns_types::reply::{Rendered, Reply};
use ns_types::step::{AdminCommand, Step};
use std::alloc::Global;

/// Whether the step puts a namespace. After any other step the claimed namespace is still apart.
fn puts_namespace(step: &Step) -> bool
    ensures { result ≡ puts_namespace step.now }
{
    match step {
        Step::Admin(_, command) => matches!(command.get(), AdminCommand::PutNamespace(_, _)),
        _ => false,
    }
}

/// Whether the step is an own put of a new name whose table has no room.
fn is_crowded(whole: &Core, claim: &Claim<'_>, step: &Step) -> bool
    ensures { result ≡ (is_own (its_part claim.now) step.now
        && lacks_room step.now whole.now.world) }
{
    is_own(step, claim.namespace, claim.pools, claim.quotas) && whole.lacks_room(step)
}

/// Whether the step with this answer breaks a premise: it put a namespace, and the claimed namespace is not apart then, or it
/// is an own put that was refused because its table is full.
fn is_broken(
    whole: &Core,
    claim: &Claim<'_>,
    step: &Step,
    crowded: bool,
    answer: &Result<Reply, Refusal>,
) -> bool
    ensures { let apart = is_apart_by claim.now whole.now.world in
        result ≡ breaks_premise apart crowded step.now answer.now }
{
    match answer {
        Ok(_) => {
            puts_namespace(step) && !whole.apart(claim.namespace, claim.pools, claim.quotas)
        }
        Err(refusal) => crowded && matches!(refusal, Refusal::Full),
    }
}

/// Makes the step on the whole server, and returns its reply, or none if it is out of turn. The errors are `Premise`, if a
/// premise fails after the step, and `Memory`.
pub(crate) fn step_whole(
    alloc: Global,
    whole: &mut Core,
    claim: &Claim<'_>,
    place: u64,
    step: &Step,
) -> Result<Option<Rendered>, ReplayFault>
    requires steady { IsSteady whole.old }
    requires apart { is_apart_by claim.now whole.old.world ≡ true }
    ensures told { IfOk result (λ told. Replies step.now whole.old told whole.new) }
    ensures premises { IfOk result
        (λ told. KeepsPremisesBy claim.now step.now whole.old told whole.new) }
    ensures breach { IfErr result (IsBreachBy claim.now step.now whole.old place) }
{
    let crowded = is_crowded(whole, claim, step);
    let answer = crate::model_run::step(alloc, whole, step);
    let broken = is_broken(whole, claim, step, crowded, &answer);
    let told = shown(alloc, &answer);
    drop(answer);
    if broken {
        drop(told);
        return Err(ReplayFault::Premise(place));
    }
    Ok(told?)
}
