//! Replays one entry of a log on both servers.

ghost use Rattle.std.specs.Prelude.{◌≡◌, IfErr, IfOk};
ghost use Rattle.ns_types.specs.Isolation.{is_own};
ghost use Rattle.ns_replay.specs.Abreast.{AdvancesBy, IsBesideBy, IsDifference, IsFaultAtBy, Strikes, its_part};

use crate::claim::Claim;
use crate::fault::ReplayFault;
use crate::own::is_own;
use crate::premises::step_whole;
use crate::rerun::{is_logged, reply_to};
use ns_core::Core;
use ns_log::Entry;
use ns_types::reply::Rendered;
use std::alloc::Global;

/// If the step is an own one, makes it on the server that holds the namespace alone, and returns its reply there. The errors
/// are `Differs`, if that is not the logged reply, and `Memory`.
fn step_alone(
    alloc: Global,
    alone: &mut Core,
    claim: &Claim<'_>,
    place: u64,
    entry: &Entry,
) -> Result<Option<Rendered>, ReplayFault>
    ensures strikes { IfOk result (λ reply. let own = is_own (its_part claim.now) entry.now.0 in
        Strikes own entry.now alone.old alone.new reply) }
    ensures differs { IfErr result (IsDifference (its_part claim.now) entry.now alone.old place) }
{
    if !is_own(entry.step(), claim.namespace, claim.pools, claim.quotas) {
        return Ok(None);
    }
    let told = reply_to(alloc, alone, entry.step())?;
    if !is_logged(&told, entry.rendered()) {
        return Err(ReplayFault::Differs(place));
    }
    Ok(told)
}

/// Makes the step of the entry on the whole server, and if it is an own one on the server that holds the namespace alone.
/// Returns its reply there. The faults come in this order: `Premise`, `Differs`, `NotARun`. Want of memory is the only other
/// error.
pub(crate) fn replay_entry(
    alloc: Global,
    whole: &mut Core,
    alone: &mut Core,
    claim: &Claim<'_>,
    place: u64,
    entry: &Entry,
) -> Result<Option<Rendered>, ReplayFault>
    requires { IsBesideBy claim.now whole.old alone.old }
    ensures advances { IfOk result (λ reply.
        AdvancesBy claim.now entry.now whole.old alone.old whole.new alone.new reply) }
    ensures fault { IfErr result (IsFaultAtBy claim.now entry.now whole.old alone.old place) }
{
    let told = match step_whole(alloc, whole, claim, place, entry.step()) {
        Ok(told) => told,
        Err(fault) => return Err(fault),
    };
    let reply = match step_alone(alloc, alone, claim, place, entry) {
        Ok(reply) => reply,
        Err(fault) => return Err(fault),
    };
    if !is_logged(&told, entry.rendered()) {
        return Err(ReplayFault::NotARun(place));
    }
    Ok(reply)
}
