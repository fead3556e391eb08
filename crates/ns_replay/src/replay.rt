//! Replays a whole log on both servers.

ghost use Rattle.std.specs.Prelude.{◌≡◌, [], IfErr, IfOk, IsOk, OnOk, true};
ghost use Rattle.ns_replay.specs.Abreast.{IsFaultBy, IsReplayedBy, RepliesAloneBy, is_apart_by, its_part, with_reply};
ghost use Rattle.ns_replay.specs.Replay.{IsFault, RepliesAlone, own_entries, replies_of};
ghost use Rattle.ns_types.specs.Isolation.{part_of};

use crate::claim::Claim;
use crate::entry::replay_entry;
use crate::fault::ReplayFault;
use ns_core::Core;
use ns_log::Entry;
use ns_types::reply::Rendered;
use ns_types::text::Text;
use std::alloc::{AllocError, Global};

/// Adds the reply, if there is one. Want of memory is the only error.
fn push_reply(replies: &mut Vec<Rendered>, reply: Option<Rendered>) -> Result<(), AllocError>
    ensures { OnOk result (replies.new.items ≡ with_reply replies.old.items reply) }
{
    if let Some(reply) = reply {
        replies.push(reply)?;
    }
    Ok(())
}

/// Replays the entries in their order on the two servers, which are in their first states. Returns the replies to the own steps
/// on the server that holds the namespace alone.
fn replay_all(
    alloc: Global,
    base: &Core,
    whole: &mut Core,
    alone: &mut Core,
    entries: &[Entry],
    claim: &Claim<'_>,
) -> Result<Vec<Rendered>, ReplayFault>
    requires { IsReplayedBy claim.now base.now [] whole.old alone.old }
    ensures replayed { OnOk result
        (IsReplayedBy claim.now base.now entries.now whole.new alone.new) }
    ensures logged { IfOk result (λ replies.
        replies.items ≡ replies_of (own_entries (its_part claim.now) entries.now)) }
    ensures fault { IfErr result (IsFaultBy claim.now base.now entries.now) }
{
    base.is_valid();
    let mut replies = Vec::new(alloc);
    for (place, entry) in entries.iter().enumerate() {
        match replay_entry(alloc, whole, alone, claim, place as u64, entry) {
            Ok(reply) => push_reply(&mut replies, reply)?,
            Err(fault) => return Err(fault),
        }
    }
    Ok(replies)
}

/// Replays the entries on a second server in the state of the base, and on one that holds the namespace alone.
fn replay_on(
    alloc: Global,
    base: &Core,
    mut whole: Core,
    entries: &[Entry],
    claim: &Claim<'_>,
) -> Result<Vec<Rendered>, ReplayFault>
    requires same { whole ≡ base.now }
    requires apart { is_apart_by claim.now base.now.world ≡ true }
    ensures replies { IfOk result
        (λ replies. RepliesAloneBy claim.now base.now entries.now replies.items) }
    ensures logged { IfOk result (λ replies.
        replies.items ≡ replies_of (own_entries (its_part claim.now) entries.now)) }
    ensures fault { IfErr result (IsFaultBy claim.now base.now entries.now) }
{
    let Ok(mut alone) = base.alone(alloc, claim.namespace, claim.pools, claim.quotas) else {
        drop(whole);
        return Err(ReplayFault::Memory);
    };
    let replayed = replay_all(alloc, base, &mut whole, &mut alone, entries, claim);
    drop(whole);
    drop(alone);
    replayed
}

/// Makes the steps of the log on a copy of the base, and beside that the namespace's own steps, with these pools and these
/// quotas, on the server that holds it alone. Returns the replies to the own steps there, which are the logged ones. The error
/// is the first fault: at one place a premise that fails comes first, then an own step that differs on the server that holds
/// the namespace alone, then an entry that is no step of the whole server. Want of memory is the only other error. An empty log
/// has no replies, and no fault.
pub fn replay_alone(
    alloc: Global,
    base: &Core,
    entries: &[Entry],
    namespace: &Text,
    pools: &[Text],
    quotas: &[Text],
) -> Result<Vec<Rendered>, ReplayFault>
    ensures empty { entries.now ≡ [] → IsOk result }
    ensures replies { IfOk result (λ replies.
        RepliesAlone namespace.now pools.now quotas.now base.now entries.now replies.items) }
    ensures logged { let part = part_of namespace.now pools.now quotas.now in
        IfOk result (λ replies. replies.items ≡ replies_of (own_entries part entries.now)) }
    ensures fault { IfErr result
        (IsFault namespace.now pools.now quotas.now base.now entries.now) }
{
    if entries.is_empty() {
        return Ok(Vec::new(alloc));
    }
    if !base.apart(namespace, pools, quotas) {
        return Err(ReplayFault::Premise(0));
    }
    let claim = Claim {
        namespace,
        pools,
        quotas,
    };
    match base.copy(alloc) {
        Ok(whole) => replay_on(alloc, base, whole, entries, &claim),
        Err(_) => Err(ReplayFault::Memory),
    }
}
