//! A server's answers to steps, as bytes.

ghost use Rattle.std.specs.Prelude.{◌≡◌, ◌↔◌, Err, IfOk, IsFalse, IsTrue, Some};
ghost use Rattle.ns_replay.specs.Running.{is_no_step};
ghost use Rattle.ns_replay.specs.Replying.{Fits, FitsIn, Replies, Shows};

use crate::model_run::step;
use ns_core::Core;
use ns_equality::Equal;
use ns_log::Entry;
use ns_replies::answers::{refused, render};
use ns_types::refusal::Refusal;
use ns_types::reply::{Rendered, Reply};
use ns_types::step::Step;
use std::alloc::{AllocError, Global};

/// Whether a call with this refusal made no step.
fn is_no_step(refusal: Refusal) -> bool
    ensures { result ≡ is_no_step refusal }
{
    matches!(refusal, Refusal::Memory | Refusal::NotEnabled)
}

/// The bytes of a refusal, if it is a step's answer. None: the call was out of turn. Want of memory is the only error.
#[tactic(auto, unfolding(ns_json::specs::Replies::rendered))]
fn shown_refusal(alloc: Global, refusal: Refusal) -> Result<Option<Rendered>, AllocError>
    ensures { IfOk result (Shows (Err refusal)) }
{
    match refusal {
        Refusal::NotEnabled => Ok(None),
        refusal if is_no_step(refusal) => Err(AllocError),
        refusal => Ok(Some(refused(alloc, refusal)?)),
    }
}

/// The bytes of a step's answer. None: the call was out of turn. Want of memory is the only error.
pub fn shown(alloc: Global, answer: &Result<Reply, Refusal>) -> Result<Option<Rendered>, AllocError>
    ensures { IfOk result (Shows answer.now) }
{
    match answer {
        Ok(reply) => Ok(Some(render(alloc, reply)?)),
        Err(refusal) => shown_refusal(alloc, *refusal),
    }
}

/// Makes the step, and returns its answer as bytes. None: the step is out of turn, and was not made. Want of memory is the only
/// error.
pub fn reply_to(
    alloc: Global,
    core: &mut Core,
    asked: &Step,
) -> Result<Option<Rendered>, AllocError>
    ensures { IfOk result (λ reply. Replies asked.now core.old reply core.new) }
{
    let answer = step(alloc, core, asked);
    let reply = shown(alloc, &answer);
    drop(answer);
    reply
}

/// Whether the reply is the logged one.
pub fn is_logged(reply: &Option<Rendered>, logged: &Rendered) -> bool
    ensures { IsTrue result ↔ (reply.now ≡ Some logged.now) }
{
    match reply {
        Some(rendered) => rendered.equal(logged),
        None => false,
    }
}

/// Makes the step of the entry, and returns whether the entry fits: the step is not out of turn, and its answer is the logged
/// one. Want of memory is the only error.
pub(crate) fn fit(alloc: Global, core: &mut Core, entry: &Entry) -> Result<bool, AllocError>
    ensures fits { IfOk result (λ fits. IsTrue fits → Fits entry.now core.old core.new) }
    ensures unfit { IfOk result (λ fits. IsFalse fits → FitsIn entry.now core.old → ⊥) }
{
    let reply = reply_to(alloc, core, entry.step())?;
    Ok(is_logged(&reply, entry.rendered()))
}
