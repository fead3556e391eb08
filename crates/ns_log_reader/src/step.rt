//! Reads steps.

ghost use Rattle.std.specs.Prelude.{◌≤◌, IfOk, IsTrue};
ghost use Rattle.serde_json.specs.Data.{depth};
ghost use Rattle.serde_json.specs.Read.{max_depth};
ghost use Rattle.serde_json.specs.View.{view};
ghost use Rattle.ns_types.specs.Within.{IsGoodStep};
ghost use Rattle.ns_log_reader.specs.Lines.{IsAsRead, fits, step_fits};
ghost use Rattle.ns_log_reader.specs.Reading.{Gives, same, ask_in, admin_in, node_step_in, work_of, work_in, dequeue_in, step_of, step_in};

use crate::administered::administered;
use crate::asked::asked;
use crate::fault::LineFault;
use crate::member::{member, number, text, text_or_null, word};
use crate::nodes::node_command;
use ns_types::good::{GoodAdmin, GoodAsk, GoodNodeCommand};
use ns_types::step::Step;
use ns_types::text::Text;
use serde_json::Value;
use std::alloc::Global;

#[tactic(auto, unfolding(crate::specs::Reading::ask_in))]
fn ask(alloc: Global, step: &Value) -> Result<Step, LineFault>
    requires { depth (view step.now) ≤ max_depth }
    ensures value { Gives same result (ask_in (view step.now)) }
    ensures good { IfOk result IsGoodStep }
    ensures as_read { IfOk result IsAsRead }
    ensures fits { IfOk result (λ s. IsTrue (step_fits s)) }
{
    let arguments = member(step, "Args")?;
    let word = word(step, "Do")?;
    let namespace = text(alloc, step, "Ns")?;
    let secret = text_or_null(alloc, step, "Secret")?;
    let command = asked(alloc, word, arguments)?;
    Ok(Step::Ask(namespace, secret, GoodAsk::new(command)))
}

#[tactic(auto, unfolding(crate::specs::Reading::admin_in))]
fn admin(alloc: Global, step: &Value) -> Result<Step, LineFault>
    requires { depth (view step.now) ≤ max_depth }
    ensures value { Gives same result (admin_in (view step.now)) }
    ensures good { IfOk result IsGoodStep }
    ensures as_read { IfOk result IsAsRead }
    ensures fits { IfOk result (λ s. IsTrue (step_fits s)) }
{
    let arguments = member(step, "Args")?;
    let word = word(step, "Do")?;
    let secret = text_or_null(alloc, step, "Secret")?;
    let command = administered(alloc, word, arguments)?;
    Ok(Step::Admin(secret, GoodAdmin::new(command)))
}

#[tactic(auto, unfolding(crate::specs::Reading::node_step_in))]
fn node(alloc: Global, step: &Value) -> Result<Step, LineFault>
    requires { depth (view step.now) ≤ max_depth }
    ensures value { Gives same result (node_step_in (view step.now)) }
    ensures good { IfOk result IsGoodStep }
    ensures as_read { IfOk result IsAsRead }
    ensures fits { IfOk result (λ s. IsTrue (step_fits s)) }
{
    let arguments = member(step, "Args")?;
    let word = word(step, "Do")?;
    let pool = text(alloc, step, "Pool")?;
    let secret = text_or_null(alloc, step, "Secret")?;
    let command = node_command(alloc, word, arguments)?;
    Ok(Step::Node(pool, secret, GoodNodeCommand::new(command)))
}

/// Reads a worker's step other than a dequeue, by its kind.
#[tactic(auto, unfolding(crate::specs::Reading::work_of))]
fn work_of(kind: &str, worker: u64, namespace: Text) -> Result<Step, LineFault>
    requires { IsTrue (fits worker) }
    ensures value { Gives same result (work_of kind.now worker namespace) }
    ensures good { IfOk result IsGoodStep }
    ensures as_read { IfOk result IsAsRead }
    ensures fits { IfOk result (λ s. IsTrue (step_fits s)) }
{
    match kind {
        "Snap" => Ok(Step::Snap(worker, namespace)),
        "Submit" => Ok(Step::Submit(worker, namespace)),
        "Apply" => Ok(Step::Apply(worker, namespace)),
        "Finish" => Ok(Step::Finish(worker, namespace)),
        "Nack" => Ok(Step::Nack(worker, namespace)),
        _ => Err(LineFault::Bad),
    }
}

#[tactic(auto, unfolding(crate::specs::Reading::work_in))]
fn work(alloc: Global, kind: &str, step: &Value) -> Result<Step, LineFault>
    ensures value { Gives same result (work_in kind.now (view step.now)) }
    ensures good { IfOk result IsGoodStep }
    ensures as_read { IfOk result IsAsRead }
    ensures fits { IfOk result (λ s. IsTrue (step_fits s)) }
{
    let namespace = text(alloc, step, "Ns")?;
    let worker = number(step, "Worker")?;
    work_of(kind, worker, namespace)
}

#[tactic(auto, unfolding(crate::specs::Reading::dequeue_in))]
fn dequeue(alloc: Global, step: &Value) -> Result<Step, LineFault>
    ensures value { Gives same result (dequeue_in (view step.now)) }
    ensures good { IfOk result IsGoodStep }
    ensures as_read { IfOk result IsAsRead }
    ensures fits { IfOk result (λ s. IsTrue (step_fits s)) }
{
    let evaluation = number(step, "Eval")?;
    let namespace = text(alloc, step, "Ns")?;
    let worker = number(step, "Worker")?;
    Ok(Step::Dequeue(worker, namespace, evaluation))
}

#[tactic(auto, unfolding(crate::specs::Reading::step_of))]
fn step_of(alloc: Global, kind: &str, step: &Value) -> Result<Step, LineFault>
    requires { depth (view step.now) ≤ max_depth }
    ensures value { Gives same result (step_of kind.now (view step.now)) }
    ensures good { IfOk result IsGoodStep }
    ensures as_read { IfOk result IsAsRead }
    ensures fits { IfOk result (λ s. IsTrue (step_fits s)) }
{
    match kind {
        "Ask" => ask(alloc, step),
        "Admin" => admin(alloc, step),
        "Node" => node(alloc, step),
        "Dequeue" => dequeue(alloc, step),
        _ => work(alloc, kind, step),
    }
}

/// Reads the step of an entry.
#[tactic(auto, unfolding(crate::specs::Reading::step_in))]
pub fn step(alloc: Global, value: &Value) -> Result<Step, LineFault>
    requires { depth (view value.now) ≤ max_depth }
    ensures value { Gives same result (step_in (view value.now)) }
    ensures good { IfOk result IsGoodStep }
    ensures as_read { IfOk result IsAsRead }
    ensures fits { IfOk result (λ s. IsTrue (step_fits s)) }
{
    step_of(alloc, word(value, "Kind")?, value)
}
