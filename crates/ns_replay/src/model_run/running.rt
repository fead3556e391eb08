//! Makes a list of steps, one after the other.

ghost use Rattle.std.specs.Prelude.{◌≡◌, IfErr, IfOk, Err, true, false};
ghost use Rattle.ns_replay.specs.Running.{RunsOver, is_no_step};

use crate::model_run::steps::Steps;
use ns_types::refusal::Refusal;
use ns_types::reply::Reply;
use ns_types::step::Step;
use std::alloc::Global;

/// The result of making a list of steps.
#[derive(Drop)]
pub struct Ran {
    /// The answers of the steps that were made, in their order. These steps are the first of the list.
    pub answers: Vec<Result<Reply, Refusal>>,
    /// Why the step after them was not made: it was out of turn, or memory was wanting. None: all were made.
    pub stop: Option<Refusal>,
}

/// Whether a call with this refusal made no step.
fn is_no_step(refusal: Refusal) -> bool
    ensures { result ≡ is_no_step refusal }
{
    matches!(refusal, Refusal::Memory | Refusal::NotEnabled)
}

/// The answer, if it is a step's, or else why the call made no step.
fn of_step(answer: Result<Reply, Refusal>) -> Result<Result<Reply, Refusal>, Refusal>
    ensures step { IfOk result (λ given. given ≡ answer) }
    ensures goes { IfOk result (λ given. IfErr given (λ refusal. is_no_step refusal ≡ false)) }
    ensures none { IfErr result (λ refusal. (answer ≡ Err refusal) × (is_no_step refusal ≡ true)) }
{
    match answer {
        Err(refusal) if is_no_step(refusal) => Err(refusal),
        answer => Ok(answer),
    }
}

/// Makes the steps one after the other, until all are made or a call makes none: the step is out of turn, or memory is
/// wanting. The room for all answers is taken first, so each step that was made is answered.
pub fn run<S: Steps>(alloc: Global, server: &mut S, steps: &[Step]) -> Ran
    ensures { RunsOver (S.state server.old) steps.now
        result.answers.items result.stop (S.state server.new) }
{
    let Ok(mut answers) = Vec::with_capacity(alloc, steps.len()) else {
        return Ran {
            answers: Vec::new(alloc),
            stop: Some(Refusal::Memory),
        };
    };
    for step in steps {
        match of_step(server.make(alloc, step)) {
            Ok(answer) => answers.push_reserved(answer),
            Err(refusal) => {
                return Ran {
                    answers,
                    stop: Some(refusal),
                };
            }
        }
    }
    Ran {
        answers,
        stop: None,
    }
}
