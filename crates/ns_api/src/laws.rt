//! Laws of the definitions, each the contract of a function that does nothing.
ghost use Rattle.std.specs.Prelude.{List};
ghost use Rattle.ns_types.specs.State.Rows.{State};
ghost use Rattle.ns_types.specs.Wire.Responses;
ghost use Rattle.ns_types.specs.Wire.Responses.{Exchange};
ghost use Rattle.ns_work_log.specs.Logs.{History};
ghost use Rattle.ns_api.specs.declared.following.Driver.{Driver};
ghost use Rattle.ns_api.specs.Answering.{Holding};
ghost use Rattle.ns_api.specs.Cores.{AnswersByCore, AnswersByHeld, RunsByCore, RunsByHeld};

use ns_endpoints::Draws;

/// The answers to a connection with a server are those of a chain of steps, and so of a run of the model: the steps that its
/// requests ask for, in their order, without the requests that made no step, and after each request the steps that followed it.
/// Random bits are drawn in this order.
pub fn answers_are_a_run<D: Draws>()
    ensures without_log { (old new : Holding State D Driver) (exchanges : List Exchange) →
        Responses.Answers (AnswersByCore D.draws) old exchanges new →
        RunsByCore D.draws old exchanges new }
    ensures with_log { (old new : Holding History D Driver) (exchanges : List Exchange) →
        Responses.Answers (AnswersByHeld D.draws) old exchanges new →
        RunsByHeld D.draws old exchanges new }
{}
