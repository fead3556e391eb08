//! A server that makes steps, as its callers see it.

/// A value that stands for a state of the model. A step that it makes may leave more than the next state, such as an entry of a
/// log.
pub trait Server {
    ghost use Rattle.ns_types.specs.declared.step.Step.{Step};
    ghost use Rattle.ns_types.specs.State.Rows.{State};
    ghost use Rattle.ns_types.specs.Steps.{Answer};

    // The state that the value stands for.
    ghost state: { Self → State };

    // What else holds of a step that was made with that answer.
    ghost notes: { Self → Step → Answer → Self → Type 0 };
}
