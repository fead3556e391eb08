//! Laws of refusals: which there are, and which comes first.

ghost use Rattle.ns_audit.specs.Refusals.{
  DeniedWithoutRight,
  DeniedAlike,
  StepsRefuseSo,
  WorkersAreFullOnly,
  IndexIsDemanded,
  FirstRefusalOfRegister,
  RegisterRefusesSo,
};

/// A step is refused `denied` exactly where its secret has no right to it, whatever else would refuse it.
pub fn denied_without_right()
    ensures { DeniedWithoutRight }
{}

/// So the access lists alone decide it: a step that is denied in one state is denied in every state with the same access lists.
pub fn denied_alike()
    ensures { DeniedAlike }
{}

/// The refusals of steps are `denied`, not found, pool not permitted, bad field, conflict, in use and full. A step is refused
/// with no other.
pub fn steps_refuse_so()
    ensures { StepsRefuseSo }
{}

/// A worker's step is refused with no other refusal than `full`, and only where a counter would pass its bound.
pub fn workers_are_full_only()
    ensures { WorkersAreFullOnly }
{}

/// A registration may enforce an index. Zero demands that there is no such job; any other number demands a job with that modify
/// index.
pub fn index_is_demanded()
    ensures { IndexIsDemanded }
{}

/// If there is a reason to refuse a registration (`SpeaksAgainst`), it is refused with such a reason, and no other one that
/// holds comes before it.
pub fn first_refusal_of_register()
    ensures { FirstRefusalOfRegister }
{}

/// If a registration is refused, it is for one of these reasons; or with `full`, where a counter would pass its bound.
pub fn register_refuses_so()
    ensures { RegisterRefusesSo }
{}
