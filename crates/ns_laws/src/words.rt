//! Laws of words: the texts that stand for statuses, kinds, targets and members, in documents and in replies.

ghost use Rattle.ns_laws.specs.Words.{
  JobWords,
  EvaluationWords,
  TriggerWords,
  AllocationWords,
  NodeWords,
  ConstraintWords,
  MembersDiffer,
};

/// A job is shown `service` exactly if it is a service job, and `batch` exactly if it is a batch job. It is shown `dead`,
/// `running` or `pending` exactly if that is its status.
pub fn job_words()
    ensures { JobWords }
{}

/// An evaluation is shown `pending`, `blocked`, `complete`, `failed` or `canceled` exactly if that is its status.
pub fn evaluation_words()
    ensures { EvaluationWords }
{}

/// An evaluation is shown `job-register`, `job-deregister`, `node-update`, `alloc-stop`, `alloc-failure`, `preemption`,
/// `queued-allocs` or `max-plan-attempts` exactly if that is why it was made.
pub fn trigger_words()
    ensures { TriggerWords }
{}

/// An allocation is shown `run`, `stop` or `evict` exactly if that is its desired status, and `pending`, `running`,
/// `complete`, `failed` or `lost` exactly if that is its client status.
pub fn allocation_words()
    ensures { AllocationWords }
{}

/// A node is shown `ready` or `down`, and `eligible` or `ineligible`, exactly as it is. A token is shown `client` or
/// `management` exactly as its type is.
pub fn node_words()
    ensures { NodeWords }
{}

/// `=` is written exactly for what demands a value, and `!=` for what forbids it. `${node.class}` is written exactly for a
/// node's class, `${node.unique.name}` for its name, and `${attr.os}` for its attribute `os`.
pub fn constraint_words()
    ensures { ConstraintWords }
{}

/// No two members of documents have the same name, so a refusal of a field names one member.
pub fn members_differ()
    ensures { MembersDiffer }
{}
