//! Laws of one step and of runs.

ghost use Rattle.ns_audit.specs.Steps.{
  OneOutcome,
  RefusalLeavesAll,
  AnswerEachStep,
  RunSplits,
  RunsJoin,
};

/// From a state, a step leads to at most one answer and one next state.
pub fn one_outcome()
    ensures { OneOutcome }
{}

/// A refused step leaves the state as it was.
pub fn refusal_leaves_all()
    ensures { RefusalLeavesAll }
{}

/// A run has as many answers as steps.
pub fn answer_each_step()
    ensures { AnswerEachStep }
{}

/// A run can be cut anywhere: it is a run of its first steps to some state, and from there a run of the rest, with the answers
/// cut likewise.
pub fn run_splits()
    ensures { RunSplits }
{}

/// Two runs, the second from the state in which the first ends, are one run of all their steps with all their answers.
pub fn runs_join()
    ensures { RunsJoin }
{}
