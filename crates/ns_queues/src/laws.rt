//! Laws on which the indexes of this crate rest.

ghost use Rattle.ns_queues.specs.Work.{AdministrationKeepsWork};

/// In a valid state, a command of an administrator leaves the busy workers, the lists and the evaluations in the lists as they
/// are.
pub fn administration_keeps_work()
    ensures { AdministrationKeepsWork }
{}
