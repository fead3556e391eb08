//! Laws of settling, each the contract of a function that does nothing.

ghost use Rattle.ns_log.specs.Laws.{SettledIsNotFaulted, OneFault};

/// If the receipts and the log settle, there is no first fault.
pub fn settled_is_not_faulted()
    ensures { SettledIsNotFaulted }
{}

/// There is at most one first fault.
pub fn one_fault()
    ensures { OneFault }
{}
