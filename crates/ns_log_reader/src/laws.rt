//! Laws of logs' texts, each the contract of a function that does nothing.

ghost use Rattle.ns_log_reader.specs.Laws.{OneLog, LogHasNoFault, OneFault};

/// Two logs that have the same text have the same secret and the same entries.
pub fn one_log()
    ensures { OneLog }
{}

/// A log's text has no bad line.
pub fn log_has_no_fault()
    ensures { LogHasNoFault }
{}

/// A text has at most one first bad line.
pub fn one_fault()
    ensures { OneFault }
{}
