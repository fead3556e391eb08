//! Laws of what is written as a log, each the contract of a function that does nothing.

ghost use Rattle.ns_pipe.specs.Laws.{RequestedIsAsRead, SegmentsAreReadBack, SettledIsAsRead, WorkedIsAsRead};

use ns_endpoints::Draws;

/// If a request puts a policy, the policy's rules are those that its text says.
pub fn requested_is_as_read<D: Draws>()
    ensures { RequestedIsAsRead D.draws }
{}

/// A step that no request asks for puts no policy.
pub fn worked_is_as_read()
    ensures { WorkedIsAsRead }
{}

/// In a log with which receipts settle, each policy has the rules that its text says, if it has them in the receipts.
pub fn settled_is_as_read()
    ensures { SettledIsAsRead }
{}

/// The text of such a log, in segments or in one, is read back as that log.
pub fn segments_are_read_back()
    ensures { SegmentsAreReadBack }
{}
