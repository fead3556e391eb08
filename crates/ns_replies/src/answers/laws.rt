//! The law that the room of a step is enough, as the contract of a function that does nothing.

ghost use Rattle.ns_replies.specs.Laws.{MadeHasRoom};

/// The room of a step that may change something is enough for the body of its reply.
pub fn made_has_room()
    ensures { MadeHasRoom }
{}
