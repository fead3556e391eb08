//! Laws of the steps that requests ask for, which are the steps that are served. Each is the contract of a function that does
//! nothing.

ghost use Rattle.ns_steps.specs.Laws.{ReadingMakes, ReadingRests, ServedDecides, ServedTells};

/// The reply to a step that is served holds what the table of these steps says.
pub fn served_tells()
    ensures { ServedTells }
{}

/// A step that is served is enabled in every state.
pub fn served_decides()
    ensures { ServedDecides }
{}

/// A read leaves the state as it is, whatever it answers.
pub fn reading_rests()
    ensures { ReadingRests }
{}

/// A read that is allowed, in a state whose counters are within their bounds, answers what its own change gives. It answers
/// want of memory only where it would have been answered by a reply.
pub fn reading_makes()
    ensures { ReadingMakes }
{}
