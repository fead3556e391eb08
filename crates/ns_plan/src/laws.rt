//! Laws of checking a plan: deciding node by node needs no state but the one after the stops, sums can be counted, and plans
//! have bounded lengths and nodes of their snapshot.

ghost use Rattle.ns_plan.specs.Laws.{KeptIsBounded, KeptIsOnFewNodes, ReadingDecides, SoundIsCounted};

/// Deciding all nodes before anything is written gives the same result as taking each node's victims out of the state at once,
/// as the model does.
pub fn reading_decides()
    ensures { ReadingDecides }
{}

/// In a valid world the load of each node and the use of each quota can be counted.
pub fn sound_is_counted()
    ensures { SoundIsCounted }
{}

/// The plan of each snapshot that a valid state keeps has at most 16,000 placements.
pub fn kept_is_bounded()
    ensures { KeptIsBounded }
{}

/// The plan of each snapshot that a valid state keeps is on at most 1,000 nodes, all of them of the snapshot, where
/// none stands twice.
pub fn kept_is_on_few_nodes()
    ensures { KeptIsOnFewNodes }
{}
