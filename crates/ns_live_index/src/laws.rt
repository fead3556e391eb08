//! Laws on which the index of live allocations rests.

ghost use Rattle.ns_live_index.specs.Laws.{AdministrationKeepsRight, EmptyIsRightAtFirst, SoundLoadsFit};

/// An index of no keys that shows no node and holds no quota is right for the opening world.
pub fn empty_is_right_at_first()
    ensures { EmptyIsRightAtFirst }
{}

/// An index that is right stays so over requests of administrators, if it follows which namespaces name which quota: they
/// delete no namespace that has a live allocation, and change no node.
pub fn administration_keeps_right()
    ensures { AdministrationKeepsRight }
{}

/// In a sound world the load of each node fits 64 bits, also of a node that does not exist: nothing is live on it.
pub fn sound_loads_fit()
    ensures { SoundLoadsFit }
{}
