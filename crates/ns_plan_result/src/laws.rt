//! Laws of what an Apply writes.

ghost use Rattle.ns_plan_result.specs.Writing.{EvictingIsDeciding};

/// Evicting the victims of the nodes that do their part, once these nodes are known, leaves the world that deciding node by
/// node leaves.
pub fn evicting_is_deciding()
    ensures { EvictingIsDeciding }
{}
