//! Laws of administrators' steps, each the contract of a function that does nothing.

ghost use Rattle.ns_admin.specs.Laws.{AdministrationMakes, AdministrationSettles, AdministrationStaysWithin};

/// A step of an administrator, unless it puts a quota with other limits, settles as it is, in every world.
pub fn administration_settles()
    ensures { AdministrationSettles }
{}

/// No counter passes its bound by a step of an administrator, of whatever kind, before the step settles.
pub fn administration_stays_within()
    ensures { AdministrationStaysWithin }
{}

/// If no counter is past its bound, a step of an administrator, unless it puts a quota with other limits, replies what its
/// change says, and leaves the world that its change leaves.
pub fn administration_makes()
    ensures { AdministrationMakes }
{}
