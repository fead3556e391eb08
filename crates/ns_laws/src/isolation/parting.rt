//! Laws of a namespace that has its pools and its quotas to itself: what it has is a valid state by itself, and when another
//! namespace's record takes this away.

ghost use Rattle.ns_audit.specs.Parted.{AloneIsValid, DefaultIsPermitted, IntrudesByPermits};

/// In a valid state, let a namespace have its pools and its quotas to itself. Then what it has is a valid state by itself: its
/// rows, its pools, its quotas, its entries of the lists in their order, and all access lists.
pub fn alone_is_valid()
    ensures { AloneIsValid }
{}

/// A namespace whose record is within the limits may use its default pool.
pub fn default_is_permitted()
    ensures { DefaultIsPermitted }
{}

/// So another namespace whose record is within the limits, as each is in a valid state, intrudes exactly where it may use one
/// of the pools or names one of the quotas.
pub fn intrudes_by_permits()
    ensures { IntrudesByPermits }
{}
