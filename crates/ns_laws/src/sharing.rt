//! Laws of pools and quotas: which a namespace may use, and which it has to itself.

ghost use Rattle.ns_laws.specs.Sharing.{
  AbsentShares,
  ApartIsConfined,
  ApartKeepsToItsPools,
  ApartNamesItsQuotas,
  ApartPoolsAreItsOwn,
  ApartQuotasAreItsOwn,
  ApartUsesItsPools,
  ConfinedToItsPools,
  ElseAllButDenied,
  HasPoolIfPermitted,
  SharesUnlessAlone,
};

/// A namespace with a list of allowed pools may use its default pool and the pools of the list, and no others.
pub fn confined_to_its_pools()
    ensures { ConfinedToItsPools }
{}

/// A namespace without a list of allowed pools may use exactly the pools that it does not deny.
pub fn else_all_but_denied()
    ensures { ElseAllButDenied }
{}

/// The server says that a namespace may use a pool exactly if the namespace exists and may use it. The pool need not exist.
pub fn has_pool_if_permitted()
    ensures { HasPoolIfPermitted }
{}

/// The server says of a namespace that it does not share exactly if it has a list of allowed pools, no other namespace may use a
/// pool that it may use, and none names its quota.
pub fn shares_unless_alone()
    ensures { SharesUnlessAlone }
{}

/// The server says of a namespace that does not exist that it shares.
pub fn absent_shares()
    ensures { AbsentShares }
{}

/// A namespace that has its pools and its quotas to itself has a list of allowed pools.
pub fn apart_is_confined()
    ensures { ApartIsConfined }
{}

/// A namespace that has its pools and its quotas to itself may use no other pools.
pub fn apart_uses_its_pools()
    ensures { ApartUsesItsPools }
{}

/// No other namespace may use a pool that a namespace has to itself.
pub fn apart_pools_are_its_own()
    ensures { ApartPoolsAreItsOwn }
{}

/// If a namespace that has its pools and its quotas to itself names a quota, it is one of these quotas.
pub fn apart_names_its_quotas()
    ensures { ApartNamesItsQuotas }
{}

/// No other namespace names a quota that a namespace has to itself.
pub fn apart_quotas_are_its_own()
    ensures { ApartQuotasAreItsOwn }
{}

/// A namespace that has its pools and its quotas to itself has nothing left in another pool: its open evaluations, the
/// snapshots that workers keep for it, and its allocations whose client status is `pending` or `running` all name one of its
/// pools.
pub fn apart_keeps_to_its_pools()
    ensures { ApartKeepsToItsPools }
{}
