//! Laws of sums: what live allocations use together stays far below 2^64. Also: which fields amounts and limits have.

ghost use Rattle.ns_laws.specs.Sums.{
  LiveUseIsSmall,
  QuotaUseIsSmall,
  NodeLoadIsSmall,
  QuantitiesAreFields,
  LimitsAreFields,
};

/// In a valid state all live allocations of the server together use less than 2^55 of each resource.
pub fn live_use_is_small()
    ensures { LiveUseIsSmall }
{}

/// In a valid state the use of a quota is less than 2^55 of each resource.
pub fn quota_use_is_small()
    ensures { QuotaUseIsSmall }
{}

/// In a valid state the live allocations on a node together use less than 2^55 of each resource.
pub fn node_load_is_small()
    ensures { NodeLoadIsSmall }
{}

/// An amount has as much of a resource as its field of that name says.
pub fn quantities_are_fields()
    ensures { QuantitiesAreFields }
{}

/// A quota limits a resource as its field of that name says.
pub fn limits_are_fields()
    ensures { LimitsAreFields }
{}
