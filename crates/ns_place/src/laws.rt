//! Laws of an order of nodes as they take allocations.

ghost use Rattle.ns_place.specs.Laws.{ChangedAloneIsOrder, NextKeepsOrder};

/// After the next node has taken the size, the order is still right for the nodes.
pub fn next_keeps_order()
    ensures { NextKeepsOrder }
{}

/// If no node is left to try and then one node changes, as by evictions, that node alone is an order.
pub fn changed_alone_is_order()
    ensures { ChangedAloneIsOrder }
{}
