//! Decides which evictions of a plan have a victim. It takes no memory.

use crate::view::Present;
use ns_place::marking::{Marked, Places};
use ns_plan::counts;
use ns_renewal::CountsEviction;
use ns_types::plan::{Eviction, Placement};
use ns_types::snapshot::Snapshot;

/// The committed nodes of a plan, with what its evictions are looked up in.
#[derive(Clone, Copy)]
pub(crate) struct Evicting<'a> {
    pub(crate) present: &'a Present<'a>,
    pub(crate) snapshot: &'a Snapshot,
    pub(crate) stops: &'a Marked<'a>,
    /// The places of the committed nodes in the snapshot.
    pub(crate) nodes: &'a Places<'a>,
}

impl<'a> CountsEviction for Evicting<'a> {
    ghost use Rattle.ns_plan.specs.After.{after_stops};
    ghost use Rattle.ns_applier.specs.Losing.{is_victim};

    ghost passes = { λ e. is_victim (after_stops e.present.now e.snapshot.now.namespace e.stops.now)
        e.snapshot.now e.nodes.now };

    fn counts(&self, placement: &Placement, eviction: &Eviction) -> bool {
        let node = placement.node;
        node < self.snapshot.nodes.as_slice().len() as u64
            && self.nodes.has(node)
            && counts(self.present, self.snapshot, self.stops, node, eviction)
    }
}
