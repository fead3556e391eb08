//! The part of a plan that is done.

use ns_place::marking::Places;
use ns_tables::Tables;
use ns_types::plan::Plan;
use ns_types::snapshot::Snapshot;

/// A plan of which some nodes do their part, over the tables as they were before the step.
#[derive(Clone, Copy)]
pub struct Committed<'a> {
    pub tables: &'a Tables,
    /// What the plan was made from.
    pub snapshot: &'a Snapshot,
    pub plan: &'a Plan,
    /// The places in the snapshot of the nodes that do their part.
    pub nodes: &'a Places<'a>,
}
