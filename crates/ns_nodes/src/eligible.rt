//! A node's eligibility, and a node that is ready again.

ghost use Rattle.std.specs.Prelude.{◌≡◌, false};
ghost use Rattle.ns_types.specs.declared.node.NodeStatus.TheVariants as NodeStatus;
ghost use Rattle.ns_types.specs.declared.step.NodeCommand.TheVariants as NodeCommand;
ghost use Rattle.ns_types.specs.Asking.Nodes.{ask_pool};
ghost use Rattle.ns_types.specs.Steps.{is_past_bound};
ghost use Rattle.ns_change.specs.Prepared.{Prepares, bounded};
ghost use Rattle.ns_tables.specs.World.{world_of};

use crate::bounds::freed_passes;
use crate::prepared::put_alone;
use ns_change::{Prepared, copied_node};
use ns_tables::Tables;
use ns_types::node::NodeStatus;
use ns_types::refusal::Refusal;
use ns_types::text::Text;

/// Prepares a change of the node's eligibility for allocations. `NotFound`: there is no such pool, or no such node in it.
/// `Full`: a counter would pass its bound, because the node gives room. Want of memory comes last.
pub fn set_eligible(
    tables: &Tables,
    pool: &Text,
    name: &Text,
    eligible: bool,
) -> Result<Prepared, Refusal>
    requires { is_past_bound (world_of tables.now) ≡ false }
    ensures { let command = NodeCommand.SetEligible name.now eligible in
        let w = world_of tables.now in
        Prepares (bounded w (ask_pool pool.now command w)) tables.now result }
{
    let Some(row) = tables.node(pool, name) else {
        return Err(Refusal::NotFound);
    };
    if freed_passes(tables, pool, row, row.status, eligible) {
        return Err(Refusal::Full);
    }
    let mut row = copied_node(row)?;
    row.eligible = eligible;
    put_alone(tables, pool, name, row)
}

/// Prepares the node's return to ready, whatever its status was. `NotFound`: there is no such pool, or no such node in it.
/// `Full`: a counter would pass its bound, because the node gives room. Want of memory comes last.
pub fn set_ready(tables: &Tables, pool: &Text, name: &Text) -> Result<Prepared, Refusal>
    requires { is_past_bound (world_of tables.now) ≡ false }
    ensures { let command = NodeCommand.SetStatus name.now NodeStatus.Ready in
        let w = world_of tables.now in
        Prepares (bounded w (ask_pool pool.now command w)) tables.now result }
{
    let Some(row) = tables.node(pool, name) else {
        return Err(Refusal::NotFound);
    };
    if freed_passes(tables, pool, row, NodeStatus::Ready, row.eligible) {
        return Err(Refusal::Full);
    }
    let mut row = copied_node(row)?;
    row.status = NodeStatus::Ready;
    put_alone(tables, pool, name, row)
}
