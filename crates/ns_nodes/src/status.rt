//! A node that goes down, the allocations that are lost by that, and the evaluations of their jobs.

ghost use Rattle.std.specs.Prelude.{◌≡◌, false};
ghost use Rattle.ns_types.specs.declared.reply.Content.TheVariants as Content;
ghost use Rattle.ns_types.specs.declared.node.NodeStatus.TheVariants as NodeStatus;
ghost use Rattle.ns_types.specs.declared.step.NodeCommand.TheVariants as NodeCommand;
ghost use Rattle.ns_types.specs.Asking.Nodes.{ask_pool, go_down};
ghost use Rattle.ns_types.specs.Settling.Making.{with_node};
ghost use Rattle.ns_types.specs.Settling.Outcome.{Done};
ghost use Rattle.ns_types.specs.Steps.{is_past_bound};
ghost use Rattle.ns_change.specs.Changed.{Does, change_pool, view};
ghost use Rattle.ns_change.specs.Prepared.{Prepares, bounded};
ghost use Rattle.ns_live_index.specs.Index.{IsRight};
ghost use Rattle.ns_nodes.specs.Losing.{numbers_pass};
ghost use Rattle.ns_tables.specs.World.{world_of};

use crate::bounds::loss_passes;
use crate::losing::losing_keys;
use crate::lost::lose;
use ns_change::{Change, Prepared, copied_node, prepare, put_node};
use ns_live_index::Live;
use ns_renewal::renew_each;
use ns_tables::Tables;
use ns_types::evaluation::Trigger;
use ns_types::node::{Node, NodeStatus};
use ns_types::refusal::Refusal;
use ns_types::reply::Content;
use ns_types::text::Text;
use std::alloc::AllocError;

/// Marks the live allocations on the node as lost, and makes an evaluation for each job that had one. The premises are that no
/// namespace was changed before, that each has the numbers for its evaluations, and that the index is right.
fn go_down(
    tables: &Tables,
    live: &Live,
    change: &mut Change,
    pool: &Text,
    name: &Text,
) -> Result<(), AllocError>
    requires first { (view tables.now change.old).tenants ≡ (world_of tables.now).tenants }
    requires numbers { numbers_pass pool.now name.now (world_of tables.now) ≡ false }
    requires right { IsRight (world_of tables.now) live.now }
    ensures { Does result tables.now change.old change.new (go_down pool.now name.now) }
{
    let keys = losing_keys(tables, live, pool, name)?;
    lose(tables, live, change, pool, name)?;
    renew_each(tables, change, keys.as_slice(), Trigger::NodeUpdate)
}

/// Puts the node into its pool, marks the live allocations on it as lost, and makes the evaluations of their jobs.
fn put_down(
    tables: &Tables,
    live: &Live,
    change: &mut Change,
    pool: &Text,
    name: &Text,
    row: Node,
) -> Result<(), AllocError>
    requires first { view tables.now change.old ≡ world_of tables.now }
    requires numbers { numbers_pass pool.now name.now (world_of tables.now) ≡ false }
    requires right { IsRight (world_of tables.now) live.now }
    ensures { Does result tables.now change.old change.new
        (λ w. go_down pool.now name.now (change_pool pool.now (with_node name.now row) w)) }
{
    put_node(tables, change, pool, name, row)?;
    go_down(tables, live, change, pool, name)
}

fn put_down_alone(
    tables: &Tables,
    live: &Live,
    pool: &Text,
    name: &Text,
    row: Node,
) -> Result<Prepared, Refusal>
    requires numbers { numbers_pass pool.now name.now (world_of tables.now) ≡ false }
    requires right { IsRight (world_of tables.now) live.now }
    ensures { let put = change_pool pool.now (with_node name.now row) (world_of tables.now) in
        Prepares (Done Content.Written (go_down pool.now name.now put)) tables.now result }
{
    let mut change = Change::new(tables.alloc);
    let made = put_down(tables, live, &mut change, pool, name, row);
    prepare(Content::Written, change, made)
}

/// Prepares the step in which the node goes down: the live allocations on it are lost, and each job that had one gets an
/// evaluation, by namespace, then job id. `NotFound`: there is no such pool, or no such node in it. `Full`: a counter would
/// pass its bound: the index of a namespace that loses an allocation, the number of its last evaluation, or a counter that the
/// release of its quota raises. Want of memory comes last.
pub fn set_down(tables: &Tables, live: &Live, pool: &Text, name: &Text) -> Result<Prepared, Refusal>
    requires bounds { is_past_bound (world_of tables.now) ≡ false }
    requires right { IsRight (world_of tables.now) live.now }
    ensures { let command = NodeCommand.SetStatus name.now NodeStatus.Down in
        let w = world_of tables.now in
        Prepares (bounded w (ask_pool pool.now command w)) tables.now result }
{
    let Some(row) = tables.node(pool, name) else {
        return Err(Refusal::NotFound);
    };
    if loss_passes(tables, live, pool, name) {
        return Err(Refusal::Full);
    }
    let mut row = copied_node(row)?;
    row.status = NodeStatus::Down;
    put_down_alone(tables, live, pool, name, row)
}
