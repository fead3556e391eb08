//! A node that is removed.

ghost use Rattle.std.specs.Prelude.{◌≡◌, false};
ghost use Rattle.ns_types.specs.declared.step.NodeCommand.TheVariants as NodeCommand;
ghost use Rattle.ns_types.specs.Asking.Nodes.{ask_pool};
ghost use Rattle.ns_types.specs.State.Rows.{is_ready};
ghost use Rattle.ns_types.specs.Steps.{is_past_bound};
ghost use Rattle.ns_change.specs.Prepared.{Prepares, bounded};
ghost use Rattle.ns_tables.specs.World.{world_of};

use ns_change::{Change, Prepared, prepare};
use ns_tables::Tables;
use ns_types::node::NodeStatus;
use ns_types::refusal::Refusal;
use ns_types::reply::Content;
use ns_types::text::Text;

pub(crate) fn is_ready(status: NodeStatus) -> bool
    ensures { result ≡ is_ready status }
{
    match status {
        NodeStatus::Ready => true,
        NodeStatus::Down => false,
    }
}

/// Prepares the removal of the node, which gives no room. `NotFound`: there is no such pool, or no such node in it. `InUse`:
/// the node is not down. Want of memory comes last.
pub fn remove_node(tables: &Tables, pool: &Text, name: &Text) -> Result<Prepared, Refusal>
    requires { is_past_bound (world_of tables.now) ≡ false }
    ensures { let w = world_of tables.now in
        let outcome = ask_pool pool.now (NodeCommand.DeleteNode name.now) w in
        Prepares (bounded w outcome) tables.now result }
{
    let Some(row) = tables.node(pool, name) else {
        return Err(Refusal::NotFound);
    };
    if is_ready(row.status) {
        return Err(Refusal::InUse);
    }
    let mut change = Change::new(tables.alloc);
    let made = ns_change::remove_node(tables, &mut change, pool, name);
    prepare(Content::Written, change, made)
}
