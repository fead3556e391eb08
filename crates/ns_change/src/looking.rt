//! Looks rows up as a change leaves them: first in the change, then in the tables. And whether an allocation is live on a
//! node.

ghost use Rattle.std.specs.Prelude.{◌≡◌, option_copied};
ghost use Rattle.ns_types.specs.State.Rows.{allocation_at, evaluation_at, is_live, is_live_on, node_at};
ghost use Rattle.ns_change.specs.Changed.{view};

use crate::change::Change;
use crate::numbered::row;
use ns_equality::same_text;
use ns_tables::Tables;
use ns_types::allocation::Allocation;
use ns_types::evaluation::Evaluation;
use ns_types::node::Node;
use ns_types::text::Text;

/// The evaluation after the change.
pub fn evaluation<'a>(
    tables: &'a Tables,
    change: &'a Change,
    namespace: &Text,
    number: u64,
) -> Option<&'a Evaluation>
    ensures { option_copied result
        ≡ evaluation_at (view tables.now change.now) (namespace.now, number) }
{
    row(tables, change, namespace, number)
}

/// The node after the change.
pub fn node<'a>(
    tables: &'a Tables,
    change: &'a Change,
    pool: &Text,
    name: &Text,
) -> Option<&'a Node>
    ensures { option_copied result ≡ node_at (view tables.now change.now) pool.now name.now }
{
    let Some(rows) = tables.pools.get(pool) else {
        return None;
    };
    match change.pools.get(pool) {
        Some(changed) => rows.nodes.get_over(&changed.nodes, name),
        None => rows.nodes.get(name),
    }
}

/// The allocation after the change.
pub fn allocation<'a>(
    tables: &'a Tables,
    change: &'a Change,
    namespace: &Text,
    number: u64,
) -> Option<&'a Allocation>
    ensures { option_copied result
        ≡ allocation_at (view tables.now change.now) (namespace.now, number) }
{
    row(tables, change, namespace, number)
}

/// Whether the allocation is live and on that node of the pool.
pub fn is_live_on(pool: &Text, node: &Text, allocation: &Allocation) -> bool
    ensures { result ≡ is_live_on pool.now node.now allocation.now }
{
    allocation.is_live() && (same_text(pool, &allocation.pool) && same_text(node, &allocation.node))
}
