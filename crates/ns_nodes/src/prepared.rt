//! Changes of one node.

ghost use Rattle.std.specs.Prelude.{◌≡◌};
ghost use Rattle.ns_types.specs.declared.reply.Content.TheVariants as Content;
ghost use Rattle.ns_types.specs.Settling.Making.{with_node};
ghost use Rattle.ns_types.specs.Settling.Outcome.{Done};
ghost use Rattle.ns_change.specs.Changed.{change_pool};
ghost use Rattle.ns_change.specs.Prepared.{Prepares};
ghost use Rattle.ns_tables.specs.World.{world_of};

use ns_change::{Change, Prepared, prepare, put_node};
use ns_tables::Tables;
use ns_types::node::Node;
use ns_types::refusal::Refusal;
use ns_types::reply::Content;
use ns_types::text::Text;

/// Prepares a put of the node into its pool. Nothing else changes.
pub(crate) fn put_alone(
    tables: &Tables,
    pool: &Text,
    name: &Text,
    row: Node,
) -> Result<Prepared, Refusal>
    ensures { Prepares (Done Content.Written
        (change_pool pool.now (with_node name.now row) (world_of tables.now))) tables.now result }
{
    let mut change = Change::new(tables.alloc);
    let made = put_node(tables, &mut change, pool, name, row);
    prepare(Content::Written, change, made)
}
