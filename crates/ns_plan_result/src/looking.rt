//! Places of nodes, and their names.

ghost use Rattle.std.specs.Prelude.{◌≡◌, []};
ghost use Rattle.ns_types.specs.Working.Commit.{node_name};

use ns_types::snapshot::Snapshot;
use ns_types::text::Text;

/// The name of the node at that place of the snapshot, or the nameless text where there is none.
pub(crate) fn node_name<'a>(snapshot: &'a Snapshot, place: u64, nameless: &'a Text) -> &'a Text
    requires { nameless.now ≡ [] }
    ensures { result.now ≡ node_name snapshot.now place }
{
    match snapshot.nodes.as_slice().get(place as usize) {
        Some(node) => &node.get().name,
        None => nameless,
    }
}
