//! Namespaces whose index is at its bound, so that it can not rise any more.

ghost use Rattle.std.specs.Prelude.{◌≡◌, false};
ghost use Rattle.ns_counters.specs.Bounds.{any_last_index, is_last_index};
ghost use Rattle.ns_tables.specs.World.{world_of};

use ns_tables::{Tables, is_at_bound};
use ns_types::text::Text;

/// Whether the namespace's index is at its bound.
pub fn is_last_index(tables: &Tables, namespace: &Text) -> bool
    ensures { result ≡ is_last_index (world_of tables.now) namespace.now }
{
    match tables.tenants.get(namespace) {
        Some(tenant) => is_at_bound(tenant.index),
        None => false,
    }
}

/// Whether an index may pass its bound because evaluations wake. If not, no blocked evaluation is of a namespace whose index
/// is at its bound. It goes through nothing: the table of namespaces remembers whether an index ever was at its bound.
pub fn wakes_may_pass(tables: &Tables) -> bool
    ensures { result ≡ false → any_last_index (world_of tables.now) ≡ false }
{
    tables.tenants.may_be_at_bound()
}
