//! Counters that can not rise any more: indexes of namespaces, release numbers of pools.

ghost use Rattle.std.specs.Prelude.{◌≡◌};
ghost use Rattle.ns_tables.specs.Bound.{is_at_bound};

use crate::tables::{PoolRows, TenantRows};
use keyed::Bounded;

/// Whether a counter can not rise any more.
pub fn is_at_bound(count: u64) -> bool
    ensures { result ≡ is_at_bound count }
{
    count == u64::MAX
}

/// Whether the namespace's index can not rise any more.
impl Bounded for TenantRows {
    ghost at_bound = { λ t. is_at_bound t.index };

    fn is_at_bound(&self) -> bool {
        is_at_bound(self.index)
    }
}

/// Whether the pool's release number can not rise any more.
impl Bounded for PoolRows {
    ghost at_bound = { λ p. is_at_bound p.release };

    fn is_at_bound(&self) -> bool {
        is_at_bound(self.release)
    }
}
