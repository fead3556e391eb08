//! What allocations take together.

ghost use Rattle.std.specs.Prelude.{◌≡◌, map};
ghost use Rattle.ns_types.specs.State.Resources.{IsCounted, total};

use ns_types::resources::{Resources, none, plus};
use ns_types::snapshot::LiveAllocation;

/// What the allocations take together.
pub(crate) fn total(allocations: &[&LiveAllocation]) -> Resources
    requires { IsCounted (total (λ a. a.size) (map (λ a. a.now) allocations.now)) }
    ensures { result ≡ total (λ a. a.size) (map (λ a. a.now) allocations.now) }
{
    let mut sum = none();
    for allocation in allocations {
        sum = plus(sum, allocation.size);
    }
    sum
}
