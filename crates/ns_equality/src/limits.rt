//! The limits of quotas.

ghost use Rattle.std.specs.Prelude.{◌≡◌, not};
ghost use Rattle.ns_types.specs.State.Resources.{limits_in, same_limits};

use ns_types::records::Quota;
use ns_types::resources::{Limits, same_limits, unlimited};

/// The limits of a quota. A quota without an entry limits nothing.
pub fn limits_in(quota: &Quota) -> Limits
    ensures { result ≡ limits_in quota.now.limits }
{
    match quota.limits {
        Some(limits) => limits,
        None => unlimited(),
    }
}

/// Whether the second record of a quota has other limits than the first.
pub fn changes_limits(old: &Quota, new: &Quota) -> bool
    ensures { result ≡ not (same_limits (limits_in old.now.limits) (limits_in new.now.limits)) }
{
    let limits = limits_in(new);
    !same_limits(limits_in(old), limits)
}
