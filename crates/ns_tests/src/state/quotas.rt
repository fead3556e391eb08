// What the namespaces of a quota use together.
use crate::state::made::{each, text};
use ns_live_index::Live;
use ns_types::text::Text;
use std::alloc::Global;
use std::process::Abort;

/// Moves the namespace, which uses `used` of each resource, from the quota `before` to the quota `after`.
fn name(
    rt: &impl Abort,
    live: &mut Live,
    namespace: &Text,
    used: u64,
    before: Option<&Text>,
    after: Option<&Text>,
) {
    live.reserve_quota(namespace, after).expect(rt, "memory");
    live.put_quota(namespace, before, after, each(used));
}

fn totals_follow(rt: &impl Abort, alloc: Global, live: &mut Live) -> bool {
    let (ta, tb) = (text(rt, alloc, "ta"), text(rt, alloc, "tb"));
    let (q, r) = (text(rt, alloc, "q"), text(rt, alloc, "r"));
    let mut right = live.quota_use(&q) == each(0);
    name(rt, live, &ta, 100, None, Some(&q));
    name(rt, live, &tb, 20, None, Some(&q));
    right &= live.quota_use(&q) == each(120) && live.quota_use(&r) == each(0);
    name(rt, live, &ta, 100, Some(&q), Some(&r));
    right && live.quota_use(&q) == each(20) && live.quota_use(&r) == each(100)
}

#[test]
fn a_quota_is_used_by_all_that_name_it(rt: HostRuntime) {
    let mut live = Live::new(rt.alloc());
    assert!(rt; totals_follow(&rt, rt.alloc(), &mut live));
}
