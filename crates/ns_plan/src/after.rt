//! The state after a plan's stops, read from the present one: nothing is written. The stops are of one namespace.

ghost use Rattle.std.specs.Prelude.{◌≡◌, ◌<◌, ◌&&◌, [], ℕ, length, not, option_copied, slice_index_or, take};
ghost use Rattle.ns_types.specs.State.Names.{has_key, has_number, same_number};
ghost use Rattle.ns_types.specs.State.Resources.{none, same_resources};
ghost use Rattle.ns_types.specs.State.Rows.{is_live_on};
ghost use Rattle.ns_types.specs.State.Sums.{node_load, quota_use};
ghost use Rattle.ns_plan.specs.After.{after_stops, counted, names, part_of_quota, part_on, shares, stop_keys};
ghost use Rattle.ns_plan.specs.Looks.{AreCounted, if_live, live_at};
ghost use Rattle.ns_plan.specs.Reader.{quota_left};

use crate::view::View;
use ns_place::marking::Marked;
use ns_types::allocation::Allocation;
use ns_types::plan::Eviction;
use ns_types::resources::{Resources, less, none, same_resources};
use ns_types::text::{Text, same_text};

#[tactic(auto, using(crate::proofs::Afterwards::stopped_has))]
fn is_stopped(namespace: &Text, stops: &Marked<'_>, owner: &Text, number: u64) -> bool
    ensures { result ≡ has_key (stop_keys namespace.now stops.now) (owner.now, number) }
{
    same_text(owner, namespace) && stops.has(number)
}

fn if_live<'a>(row: Option<&'a Allocation>) -> Option<&'a Allocation>
    ensures { option_copied result ≡ if_live (option_copied row.entry) }
{
    match row {
        Some(row) if row.is_live() => Some(row),
        _ => None,
    }
}

/// The allocation, if it is live after the stops.
fn live<'a, V: View>(
    view: &'a V,
    namespace: &Text,
    stops: &Marked<'_>,
    owner: &Text,
    number: u64,
) -> Option<&'a Allocation>
    ensures { option_copied result ≡
        live_at (after_stops (V.world view.now) namespace.now stops.now) (owner.now, number) }
{
    if is_stopped(namespace, stops, owner, number) {
        None
    } else {
        if_live(view.allocation(owner, number))
    }
}

fn is_live_on(row: &Allocation, pool: &Text, node: &Text) -> bool
    ensures { result ≡ is_live_on pool.now node.now row.now }
{
    row.is_live() && same_text(pool, &row.pool) && same_text(node, &row.node)
}

fn counts_on(row: &Allocation, pool: &Text, node: &Text, priority: u64) -> bool
    ensures { result ≡ (is_live_on pool.now node.now row.now
        && same_number row.now.priority priority) }
{
    is_live_on(row, pool, node) && row.priority == priority
}

/// The allocation that the eviction evicts, if the eviction counts on the node after the stops.
#[tactic(auto, using(crate::proofs::Afterwards::counted_live))]
pub(crate) fn counted<'a, V: View>(
    view: &'a V,
    namespace: &Text,
    stops: &Marked<'_>,
    pool: &Text,
    node: &Text,
    eviction: &Eviction,
) -> Option<&'a Allocation>
    ensures { option_copied result ≡
        counted (after_stops (V.world view.now) namespace.now stops.now)
        pool.now node.now eviction.now }
{
    match live(view, namespace, stops, &eviction.namespace, eviction.number) {
        Some(row) if counts_on(row, pool, node, eviction.priority) => Some(row),
        _ => None,
    }
}

fn part_on(row: Option<&Allocation>, pool: &Text, node: &Text) -> Resources
    ensures { result ≡ part_on pool.now node.now (option_copied row.entry) }
{
    match row {
        Some(row) if is_live_on(row, pool, node) => row.size,
        _ => none(),
    }
}

fn part_of_quota(named: bool, row: Option<&Allocation>) -> Resources
    ensures { result ≡ part_of_quota named (option_copied row.entry) }
{
    match row {
        Some(row) if named && row.is_live() => row.size,
        _ => none(),
    }
}

fn names<V: View>(view: &V, quota: &Text, namespace: &Text) -> bool
    ensures { result ≡ names (V.world view.now) quota.now namespace.now }
{
    match view.quota(namespace) {
        Some(name) => same_text(quota, name),
        None => false,
    }
}

/// Whether the stop at the place takes something, which is `part`, and its number does not stand earlier in the list. The
/// numbers before it are looked at only if it takes something.
fn takes_first(part: Resources, numbers: &Marked<'_>, place: usize) -> bool
    requires { place < length numbers.now }
    ensures { (d : ℕ) → result ≡ (not (same_resources part none)
        && not (has_number (take place numbers.now) (slice_index_or numbers.now place d))) }
{
    !same_resources(part, none()) && !numbers.stands_earlier(place)
}

/// The node's load after the stops. It costs a look-up for each stop. If the stops do not rise, it also costs, for each stop
/// that takes something from the node, a walk over the stops before it.
pub(crate) fn load<V: View>(
    view: &V,
    namespace: &Text,
    stops: &Marked<'_>,
    pool: &Text,
    node: &Text,
) -> Resources
    requires { AreCounted (V.world view.now) }
    ensures { result ≡ node_load (after_stops (V.world view.now) namespace.now stops.now)
        pool.now node.now }
{
    let mut left = view.load(pool, node);
    let numbers = stops.as_slice();
    for i in 0..numbers.len() {
        let part = part_on(view.allocation(namespace, numbers[i]), pool, node);
        if takes_first(part, stops, i) {
            left = less(left, part);
        }
    }
    left
}

fn used<V: View>(view: &V, namespace: &Text, stops: &Marked<'_>, quota: &Text) -> Resources
    requires { AreCounted (V.world view.now) }
    ensures { result ≡ quota_use (after_stops (V.world view.now) namespace.now stops.now)
        quota.now }
{
    let named = names(view, quota, namespace);
    let mut left = view.used(quota);
    let numbers = stops.as_slice();
    for i in 0..numbers.len() {
        if !stops.stands_earlier(i) {
            left = less(
                left,
                part_of_quota(named, view.allocation(namespace, numbers[i])),
            );
        }
    }
    left
}

/// The quota's use after the stops; zero if there is no quota. It costs a look-up for each stop, and the square of their number
/// if they do not rise.
pub(crate) fn use_of<V: View>(
    view: &V,
    namespace: &Text,
    stops: &Marked<'_>,
    quota: Option<&Text>,
) -> Resources
    requires { AreCounted (V.world view.now) }
    ensures { result ≡ quota_left (after_stops (V.world view.now) namespace.now stops.now)
        (option_copied quota.entry) [] }
{
    match quota {
        Some(quota) => used(view, namespace, stops, quota),
        None => none(),
    }
}

/// Whether there is a quota and the namespace names it.
pub(crate) fn shares<V: View>(view: &V, quota: Option<&Text>, namespace: &Text) -> bool
    ensures { result ≡ shares (V.world view.now) (option_copied quota.entry) namespace.now }
{
    match quota {
        Some(quota) => names(view, quota, namespace),
        None => false,
    }
}
