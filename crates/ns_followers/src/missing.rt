//! Whether a follower has missed a release since the snapshot that it was planned from.

ghost use Rattle.std.specs.Prelude.{◌≡◌, ◌&&◌, nat_lt};
ghost use Rattle.std.specs.Option.{option_map_or};
ghost use Rattle.std.specs.FinMap.{find, get};
ghost use Rattle.std.specs.List.{list_any};
ghost use Rattle.ns_types.specs.Settling.Releases.{can_use, is_quota_since, is_room_since, missed};
ghost use Rattle.ns_types.specs.State.Names.{class_cmp};
ghost use Rattle.ns_followers.specs.Missing.{is_new};
ghost use Rattle.ns_tables.specs.World.{world_of};

use ns_equality::{may_use, same_class};
use ns_tables::Tables;
use ns_types::evaluation::Evaluation;
use ns_types::node::Class;
use ns_types::snapshot::Snapshot;
use ns_types::text::Text;

/// The number of the class's last release.
fn number_of(releases: &[(Class, u64)], class: &Class) -> Option<u64>
    ensures { result ≡ find class_cmp class.now releases.now }
{
    for release in releases {
        if same_class(class, &release.0) {
            return Some(release.1);
        }
    }
    None
}

/// Whether the class of this release was released after the number `seen`, and the evaluation can use it.
fn is_new(
    releases: &[(Class, u64)],
    seen: u64,
    evaluation: &Evaluation,
    release: &(Class, u64),
) -> bool
    ensures { result ≡ is_new releases.now seen evaluation.now release.now }
{
    let infeasible = evaluation.infeasible.as_slice();
    if seen >= release.1 || !may_use(evaluation.escapes, infeasible, &release.0) {
        return false;
    }
    match number_of(releases, &release.0) {
        Some(number) => seen < number,
        None => false,
    }
}

fn any_new(releases: &[(Class, u64)], seen: u64, evaluation: &Evaluation) -> bool
    ensures { result ≡ list_any (is_new releases.now seen evaluation.now) releases.now }
{
    releases
        .iter()
        .any(|release| is_new(releases, seen, evaluation, release))
}

/// Whether a class that the evaluation can use was released in its pool after the number `seen`.
fn is_room_since(tables: &Tables, seen: u64, evaluation: &Evaluation) -> bool
    ensures { let e = evaluation.now in
        result ≡ is_room_since (world_of tables.now) seen e.pool (can_use e) }
{
    match tables.pools.get(&evaluation.pool) {
        Some(pool) => any_new(pool.classes.as_slice(), seen, evaluation),
        None => false,
    }
}

/// The number of the quota's last release in the snapshot; zero if the snapshot has no quota.
fn release_seen(kept: &Snapshot) -> u64
    ensures { result ≡ option_map_or (λ q. q.release) kept.now.quota 0 }
{
    match &kept.quota {
        Some(quota) => quota.release,
        None => 0,
    }
}

/// The number of the quota's last release; zero if there is no such quota.
fn release_of(tables: &Tables, quota: &Text) -> u64
    ensures { let quotas = (world_of tables.now).quotas in
        result ≡ option_map_or (λ q. q.release) (get quotas quota.now) 0 }
{
    match tables.quotas.get(quota) {
        Some(quota) => quota.release,
        None => 0,
    }
}

/// Whether the quota was released after the snapshot.
fn is_quota_since(tables: &Tables, kept: &Snapshot, quota: &Text) -> bool
    ensures { result ≡ is_quota_since (world_of tables.now) kept.now quota.now }
{
    release_seen(kept) < release_of(tables, quota)
}

/// Whether a release after the snapshot would have woken the follower: of the quota that limits it, or else of a class
/// in its pool that it can use. It takes no memory.
#[tactic(auto, unfolding(ns_types::specs::Settling::Releases::missed))]
pub fn missed(tables: &Tables, kept: &Snapshot, follower: &Evaluation) -> bool
    ensures { result ≡ missed (world_of tables.now) kept.now follower.now }
{
    match &follower.quota {
        Some(quota) => is_quota_since(tables, kept, quota),
        None => is_room_since(tables, kept.release, follower),
    }
}
