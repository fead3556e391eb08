//! Which blocked evaluations a step wakes.

ghost use Rattle.std.specs.Prelude.{◌≡◌, ◌||◌, true};
ghost use Rattle.std.specs.List.{list_any};
ghost use Rattle.ns_release.specs.Released.{does_wake, released_quotas, released_rooms, releases_wake};
ghost use Rattle.ns_release.specs.Released.{releases_wake_at, stays};
ghost use Rattle.ns_tables.specs.World.{world_of};

use crate::asking::{Anything, releases_quota, releases_room};
use ns_change::{Change, ListChange};
use ns_equality::has_key;
use ns_tables::Tables;
use ns_types::evaluation::Evaluation;
use ns_types::key::EvalKey;

/// Whether the step releases anything.
pub fn releases(tables: &Tables, change: &Change) -> bool
    ensures { result ≡ (list_any (λ _. true) (released_rooms (world_of tables.now) change.now)
        || list_any (λ _. true) (released_quotas (world_of tables.now) change.now)) }
{
    releases_room(&Anything, tables, change) || releases_quota(&Anything, tables, change)
}

/// Whether the step's releases wake the evaluation: by its quota if a quota limits it, or else by room in its pool.
fn releases_wake(tables: &Tables, change: &Change, evaluation: &Evaluation) -> bool
    ensures { result ≡ releases_wake (world_of tables.now)
        (released_rooms (world_of tables.now) change.now)
        (released_quotas (world_of tables.now) change.now) evaluation.now }
{
    match &evaluation.quota {
        Some(quota) => tables.has_quota(quota) && releases_quota(evaluation, tables, change),
        None => releases_room(evaluation, tables, change),
    }
}

fn releases_wake_at(tables: &Tables, change: &Change, key: &EvalKey) -> bool
    ensures { result ≡ releases_wake_at (world_of tables.now)
        (released_rooms (world_of tables.now) change.now)
        (released_quotas (world_of tables.now) change.now) key.now }
{
    match tables.evaluation(key.namespace(), key.number()) {
        Some(evaluation) => releases_wake(tables, change, evaluation),
        None => false,
    }
}

/// Whether an entry that was in the list before the step is still in it.
pub fn stays(list: &ListChange, key: &EvalKey) -> bool
    ensures { result ≡ stays list.now key.now }
{
    !has_key(list.taken.as_slice(), key) || has_key(list.added.as_slice(), key)
}

/// Whether the step wakes the entry of `blocked`. It takes no memory.
pub fn does_wake(tables: &Tables, change: &Change, key: &EvalKey) -> bool
    ensures { result ≡ does_wake (world_of tables.now) change.now key.now }
{
    stays(&change.blocked, key) && releases_wake_at(tables, change, key)
}
