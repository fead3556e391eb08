//! Laws of blocked evaluations: one sleeps on only where nothing gave it room, releases are numbered, and none is blocked over
//! a missed release.

ghost use Rattle.ns_laws.specs.Waking.{
  NoneSleepsOverRoom,
  NoneSleepsOverQuota,
  RoomIsNumbered,
  QuotaRoomIsNumbered,
  FollowerMissedNothing,
};

/// An evaluation that no quota limits sleeps through a step. Then no node of its pool got room in the step: each one that is
/// ready and eligible after the step, and of a class that the evaluation may use, was so before, with the same offer, and no
/// live allocation on it ended.
pub fn none_sleeps_over_room()
    ensures { NoneSleepsOverRoom }
{}

/// An evaluation that a quota limits sleeps through a step, and the quota is there before and after it. Then the quota got no
/// room in the step: its limits are the same, and no live allocation that counted in it ended.
pub fn none_sleeps_over_quota()
    ensures { NoneSleepsOverQuota }
{}

/// A node that is ready and eligible after a step either got no room in it, or its pool has one more release than the step's
/// own change left it, and that number is now the one of the node's class.
pub fn room_is_numbered()
    ensures { RoomIsNumbered }
{}

/// A quota that is there before and after a step either got no room in it, or it has one more release than the step's own
/// change left it.
pub fn quota_room_is_numbered()
    ensures { QuotaRoomIsNumbered }
{}

/// A worker ends its evaluation with a follower that is blocked. Then the follower missed no release: the last release of each
/// class of its pool that it may use, or of the quota that limits it, came before the snapshot that the worker kept.
pub fn follower_missed_nothing()
    ensures { FollowerMissedNothing }
{}
