//! Laws of the choice of a node, and of the allocations that are evicted there.

ghost use Rattle.ns_laws.specs.Placement.{
  FitsWhereRoom,
  RoomIsMade,
  HighestIsHighest,
  ChosenIsBest,
  NoneChosenOfNone,
  EvictableAreLower,
  EvictableInOrder,
  EvictableAreAll,
  VictimsAreFewest,
  FewestAreVictims,
  NoVictimsNoRoom,
  EvictedCostLeast,
  NoneEvictedOfNone,
  RoomBeforeVictims,
  NoChoiceOfNone,
};

/// A node fits exactly where the job may use it and the size is at most what is left there, in each resource.
pub fn fits_where_room()
    ensures { FitsWhereRoom }
{}

/// Some allocations of a node make room exactly where the size is at most what is left on the node and what they take together,
/// in each resource.
pub fn room_is_made()
    ensures { RoomIsMade }
{}

/// The highest priority of some allocations is the priority of one of them, and none of them has a higher one.
pub fn highest_is_highest()
    ensures { HighestIsHighest }
{}

/// The chosen node fits, and no node that fits has less left: less CPU, then less memory, then less disk, then the lesser name.
pub fn chosen_is_best()
    ensures { ChosenIsBest }
{}

/// If no node is chosen for its room, no node fits.
pub fn none_chosen_of_none()
    ensures { NoneChosenOfNone }
{}

/// Each allocation that may be evicted has a priority that is lower than the job's by 10 or more.
pub fn evictable_are_lower()
    ensures { EvictableAreLower }
{}

/// The allocations that may be evicted are in ascending order of priority.
pub fn evictable_in_order()
    ensures { EvictableInOrder }
{}

/// At each priority that is lower than the job's by 10 or more, all of the node's live allocations may be evicted, the one
/// placed last first.
pub fn evictable_are_all()
    ensures { EvictableAreAll }
{}

/// If a node has victims, the job may use it, and the victims are the shortest prefix of the allocations that may be evicted
/// there that makes room.
pub fn victims_are_fewest()
    ensures { VictimsAreFewest }
{}

/// Conversely, if the job may use a node, the shortest prefix of the allocations that may be evicted there that makes room is
/// the node's victims.
pub fn fewest_are_victims()
    ensures { FewestAreVictims }
{}

/// If a node that the job may use has no victims, no prefix of the allocations that may be evicted there makes room.
pub fn no_victims_no_room()
    ensures { NoVictimsNoRoom }
{}

/// The node that is chosen for its victims has victims, and no other node's cost less: by their highest priority, then by their
/// number, then by the node's name.
pub fn evicted_cost_least()
    ensures { EvictedCostLeast }
{}

/// If no node is chosen for its victims, no node has victims.
pub fn none_evicted_of_none()
    ensures { NoneEvictedOfNone }
{}

/// The choice is the best node with room, without victims. If no node has room, it is the node whose victims cost least, with
/// these victims.
pub fn room_before_victims()
    ensures { RoomBeforeVictims }
{}

/// If there is no choice, no node has room, and no node has victims.
pub fn no_choice_of_none()
    ensures { NoChoiceOfNone }
{}
