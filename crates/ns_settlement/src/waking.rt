//! The evaluations that a step wakes.

ghost use Rattle.std.specs.Prelude.{◌≡◌, IfOk};
ghost use Rattle.ns_release.specs.Released.{released_quotas, released_rooms, woken_keys};
ghost use Rattle.ns_queues.specs.Turns.{IsRight};
ghost use Rattle.ns_tables.specs.World.{world_of};

use crate::reached::woken_through;
use crate::rooms::ReleasedClass;
use ns_change::Change;
use ns_queues::{Turns, blocked_list};
use ns_tables::Tables;
use ns_types::key::EvalKey;
use ns_types::rows::Rows;
use ns_types::text::Text;
use std::alloc::AllocError;

/// The entries of `blocked`, before the step and after its own change, that its releases wake, in the list's order. It looks
/// them up by what is released. If the index for that is not known to be right, it first makes one from the tables. Want of
/// memory is the only error.
pub fn woken_keys(
    tables: &Tables,
    turns: &Turns,
    change: &Change,
    rooms: &Rows<ReleasedClass>,
    released: &Rows<Text>,
) -> Result<Rows<EvalKey>, AllocError>
    requires right { IsRight (world_of tables.now) turns.now }
    requires rooms { rooms.now ≡ released_rooms (world_of tables.now) change.now }
    requires quotas { released.now ≡ released_quotas (world_of tables.now) change.now }
    ensures { IfOk result (λ keys. keys ≡ woken_keys (world_of tables.now) change.now) }
{
    if rooms.as_slice().is_empty() && released.as_slice().is_empty() {
        return Ok(Rows::new(tables.alloc));
    }
    if turns.is_known() {
        return woken_through(tables, turns.blocked(), change, rooms, released);
    }
    let list = blocked_list(tables)?;
    woken_through(tables, &list, change, rooms, released)
}
