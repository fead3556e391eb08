//! Puts the changes of the three lists into them.

ghost use Rattle.std.specs.Prelude.{◌≡◌, OnOk};
ghost use Rattle.keyed.specs.Queue.{CanAdd};
ghost use Rattle.ns_change.specs.Changed.{changed_list};

use keyed::KeyQueue;
use ns_change::ListChange;
use std::alloc::AllocError;

/// Makes room for the new entries.
pub(crate) fn reserve_list(list: &mut KeyQueue, change: &ListChange) -> Result<(), AllocError>
    ensures items { list.new.items ≡ list.old.items }
    ensures room { OnOk result (CanAdd change.now.added list.new) }
{
    list.reserve(change.added.as_slice())
}

/// Takes the entries out that leave, and puts the new ones at the end. It takes no memory.
pub(crate) fn commit_list(list: &mut KeyQueue, change: ListChange)
    requires { CanAdd change.added list.old }
    ensures { list.new.items ≡ changed_list list.old.items change }
{
    let ListChange { taken, added } = change;
    list.take_out(taken.as_slice());
    list.append(added);
    list.clear_room(taken.as_slice());
}

/// Gives the room for the new entries back.
pub(crate) fn clear_list(list: &mut KeyQueue, change: &ListChange)
    ensures { list.new.items ≡ list.old.items }
{
    list.clear_room(change.added.as_slice());
}
