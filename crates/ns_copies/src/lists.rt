//! Copies of the lists of keys.

ghost use Rattle.std.specs.Prelude.{◌≡◌, ◌++◌, IfOk, OnOk, filter};
ghost use Rattle.keyed.specs.Queue.{passing_at};
ghost use Rattle.ns_copies.specs.Chosen.{is_chosen};

use crate::choosing::ChosenNames;
use keyed::{KeyQueue, NumberSlot};
use ns_types::key::EvalKey;
use ns_types::rows::Rows;
use std::alloc::{AllocError, Global};

/// Adds the key of the slot at the end of `keys`, if its namespace is chosen.
fn add_chosen(
    keys: &mut Rows<EvalKey>,
    slot: &NumberSlot<EvalKey>,
    spaces: ChosenNames<'_>,
) -> Result<(), AllocError>
    ensures { OnOk result (keys.new
        ≡ keys.old ++ passing_at (λ key. is_chosen spaces.entry key.0) slot.now) }
{
    if let Some(key) = &slot.1 {
        if spaces.has(key.namespace()) {
            keys.push(key.clone()?)?;
        }
    }
    Ok(())
}

/// The keys of the chosen namespaces, in their order.
fn chosen_keys(
    alloc: Global,
    queue: &KeyQueue,
    spaces: ChosenNames<'_>,
) -> Result<Rows<EvalKey>, AllocError>
    ensures { IfOk result (λ keys.
        keys ≡ filter (λ key. is_chosen spaces.entry key.0) queue.now.items) }
{
    let mut keys = Rows::new(alloc);
    for slot in queue.slots() {
        add_chosen(&mut keys, slot, spaces)?;
    }
    Ok(keys)
}

/// A list of the keys of the chosen namespaces, in their order. Want of memory is the only error.
pub(crate) fn copied_keys(
    alloc: Global,
    queue: &KeyQueue,
    spaces: ChosenNames<'_>,
) -> Result<KeyQueue, AllocError>
    ensures { IfOk result (λ copy.
        copy.items ≡ filter (λ key. is_chosen spaces.entry key.0) queue.now.items) }
{
    let keys = chosen_keys(alloc, queue, spaces)?;
    let mut copy = KeyQueue::new(alloc);
    copy.reserve(keys.as_slice())?;
    copy.append(keys);
    Ok(copy)
}
