//! A ring of events.

ghost use Rattle.std.specs.Prelude.{◌≡◌, ◌++◌, ◌∷◌, [], IfOk, filter, nat_le};
ghost use Rattle.circular_buffer.specs.Buffer.{buffer, keep_last};
ghost use Rattle.ns_types.specs.State.Lists.{last};

use crate::events::copying::copied;
use circular_buffer::HeapCircularBuffer;
use ns_types::event::Event;
use ns_types::rows::Rows;
use std::alloc::{AllocError, Global};
use std::marker::Model;

/// How many events of a namespace are kept.
const KEPT: usize = 100;

/// The last hundred events of a namespace, the newest last. All the memory of the ring is taken when it is made. Contracts
/// see the list.
pub struct Events {
    ring: HeapCircularBuffer<Event>,
}

impl Drop for Events {
    fn drop(self) {
        let Events { ring: _ring } = self;
    }
}

impl Model for Events {
    ghost use Rattle.std.specs.Prelude.{◌≡◌, List};
    ghost use Rattle.ns_types.specs.declared.event.Event.{Event};

    ghost Value = { List Event };

    ghost view = { λ e. e.ring.items };

    ghost invariant = { λ e. e.ring.capacity ≡ 100 };
}

/// Puts the event at the end. If the ring is full, the oldest event goes.
fn push(ring: &mut HeapCircularBuffer<Event>, event: Event)
    ensures { let capacity = ring.old.capacity in
        ring.new ≡ buffer (keep_last capacity (ring.old.items ++ event ∷ [])) capacity }
{
    ring.push_back(event);
}

/// Puts the events at the end. As many of the last ones stay as there is room for.
fn push_all(ring: &mut HeapCircularBuffer<Event>, events: Rows<Event>)
    ensures items { ring.new.items ≡ last ring.old.capacity (ring.old.items ++ events) }
    ensures capacity { ring.new.capacity ≡ ring.old.capacity }
{
    for event in events.into_vec() {
        push(ring, event);
    }
    let _len = ring.len();
}

impl Events {
    /// No events, with room for a hundred. Want of memory is the only error.
    pub fn new(alloc: Global) -> Result<Events, AllocError>
        ensures { IfOk result (λ events. events ≡ []) }
    {
        let ring = HeapCircularBuffer::with_capacity(alloc, KEPT)?;
        Ok(Events { ring })
    }

    /// Puts the events at the end. The last hundred stay. It takes no memory.
    pub fn append(&mut self, events: Rows<Event>)
        ensures { self.new ≡ last 100 (self.old ++ events) }
    {
        push_all(&mut self.ring, events);
    }

    /// The events whose index is at least that one, the newest last. Want of memory is the only error.
    pub fn from_index(&self, alloc: Global, index: u64) -> Result<Rows<Event>, AllocError>
        ensures { IfOk result (λ kept.
            kept ≡ filter (λ event. nat_le index event.index) self.now) }
    {
        let mut kept = Rows::new(alloc);
        for event in self.ring.iter() {
            if index <= event.index {
                kept.push(copied(event)?)?;
            }
        }
        Ok(kept)
    }
}
