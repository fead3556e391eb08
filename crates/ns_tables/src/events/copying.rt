//! Copies of events.

ghost use Rattle.std.specs.Prelude.{◌≡◌, IfOk};

use ns_types::event::{Event, Topic};
use std::alloc::AllocError;

fn copied_topic(topic: &Topic) -> Result<Topic, AllocError>
    ensures { IfOk result (λ copy. copy ≡ topic.now) }
{
    match topic {
        Topic::JobRegistered(id) => Ok(Topic::JobRegistered(id.clone()?)),
        Topic::JobDeregistered(id) => Ok(Topic::JobDeregistered(id.clone()?)),
        Topic::EvaluationUpdated(number) => Ok(Topic::EvaluationUpdated(*number)),
        Topic::AllocationUpdated(number) => Ok(Topic::AllocationUpdated(*number)),
    }
}

pub(crate) fn copied(event: &Event) -> Result<Event, AllocError>
    ensures { IfOk result (λ copy. copy ≡ event.now) }
{
    Ok(Event {
        index: event.index,
        topic: copied_topic(&event.topic)?,
    })
}
