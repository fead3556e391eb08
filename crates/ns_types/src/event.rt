//! Events: one for each changed row.

use crate::text::Text;

#[derive(Drop)]
pub enum Topic {
    JobRegistered(Text),
    JobDeregistered(Text),
    EvaluationUpdated(u64),
    AllocationUpdated(u64),
}

pub struct Event {
    pub index: u64,
    pub topic: Topic,
}

impl Drop for Event {
    fn drop(self) {
        let Event {
            index: _,
            topic: _topic,
        } = self;
    }
}
