//! Drives one worker: it dequeues the next ready evaluation, plans it, has the plan applied, and finishes the evaluation.
#![tactic(auto)]

mod driving;
mod due;
mod kept;
mod stopping;
mod turn;
mod worker_step;
mod works;

pub use driving::drive;
pub use kept::Kept;
pub use stopping::Stop;
pub use worker_step::WorkerStep;
pub use works::Works;
