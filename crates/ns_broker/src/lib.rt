//! Finds the next evaluation, and prepares the steps in which a worker dequeues it, takes its snapshot, submits its plan, and
//! gives it back.
//! Each step is a command over the tables. It returns its reply and its change, or that it is not enabled.
#![tactic(auto)]

pub mod laws;
mod looking;
mod nacking;
mod serving;
mod snapping;
mod snapshot;
mod submitting;
mod taking;

pub use looking::{Busy, first_plan, has_served, phase, row_of, served_ready, worker_at};
pub use nacking::nack;
pub use serving::served;
pub use snapping::{Snapped, snap};
pub use submitting::{keeps, submit};
pub use taking::dequeue;
