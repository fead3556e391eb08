//! Prepares registrations and stops of jobs, and reports of nodes' clients about allocations, and answers all reads in a
//! namespace, over the tables of the whole world. A command returns its reply and its own change, and writes nothing.
#![tactic(auto)]

mod allocations;
mod deregistration;
mod ending;
mod evaluations;
mod jobs;
pub mod laws;
mod listing;
mod looking;
mod making;
mod reading;
mod registration;
pub mod report;
mod stopping;
mod usage;

pub use deregistration::deregister;
pub use ending::ending_passes;
pub use looking::{allocation, job};
pub use reading::read;
pub use registration::register;
pub use stopping::stop_allocation;
