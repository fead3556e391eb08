//! Replays a log: all of it on the whole server, and a namespace's own steps on the server that holds the namespace alone,
//! with its pools and its quotas. `model_run` makes any step of the model, and `rerun` repeats the entries of a log.
#![tactic(auto)]

mod claim;
mod entry;
mod fault;
pub mod laws;
pub mod model_run;
mod own;
mod premises;
mod replay;
pub mod rerun;

pub use fault::ReplayFault;
pub use own::is_own;
pub use replay::replay_alone;
