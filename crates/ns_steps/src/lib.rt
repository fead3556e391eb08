//! Lists the steps that requests ask for, and what the reply to each holds. `work` names the steps of a worker, and `chain` is
//! about steps that are made one after the other on a server.
#![tactic(auto)]

pub mod chain;
pub mod laws;
pub mod work;
