//! Says, as laws, what isolation promises to a namespace that has its pools and its quotas to itself. Each law is the contract
//! of a function that does nothing.

pub mod parting;
pub mod staying;
pub mod steps;
