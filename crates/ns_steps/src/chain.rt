//! Chains: steps made one after the other on a server whose value stands for a state of the model and may keep more than that,
//! such as a log.

pub mod laws;
mod server;

pub use server::Server;
