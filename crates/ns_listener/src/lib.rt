//! Runs a server on a TCP port, and settles what its threads did against its log when it ends. `clients` answers a connection by
//! steps of the server that the threads share.
#![tactic(auto)]

mod accept_limit;
pub mod clients;
mod closing;
mod connection_threads;
mod connections;
mod context;
mod duty;
mod fault;
mod keeper;
mod leaving;
mod listener;
mod opening;
mod seating;
mod secret;
mod segments;
mod service;
mod serving;
mod start;
mod threads;

pub use listener::Listener;
pub use service::Service;
pub use serving::serve;
