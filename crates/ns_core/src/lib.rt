//! The server as one value: each call is a step of the model.
#![tactic(auto)]

mod administration;
mod asks;
mod copies;
mod driven;
mod nodes;
mod parts;
mod rights;
mod server;
mod workers;

pub use server::Core;
