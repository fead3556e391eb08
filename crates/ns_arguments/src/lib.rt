//! Reads the values of the program's arguments. It does not need `clap`, which finds them.
#![tactic(auto)]

mod alone;
mod number;
mod serve;

pub use alone::{count, names};
pub use serve::{accept, connections, idle, log_limit, rotate, rotate_bytes, secret, workers};
