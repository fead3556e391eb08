//! Answers a connection by steps of a server that threads share.

mod serving;
mod shared_seat;

pub use serving::{Client, serve};
pub use shared_seat::SharedSeat;
