//! Makes the step of a request and writes its response, and drives a worker after it.
#![tactic(auto)]

mod answering;
mod cores;
mod following;
pub mod laws;
mod responding;
mod serving;

pub use answering::{Api, Takes};
pub use cores::{close, close_held, open, open_held};
pub use following::{Driven, Driver, Follows, NoFollower};
pub use responding::respond;
pub use serving::serve;
