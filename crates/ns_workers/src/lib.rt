//! Runs workers that plan side by side, and the applier that applies their plans and rotates the log, as loops over the calls of a
//! shared server.
#![tactic(auto)]

mod applying;
mod gate;
mod halt;
mod keep;
mod pausing;
mod turn;
mod working;

pub use applying::applier;
pub use gate::{Gate, Open, Point};
pub use keep::{Keep, KeepsNothing};
pub use working::worker;
