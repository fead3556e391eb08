//! Makes any step of the model by one call, and a list of steps by another.

mod planned;
mod running;
mod stepping;
mod steps;

pub use running::{Ran, run};
pub use stepping::step;
pub use steps::Steps;
