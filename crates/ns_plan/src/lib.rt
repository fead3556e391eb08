//! Decides which parts of a plan still fit the present state. Nomad's page "Scheduling in Nomad", of the plan queue.
#![tactic(auto)]

mod after;
mod checking;
mod deciding;
mod evicting;
mod gathering;
pub mod laws;
mod leaving;
mod loads;
mod stops;
mod taking;
mod view;

pub use checking::{Outcome, check};
pub use evicting::{counts, victims};
pub use stops::{live_stops, stands};
pub use view::View;
