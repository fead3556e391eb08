//! Makes an evaluation for each job that loses allocations with a node or by preemption, in whichever namespace it is.
#![tactic(auto)]

mod counted;
mod evictions;
mod laws;
mod losing;
mod losses;
mod making;
mod numbers;
mod renewing;

pub use counted::{CountedEvictions, CountsEviction};
pub use evictions::Evictions;
pub use laws::{numbers_suffice, once_is_enough, once_needs_no_more, rows_before_stops};
pub use making::make_up;
pub use numbers::numbers_pass;
pub use renewing::renew_each;
