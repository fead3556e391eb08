//! Holds what a step changes, as one value: for each namespace and pool the rows that the step writes or removes and the
//! numbers that it gives, the new records of quotas, and what leaves each of the three lists and what is appended to it. Its
//! meaning is `changed`, from the world before to the world that the step itself makes. The tables are read and never written
//! here. So a step that is refused, or finds no memory, drops its change, and nothing has happened.
//!
//! Each method is one function of the model, over the world as the change leaves it: it looks at the change's own rows
//! first, then at the tables'. A change has no index, event or release; settling makes a second value that has them.
#![tactic(auto)]

mod change;
mod copying;
mod editing;
mod evicting;
mod following;
mod jobs;
mod lists;
mod looking;
mod numbered;
mod placing;
mod preparing;
mod promoting;
mod queueing;
mod records;
mod renewing;
mod workers;

pub use change::{Change, ListChange, PoolChange, Prepared, Settled, SettledTenant, TenantChange};
pub use copying::{copied_allocation, copied_node, copied_offer};
pub use editing::set_status;
pub use evicting::{set_client, set_desired};
pub use following::{add_evaluation, set_follower};
pub use jobs::{put_job, remove_job};
pub use lists::{add_blocked, add_plan, add_ready, take_blocked, take_plan, take_ready};
pub use looking::{allocation, evaluation, is_live_on, node};
pub use numbered::{NumberedRow, put_row, row};
pub use placing::{add_allocation, count_place, put_node, remove_node};
pub use preparing::prepare;
pub use promoting::{cancel_blocked, promote, unlist_blocked};
pub use queueing::{make, queue, wake};
pub use records::put_quota;
pub use renewing::evaluation_for;
pub use workers::remove_worker;
