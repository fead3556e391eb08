//! Prepares commands on nodes. Each reads the tables, and returns its reply and its own change. Settling and committing come
//! after, the same for every step. A command is refused here if a counter would pass its bound once the command has settled,
//! before any memory is taken. So a command that is refused for want of memory would otherwise have been done.
#![tactic(auto)]

mod bounds;
mod eligible;
mod listing;
mod losing;
mod lost;
mod prepared;
mod registered;
mod removed;
mod status;

pub use eligible::{set_eligible, set_ready};
pub use listing::list_nodes;
pub use registered::register_node;
pub use removed::remove_node;
pub use status::set_down;
