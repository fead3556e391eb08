//! Shows the present state to the plan applier: the tables of the world with the index of live allocations.

mod looking;
mod present;

pub use present::Present;
