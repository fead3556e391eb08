//! Keeps the last hundred events of a namespace, in a ring.

mod copying;
mod kept;

pub use kept::Events;
