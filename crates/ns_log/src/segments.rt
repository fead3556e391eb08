//! Decides whether segments, which are logs that were given out, follow each other, and joins them.

mod following;
mod joining;
mod segment;

pub use following::follow;
pub use joining::join;
pub use segment::Segment;
