//! Decides when a step that ends allocations would pass the bound of a counter.
//!
//! The laws decide it for any such step by the worlds before and after it, and for a step that otherwise only counts by
//! the world before it. `Headroom` judges what ends before anything is written, and with it all that is done of a plan,
//! except the numbers of the evaluations that jobs get. It takes no memory.

mod applying;
mod ending;
mod evicting;
pub mod laws;

pub use applying::own_part_passes;
pub use ending::Headroom;
pub use evicting::lost_part_passes;
