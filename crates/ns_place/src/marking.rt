//! Marks which numbers stand in a list. The places of a pool's nodes, which are below 1,000, are looked up at once, and any
//! number in a list that rises, as the stops of a plan do, by a binary search. It takes no memory.

mod flags;
mod marked;
mod places;

pub use flags::Flags;
pub use marked::Marked;
pub use places::Places;
