//! Keeps a server with the log of what it did: each step with its answer as bytes.
#![tactic(auto)]

mod driven;
mod entry_room;
mod held;
pub mod laws;
mod noting;
mod preparing;
mod rendered;
mod rendering;
mod rotation;
mod work;

pub use entry_room::EntryRoom;
pub use held::Held;
pub use preparing::row_for;
pub use rendering::rendered_in;
pub use work::snapped;
