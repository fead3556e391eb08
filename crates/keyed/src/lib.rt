//! Keeps tables by key, in plain sorted `Vec`s, which contracts see as finite maps from keys to slots. If there are many
//! names, an `indexmap` finds the place of each.
//! A slot has a row, or is vacant: room for a row, made before it is needed. Sets of keys and queues are here too.
#![tactic(auto)]

mod index;
mod key_set;
mod names;
mod number_places;
mod numbers;
mod owner_table;
mod place_set;
mod placed_rows;
mod queue;
mod series;
mod slots;

pub use key_set::KeySet;
pub use names::{NameSlot, NameTable};
pub use numbers::{NumberSlot, NumberTable};
pub use owner_table::{Bounded, OwnerTable};
pub use placed_rows::Keyed;
pub use queue::{KeyQueue, Queue};
pub use series::Series;
