//! Copies the tables: all of them, or what one namespace has. Vacant slots and spare room are not copied. A value that several
//! owners share gets one more owner in place of a copy.
#![tactic(auto)]

mod choosing;
mod copies;
mod copying;
mod indexing;
mod lists;
mod owners;
mod tables;
mod workers;

pub use copying::{alone, copy};
pub use indexing::live_of;
