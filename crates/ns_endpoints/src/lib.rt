//! Finds the step that a request asks for, and draws the random bits that it needs.
#![tactic(auto)]

mod asking;
mod documents;
mod drawing;
mod nodes;
mod router;
mod tables;
mod wanted;

pub use asking::asked;
pub use drawing::{Draws, drawn, random_id};
pub use router::Router;
pub use wanted::{Draft, GoodToken};
