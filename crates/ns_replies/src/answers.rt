//! Renders the answer of each step as bytes, and takes room for it before the step.

mod body;
mod changing;
pub mod laws;
mod rendering;
mod room;
mod sizes;

pub use changing::may_change;
pub use rendering::{refused, render};
pub use room::AnswerRoom;
