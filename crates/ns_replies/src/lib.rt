//! Writes replies as JSON texts, and takes the room for the reply to a write before its step. `answers` renders the answers of
//! all steps.
#![tactic(auto)]

mod access;
pub mod answers;
mod events;
mod job;
pub mod node;
pub mod records;
mod reply;
mod room;
pub mod shown;
pub mod words;
mod work;

pub use reply::render;
pub use room::Room;
