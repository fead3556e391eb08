//! Reads the requests of a connection, has a handler answer them, and writes the responses in order.
#![tactic(auto)]

mod counting;
mod engine;
mod head;
mod head_text;
mod header;
mod input;
mod output;
mod response;
mod whole;

pub use crate::counting::{Counted, Counts};
pub use crate::engine::{Answer, ConnFault, READ_LIMIT, serve};
pub use crate::head::Request;
pub use crate::input::READ_ROOM;
pub use crate::output::{INTERRUPTION_LIMIT, WriteFault, write_all};
pub use crate::whole::read_to_end;
