//! Runs one connection over a reader and a writer, on a server of its own, or replays a log. `written` has laws that the text
//! of a log is read back as that log, and `replay` prints the result of a replay line by line.
#![tactic(auto)]

mod asked;
mod connection;
mod logging;
mod nowhere;
mod printed;
pub mod replay;
mod running;
mod written;

pub use asked::WordsRead;
pub use connection::pipe;
pub use logging::{LOG_LIMIT, pipe_log};
pub use nowhere::Nowhere;
pub use printed::Printed;
pub use running::{EndedRun, run};
