//! Reads a log, replays it for a namespace alone, and prints the result line by line.

mod base;
mod claimed;
mod ending;
mod lines;
mod outcome;
mod printing;
mod replay;

pub use ending::ReplayEnd;
pub use printing::print_replay;
pub use replay::Replay;
