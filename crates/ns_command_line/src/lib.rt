//! Reads the program's arguments by `clap`, and runs the program by them.
#![tactic(auto)]

mod command;
mod outcome;
mod run;
mod wanted;
mod words;

pub use outcome::RunEnd;
pub use run::run_words;
pub use wanted::Invocation;
pub use words::read;
