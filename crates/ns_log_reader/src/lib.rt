//! Reads a log's text back: its secret and its entries, or its first bad line.
#![tactic(auto)]

mod administered;
mod asked;
mod document;
mod entry;
mod fault;
mod head;
pub mod laws;
mod line;
mod log;
mod member;
mod nodes;
mod step;

pub use fault::LogFault;
pub use log::{Log, log_read};
