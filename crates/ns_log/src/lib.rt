//! Writes the text of a log: a line with the bootstrap secret, then one line for each step and its answer. `segments` joins logs
//! that follow each other, and `receipts` settles what callers were answered against a log.
#![tactic(auto)]

mod call;
mod document;
mod entry;
mod line;
mod log;
mod member;
mod owned;
pub mod receipts;
mod registration;
pub mod segments;
mod step;

pub use entry::{Entry, entry_line};
pub use line::{head_len, line_len};
pub use log::{head_line, log_text, segment_text};
pub use owned::Owned;
