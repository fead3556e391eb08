//! Names the exit statuses of the program's faults, and writes their lines on standard error.
#![tactic(auto)]

mod lines;
pub mod status;

pub use lines::{print_fault, print_mismatch, print_no_random, print_no_words, print_text};
