//! Repeats a log: a server makes the step of each entry, and its answer is compared with the one that is logged.

mod replying;
mod rerunning;

pub use replying::{is_logged, reply_to, shown};
pub use rerunning::{RerunFault, rerun, rerun_from};
