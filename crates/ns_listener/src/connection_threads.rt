//! How many threads still serve connections.

use std::sync::atomic::{AtomicU64, Ordering};

/// The number of threads that serve connections and have not ended.
#[derive(Drop)]
pub struct ConnectionThreads {
    left: AtomicU64,
}

impl ConnectionThreads {
    pub fn new(count: u64) -> ConnectionThreads {
        ConnectionThreads {
            left: AtomicU64::new(count),
        }
    }

    /// Notes that a thread ends. Returns whether it is the last.
    pub fn leave(&self) -> bool {
        self.left.fetch_sub(1, Ordering::SeqCst) == 1
    }
}
