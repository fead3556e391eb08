//! A start that threads wait for.

use std::sync::{Condvar, Mutex, Wait};

/// Lets all threads begin together, or none of them.
#[derive(Drop)]
pub struct Start {
    goes: Mutex<Option<bool>>,
    is_known: Condvar,
}

impl Start {
    pub fn new() -> Start {
        Start {
            goes: Mutex::new(None),
            is_known: Condvar::new(),
        }
    }

    /// Waits until it is known whether the threads begin, and returns that.
    pub fn wait<R: Wait>(&self, rt: &R) -> bool {
        let goes = self
            .is_known
            .wait_while(rt, self.goes.lock(rt), |goes| goes.is_none());
        *goes == Some(true)
    }

    /// Says whether the threads begin, and wakes those that wait.
    pub fn set<R: Wait>(&self, rt: &R, goes: bool) {
        *self.goes.lock(rt) = Some(goes);
        self.is_known.notify_all();
    }
}
