//! The pause of a thread before it tries again.

use std::rt::Clock;
use std::thread;
use std::time::Duration;

/// The length of a pause.
const MILLISECONDS: u64 = 100;

/// Pauses before the thread tries again. It does not wait for a change of the server, since none may come.
pub fn pause<R: Clock>(rt: &R) {
    thread::sleep(rt, Duration::from_millis(MILLISECONDS));
}
