//! How many connections may still be accepted.

ghost use Rattle.std.specs.Prelude.{IsNone, IsTrue};

use std::sync::atomic::{AtomicU64, Ordering};

/// The number of connections that may still be accepted. None: there is no limit.
#[derive(Drop)]
pub struct AcceptLimit {
    left: Option<AtomicU64>,
}

impl AcceptLimit {
    pub fn new(count: Option<u64>) -> AcceptLimit
        ensures { IsNone count → IsNone result.left }
    {
        AcceptLimit {
            left: count.map(AtomicU64::new),
        }
    }

    /// Takes one connection from the limit. Returns false where none is left, which is never where there is no limit.
    pub fn take(&self) -> bool
        ensures { IsNone self.now.left → IsTrue result }
    {
        match &self.left {
            Some(left) => left
                .fetch_update(Ordering::SeqCst, Ordering::SeqCst, |left| {
                    left.checked_sub(1)
                })
                .is_ok(),
            None => true,
        }
    }
}
