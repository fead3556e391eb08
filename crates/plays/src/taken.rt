//! The snapshots of a script.

use anyhow::Context;
use ns_types::shared::Shared;
use ns_types::snapshot::Snapshot;
use std::alloc::{AllocError, Global};

/// A snapshot, and the worker that took it.
#[derive(Drop)]
struct Taken {
    worker: u64,
    snapshot: Shared<Snapshot>,
}

/// All snapshots that were taken, in their order.
#[derive(Drop)]
pub struct Snapshots {
    taken: Vec<Taken>,
}

impl Snapshots {
    pub fn new(alloc: Global) -> Snapshots {
        Snapshots {
            taken: Vec::new(alloc),
        }
    }

    pub fn keep(&mut self, worker: u64, snapshot: Shared<Snapshot>) -> Result<(), AllocError> {
        self.taken.push(Taken { worker, snapshot })?;
        Ok(())
    }

    /// The snapshot that the worker took last.
    fn last_of(&self, worker: u64) -> Option<&Taken> {
        self.taken.iter().rev().find(|taken| taken.worker == worker)
    }

    /// The snapshot at this place in the order, counted from 1.
    fn at(&self, place: u64) -> Option<&Taken> {
        let place = usize::try_from(place.checked_sub(1)?).ok()?;
        self.taken.get(place)
    }

    /// The snapshot at the place, or without a place the one that the worker took last.
    pub fn find(&self, worker: u64, place: Option<u64>) -> anyhow::Result<&Shared<Snapshot>> {
        let taken = match place {
            Some(place) => self.at(place),
            None => self.last_of(worker),
        };
        let taken = taken.context("no snapshot was taken")?;
        Ok(&taken.snapshot)
    }
}
