//! Checks that a refused call changes nothing: the core is copied before each call, and compared with the copy if the call was
//! refused.

use crate::answers::{write_key, write_phase, write_response};
use crate::lent::answered;
use crate::words::ROOT;
use anyhow::ensure;
use ns_core::Core;
use ns_equality::Equal;
use ns_http::Request;
use ns_types::refusal::Refusal;
use ns_types::reply::Response;
use ns_types::snapshot::Snapshot;
use std::alloc::{AllocError, Global};
use std::io::Write;

/// The number after that of the last worker.
const WORKERS_END: u64 = 64;

/// After an allocation of `BEGINS` bytes, `bench/refusing.py`, which refuses allocations, refuses none of those that follow,
/// since the comparison makes them. One of `ENDS` bytes says that the comparison is over.
const BEGINS: usize = 40_009;

const ENDS: usize = 40_013;

/// Makes an allocation of this size.
fn signal(alloc: Global, size: usize) -> Result<(), AllocError> {
    let list: Vec<u8> = Vec::with_capacity(alloc, size)?;
    drop(list);
    Ok(())
}

/// The targets of the reads by which the core and its copy are compared, besides all that workers and lists show. Without a
/// target nothing is copied.
#[derive(Drop)]
pub struct CopyWatch<'a> {
    alloc: Global,
    targets: Vec<&'a str>,
}

/// A copy of the core. If it is refused for want of memory, it is made once more.
fn copied(alloc: Global, core: &Core) -> Result<Core, AllocError> {
    match core.copy(alloc) {
        Ok(copy) => Ok(copy),
        Err(_) => core.copy(alloc),
    }
}

/// The response to a read of the target. If it is refused for want of memory, it is made once more, so that it shows what the
/// core holds.
fn read(alloc: Global, core: &mut Core, target: &str) -> Result<Response, AllocError> {
    let request = Request {
        method: b"GET",
        target,
        token: Some(ROOT.as_bytes()),
        body: b"",
    };
    let mut next = 1;
    match answered(alloc, core, &mut next, 0, &request)? {
        Response::Refused(Refusal::Memory) => answered(alloc, core, &mut next, 0, &request),
        response => Ok(response),
    }
}

/// Writes the response to a read of the target.
fn write_read<W: Write>(
    alloc: Global,
    core: &mut Core,
    target: &str,
    out: &mut W,
) -> anyhow::Result<()> {
    let response = read(alloc, core, target)?;
    let written = write_response(out, &response);
    drop(response);
    Ok(written?)
}

/// Writes the next evaluation, the next plan, and the phase of each worker.
fn write_work<W: Write>(core: &Core, out: &mut W) -> anyhow::Result<()> {
    write_key(out, core.served())?;
    write_key(out, core.first_plan())?;
    for worker in 0..WORKERS_END {
        write_phase(out, core, worker)?;
    }
    Ok(())
}

/// The snapshot that the worker took last.
fn kept(core: &Core, worker: u64) -> Option<&Snapshot> {
    let busy = core.phase(worker)?;
    let row = core.worker_at(worker, busy.namespace)?;
    let kept = row.kept()?;
    Some(kept.get())
}

fn same_kept(before: &Core, core: &Core, worker: u64) -> bool {
    match (kept(before, worker), kept(core, worker)) {
        (Some(before), Some(now)) => before.equal(now),
        (None, None) => true,
        _ => false,
    }
}

/// Whether each worker has the snapshot that it had.
fn same_snapshots(before: &Core, core: &Core) -> bool {
    for worker in 0..WORKERS_END {
        if !same_kept(before, core, worker) {
            return false;
        }
    }
    true
}

impl<'a> CopyWatch<'a> {
    pub fn new(alloc: Global) -> CopyWatch<'a> {
        CopyWatch {
            alloc,
            targets: Vec::new(alloc),
        }
    }

    pub fn add(&mut self, target: &'a str) -> Result<(), AllocError> {
        self.targets.push(target)?;
        Ok(())
    }

    /// A copy of the core. None: nothing is watched.
    pub fn before(&self, core: &Core) -> Result<Option<Core>, AllocError> {
        if self.targets.is_empty() {
            return Ok(None);
        }
        signal(self.alloc, BEGINS)?;
        let copy = copied(self.alloc, core)?;
        signal(self.alloc, ENDS)?;
        Ok(Some(copy))
    }

    /// All that the targets, the workers and the lists show.
    fn shown(&self, core: &mut Core) -> anyhow::Result<Vec<u8>> {
        let mut out = Vec::new(self.alloc);
        for target in self.targets.iter() {
            write_read(self.alloc, core, *target, &mut out)?;
        }
        write_work(core, &mut out)?;
        Ok(out)
    }

    fn expect_same(&self, before: &mut Core, core: &mut Core) -> anyhow::Result<()> {
        signal(self.alloc, BEGINS)?;
        let wanted = self.shown(before)?;
        let shown = self.shown(core)?;
        ensure!(
            wanted.as_slice() == shown.as_slice(),
            "a refused call has changed what is shown"
        );
        ensure!(
            same_snapshots(before, core),
            "a refused call has changed a snapshot"
        );
        Ok(signal(self.alloc, ENDS)?)
    }

    /// Called after a call. Fails if the call was refused and the core shows something else than the copy from before the call.
    pub fn after(
        &self,
        before: Option<Core>,
        core: &mut Core,
        is_refused: bool,
    ) -> anyhow::Result<()> {
        let Some(mut before) = before else {
            return Ok(());
        };
        let same = if is_refused {
            self.expect_same(&mut before, core)
        } else {
            Ok(())
        };
        drop(before);
        same
    }
}
