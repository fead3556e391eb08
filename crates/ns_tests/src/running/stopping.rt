// A worker and the applier end at a full log, at the gate, once the server is closed, and out of turn. A worker goes on after
// want of memory. No thread is started, so a test does not end if a worker or the applier goes on or waits where it has to end.
ghost use Rattle.std.specs.Prelude.{◌≡◌};

use crate::running::guest::{guest, look, register, seat, write};
use crate::running::server::opened;
use ns_schedule::plan;
use ns_types::planned::Planned;
use ns_types::refusal::Refusal;
use ns_types::shared;
use ns_types::snapshot::Snapshot;
use ns_work_lock::{PARTS, Shared};
use ns_workers::{Gate, KeepsNothing, Open, Point, applier, worker};
use std::alloc::Global;
use std::marker::Brand;
use std::process::Abort;
use std::rt::Clock;
use std::sync::Wait;
use std::sync::atomic::{AtomicU64, Ordering};
use std::sync::ledger::{Blank, Ledger};

/// Lets no worker go on from this point.
#[derive(Clone, Copy)]
struct Shut(Point);

impl Gate for Shut {
    fn plan(
        &self,
        alloc: Global,
        _worker: u64,
        snapshot: shared::Shared<Snapshot>,
    ) -> Result<Planned, Refusal> {
        plan(alloc, snapshot)
    }

    fn pass(&self, _worker: u64, point: Point) -> bool {
        point != self.0
    }
}

/// Has no memory for the first plan. Lets no worker go on once its plan is queued.
#[derive(Drop)]
struct Scant {
    plans: AtomicU64,
}

impl Gate for Scant {
    fn plan(
        &self,
        alloc: Global,
        _worker: u64,
        snapshot: shared::Shared<Snapshot>,
    ) -> Result<Planned, Refusal> {
        let planned = plan(alloc, snapshot)?;
        if self.plans.fetch_add(1, Ordering::SeqCst) > 0 {
            return Ok(planned);
        }
        drop(planned);
        Err(Refusal::Memory)
    }

    fn pass(&self, _worker: u64, point: Point) -> bool {
        point != Point::Queued
    }
}

/// Registers a node, and a job that fits on it: two entries.
fn prepare<L: Ledger, R: Wait + Abort>(rt: &R, alloc: Global, shared: &Shared<L>) {
    let mut guest = guest(rt, alloc, shared);
    let capacity = "{\"CPU\":1000,\"MemoryMB\":1024}";
    drop(write(
        rt,
        alloc,
        &mut guest,
        "/v1/node/pool/default/node/n1",
        capacity,
    ));
    drop(register(rt, alloc, &mut guest, "/v1/jobs", "a"));
}

/// How many steps the worker with this number makes until it ends.
fn works<L: Ledger, G: Gate, R: Wait + Clock + Abort>(
    rt: &R,
    alloc: Global,
    shared: &Shared<L>,
    gate: &G,
    number: u64,
) -> usize {
    let mut seat = seat(rt, alloc, shared);
    worker(rt, alloc, shared, gate, number, &mut seat);
    seat.receipts().len()
}

/// How many steps the applier makes until it ends.
fn applies<L: Ledger, R: Wait + Clock + Abort>(rt: &R, alloc: Global, shared: &Shared<L>) -> usize {
    let mut seat = seat(rt, alloc, shared);
    applier(rt, alloc, shared, &mut KeepsNothing, &mut seat);
    seat.receipts().len()
}

/// Whether a worker that has a snapshot ends where the log has no room for its plan.
fn worker_ends<L: Ledger, R: Wait + Clock + Abort>(rt: &R, alloc: Global, blank: Blank) -> bool
    requires name { blank.name ≡ L.name }
    requires parts { (blank.parts ≡ L.parts) × (L.parts ≡ 18446744073709551615) }
{
    let shared = opened::<L, R>(rt, alloc, 4, blank);
    prepare(rt, alloc, &shared);
    let snaps = works(rt, alloc, &shared, &Open, 0) == 2;
    let served = shared.served(rt).expect(rt, "memory");
    snaps && served.is_none() && !shared.is_closed(rt)
}

#[test]
fn a_full_log_ends_a_worker(rt: HostRuntime) {
    let ends = worker_ends::<Brand, _>(&rt, rt.alloc(), Blank::new(PARTS));
    assert!(rt; ends);
}

/// Whether the applier ends and closes the server if the log has no room to apply a queued plan. The worker of that plan ends
/// at the gate before that. Run once more, it makes no step, since no one applies the plan any more.
fn applier_ends<L: Ledger, R: Wait + Clock + Abort>(rt: &R, alloc: Global, blank: Blank) -> bool
    requires name { blank.name ≡ L.name }
    requires parts { (blank.parts ≡ L.parts) × (L.parts ≡ 18446744073709551615) }
{
    let shared = opened::<L, R>(rt, alloc, 5, blank);
    prepare(rt, alloc, &shared);
    let submits = works(rt, alloc, &shared, &Shut(Point::Queued), 0) == 3;
    let was_open = !shared.is_closed(rt);
    let applies = applies(rt, alloc, &shared);
    let closes = applies == 0 && shared.is_closed(rt);
    submits && was_open && closes && works(rt, alloc, &shared, &Open, 0) == 0
}

#[test]
fn a_full_log_ends_the_applier(rt: HostRuntime) {
    let ends = applier_ends::<Brand, _>(&rt, rt.alloc(), Blank::new(PARTS));
    assert!(rt; ends);
}

/// Whether no step is made by a worker whose number is past the last, by an idle worker once the server is closed, or by the
/// applier then. A worker that ends at the gate has nacked the evaluation that it dequeued.
fn stay_idle<L: Ledger, R: Wait + Clock + Abort>(rt: &R, alloc: Global, blank: Blank) -> bool
    requires name { blank.name ≡ L.name }
    requires parts { (blank.parts ≡ L.parts) × (L.parts ≡ 18446744073709551615) }
{
    let shared = opened::<L, R>(rt, alloc, 100, blank);
    prepare(rt, alloc, &shared);
    let opens = !shared.now(rt).applier_left;
    let last = works(rt, alloc, &shared, &Open, 64);
    let leaves = works(rt, alloc, &shared, &Shut(Point::Took), 63);
    let served = shared.served(rt).expect(rt, "memory");
    shared.close(rt);
    let closed = works(rt, alloc, &shared, &Open, 0);
    let applies = applies(rt, alloc, &shared);
    opens && last == 0 && leaves == 2 && served.is_some() && closed == 0 && applies == 0
}

#[test]
fn no_step_out_of_turn(rt: HostRuntime) {
    let idle = stay_idle::<Brand, _>(&rt, rt.alloc(), Blank::new(PARTS));
    assert!(rt; idle);
}

/// Whether a worker that finds no memory for its plan dequeues the evaluation, takes a snapshot, nacks, dequeues again, takes a
/// snapshot and submits its plan, which is then applied, so that the job runs.
fn places_later<L: Ledger, R: Wait + Clock + Abort>(rt: &R, alloc: Global, blank: Blank) -> bool
    requires name { blank.name ≡ L.name }
    requires parts { (blank.parts ≡ L.parts) × (L.parts ≡ 18446744073709551615) }
{
    let shared = opened::<L, R>(rt, alloc, 100, blank);
    prepare(rt, alloc, &shared);
    let scant = Scant {
        plans: AtomicU64::new(0),
    };
    let steps = works(rt, alloc, &shared, &scant, 0);
    shared.close(rt);
    let applies = applies(rt, alloc, &shared);
    let mut guest = guest(rt, alloc, &shared);
    let job = look(rt, alloc, &mut guest, "/v1/job/a");
    steps == 6 && applies == 1 && job.as_str().contains("\"Status\":\"running\"")
}

#[test]
fn a_worker_goes_on_after_want_of_memory(rt: HostRuntime) {
    let places = places_later::<Brand, _>(&rt, rt.alloc(), Blank::new(PARTS));
    assert!(rt; places);
}
