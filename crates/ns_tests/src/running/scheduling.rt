// Two workers, the applier and a client, each in a thread of its own. If a worker held the lock while it plans, the other would
// not reach its own plan, and the meeting inside the first plans would fail. If both take snapshots before either plans, and
// there is room for one of two jobs, the later plan is dropped. If a worker ends in the middle of its work, the others go on.
// All receipts settle with the log.
ghost use Rattle.std.specs.Prelude.{◌≡◌};

use crate::running::guest::{Guest, guest, look, register_with, seat, seat_of, set_up, write};
use crate::running::meeting::{Meeting, MeetingGate, Plot, await_that};
use crate::running::server::{opened, settle};
use ns_log::receipts::Receipt;
use ns_work_lock::{PARTS, Retains, Seat, Shared};
use ns_workers::{KeepsNothing, Point, applier, worker};
use std::alloc::Global;
use std::marker::Brand;
use std::process::Abort;
use std::rt::Clock;
use std::sync::Wait;
use std::sync::ledger::{Blank, Ledger};
use std::thread;
use std::thread::Threads;

/// The path that registers jobs of `tb`.
const JOBS: &str = "/v1/jobs?namespace=tb";

const FIRST_EVALUATION: &str = "/v1/evaluation/00000000-0000-0001-0000-000000000001?namespace=tb";

const FIRST_ALLOCATION: &str = "/v1/allocation/00000000-0000-0002-0000-000000000001?namespace=tb";

const ASKED_TOKEN: &str = "{\"Name\":\"ci\",\"Policies\":[\"web\",\"api\"]}";

/// The token that the server makes for `ASKED_TOKEN`, with the bits that are drawn here.
const TOKEN: &str =
    "{\"AccessorID\":\"01010101-0101-4101-8101-010101010101\",\"Name\":\"ci\",\"Policies\":[\"web\",\"api\"],\"SecretID\":\"01010101-0101-4101-8101-010101010101\",\"Type\":\"client\"}";

/// Reports that the first allocation runs.
const REPORT: &str =
    "{\"Namespace\":\"tb\",\"ID\":\"00000000-0000-0002-0000-000000000001\",\"ClientStatus\":\"running\"}";

/// A path, a text, and how often a read of the path has to show it.
type ShownAt<'a> = (&'a str, &'a str, usize);

/// The second job's evaluation is complete, and each job has one allocation, which is live.
static BOTH_PLACED: [ShownAt; 7] = [
    (
        "/v1/evaluation/00000000-0000-0001-0000-000000000002?namespace=tb",
        "\"Status\":\"complete\"",
        1,
    ),
    ("/v1/job/a/allocations?namespace=tb", "\"JobID\":", 1),
    (
        "/v1/job/a/allocations?namespace=tb",
        "\"ClientStatus\":\"pending\"",
        1,
    ),
    (
        "/v1/job/a/allocations?namespace=tb",
        "\"DesiredStatus\":\"run\"",
        1,
    ),
    ("/v1/job/b/allocations?namespace=tb", "\"JobID\":", 1),
    (
        "/v1/job/b/allocations?namespace=tb",
        "\"ClientStatus\":\"pending\"",
        1,
    ),
    (
        "/v1/job/b/allocations?namespace=tb",
        "\"DesiredStatus\":\"run\"",
        1,
    ),
];

/// One of the jobs has an allocation. Both evaluations are complete, and a follower of one is blocked.
static ONE_PLACED: [ShownAt; 4] = [
    ("/v1/allocations?namespace=tb", "\"JobID\":", 1),
    ("/v1/evaluations?namespace=tb", "\"Status\":\"complete\"", 2),
    ("/v1/evaluations?namespace=tb", "\"Status\":\"blocked\"", 1),
    (
        "/v1/evaluations?namespace=tb",
        "\"TriggeredBy\":\"queued-allocs\"",
        1,
    ),
];

/// Whether the first worker leaves a queued plan behind. The applier begins after that worker's end, so the plan is still
/// queued when the worker nacks, and the nack is refused: the plan is applied, and no worker finishes the evaluation.
fn leaves_a_plan(plot: Plot) -> bool {
    plot == Plot::Dies(Point::Queued)
}

/// CPU and memory of each job. The node of `tb` has 1000 MHz.
fn size(plot: Plot) -> (u64, u64) {
    match plot {
        Plot::LookAtOnce => (600, 256),
        _ => (100, 100),
    }
}

/// Whether nothing is left to do for the workers that still run.
fn is_idle<L: Ledger, R: Wait + Abort>(rt: &R, shared: &Shared<L>, plot: Plot) -> bool {
    let served = shared.served(rt).expect(rt, "memory");
    let planned = shared.first_plan(rt).expect(rt, "memory");
    let first = shared.busy(rt, 0).expect(rt, "memory");
    let second = shared.busy(rt, 1).expect(rt, "memory");
    let is_free = first.is_none() || leaves_a_plan(plot);
    served.is_none() && planned.is_none() && is_free && second.is_none()
}

/// Fails the test if a read of the path does not show the text this often.
fn expect_shown<L: Ledger, R: Wait + Abort>(
    rt: &R,
    alloc: Global,
    guest: &mut Guest<'_, L, R>,
    (path, word, times): ShownAt<'_>,
) {
    let shown = look(rt, alloc, guest, path);
    assert!(rt; shown.as_str().matches(word).count() == times, "{shown}");
}

/// Fails the test if the two jobs did not end as the plot says.
fn expect_ended<L: Ledger, R: Wait + Abort>(
    rt: &R,
    alloc: Global,
    guest: &mut Guest<'_, L, R>,
    plot: Plot,
) {
    if plot == Plot::LookAtOnce {
        for shown in &ONE_PLACED {
            expect_shown(rt, alloc, guest, *shown);
        }
        return;
    }
    let status = if leaves_a_plan(plot) {
        "\"Status\":\"pending\""
    } else {
        "\"Status\":\"complete\""
    };
    expect_shown(rt, alloc, guest, (FIRST_EVALUATION, status, 1));
    for shown in &BOTH_PLACED {
        expect_shown(rt, alloc, guest, *shown);
    }
}

/// Makes a token, and reports that the first allocation runs. Fails the test if a reply is not the expected one.
fn expect_written<L: Ledger, R: Wait + Abort>(rt: &R, alloc: Global, guest: &mut Guest<'_, L, R>) {
    let made = write(rt, alloc, guest, "/v1/acl/token", ASKED_TOKEN);
    assert!(rt; made.as_str().ends_with(TOKEN), "{made}");
    drop(write(
        rt,
        alloc,
        guest,
        "/v1/node/pool/west/node/n1/report",
        REPORT,
    ));
    let shown = (FIRST_ALLOCATION, "\"ClientStatus\":\"running\"", 1);
    expect_shown(rt, alloc, guest, shown);
}

/// Registers two jobs once the workers are there. If the first worker has to end, the second job is registered after that.
/// Closes the server once nothing is left to do. Fails the test if the jobs did not end as the plot says.
fn lead<L: Ledger, R: Wait + Clock + Abort>(
    rt: &R,
    alloc: Global,
    shared: &Shared<L>,
    meeting: &Meeting,
) -> Seat<L, Retains> {
    let plot = meeting.plot;
    let mut guest = guest(rt, alloc, shared);
    await_that(rt, &|| shared.now(rt).workers == meeting.wanted);
    set_up(rt, alloc, &mut guest);
    drop(register_with(rt, alloc, &mut guest, JOBS, "a", size(plot)));
    if plot.is_of_an_end() {
        meeting.wait(rt);
    }
    drop(register_with(rt, alloc, &mut guest, JOBS, "b", size(plot)));
    await_that(rt, &|| is_idle(rt, shared, plot));
    expect_ended(rt, alloc, &mut guest, plot);
    expect_written(rt, alloc, &mut guest);
    shared.close(rt);
    seat_of(guest)
}

/// Runs the worker with this number.
fn work<L: Ledger, R: Wait + Clock + Abort>(
    rt: &R,
    alloc: Global,
    shared: &Shared<L>,
    meeting: &Meeting,
    number: u64,
    seat: &mut Seat<L, Retains>,
) {
    let ends = meeting.plot.is_of_an_end();
    if ends && number == 1 {
        meeting.wait(rt);
    }
    worker(
        rt,
        alloc,
        shared,
        &MeetingGate { rt, meeting },
        number,
        seat,
    );
    if ends && number == 0 {
        meeting.come();
    }
}

/// Runs the thread with this number, and returns its seat. The first two are workers, then come the applier and the client that
/// leads.
fn perform<L: Ledger, R: Wait + Clock + Abort>(
    rt: &R,
    alloc: Global,
    shared: &Shared<L>,
    meeting: &Meeting,
    number: usize,
) -> Seat<L, Retains> {
    if number > 2 {
        return lead(rt, alloc, shared, meeting);
    }
    let mut seat = seat(rt, alloc, shared);
    if number == 2 {
        if leaves_a_plan(meeting.plot) {
            meeting.wait(rt);
        }
        applier(rt, alloc, shared, &mut KeepsNothing, &mut seat);
    } else {
        work(rt, alloc, shared, meeting, number as u64, &mut seat);
    }
    seat
}

/// The seats of four threads.
fn performed<L: Ledger + Send + Sync, R: Threads + Wait + Clock + Abort + Sync>(
    rt: &R,
    alloc: Global,
    shared: &Shared<L>,
    meeting: &Meeting,
) -> Vec<Seat<L, Retains>> {
    let seats = thread::map_indices(
        rt,
        alloc,
        4,
        &|number| perform(rt, alloc, shared, meeting, number),
    );
    seats.expect(rt, "memory")
}

/// Whether the applier applied two plans. If both workers took snapshots at once, the second plan drops the only node.
fn is_applied(plot: Plot, receipts: &[Receipt]) -> bool {
    let [first, second] = receipts else {
        return false;
    };
    let (first, second) = (
        first.rendered.get().body.as_str(),
        second.rendered.get().body.as_str(),
    );
    let later = match plot {
        Plot::LookAtOnce => "{\"Committed\":[],\"Dropped\":[\"n1\"]}",
        _ => "{\"Committed\":[\"00000000-0000-0002-0000-000000000002\"],\"Dropped\":[]}",
    };
    first == "{\"Committed\":[\"00000000-0000-0002-0000-000000000001\"],\"Dropped\":[]}"
        && second == later
}

/// Whether all went by the plot, and the receipts of all threads settle with the log.
fn settles<L: Ledger + Send + Sync, R: Threads + Wait + Clock + Abort + Sync>(
    rt: &R,
    alloc: Global,
    plot: Plot,
    blank: Blank,
) -> bool
    requires name { blank.name ≡ L.name }
    requires parts { (blank.parts ≡ L.parts) × (L.parts ≡ 18446744073709551615) }
{
    let shared = opened::<L, R>(rt, alloc, 100, blank);
    let meeting = Meeting::new(plot);
    let seats = performed(rt, alloc, &shared, &meeting);
    let applier = seats.get(2).expect(rt, "the applier");
    let is_applied = is_applied(plot, applier.receipts());
    meeting.is_full() && is_applied && settle(rt, alloc, shared, seats).is_ok()
}

#[test]
fn workers_schedule_at_once(rt: HostRuntime) {
    let settled = settles::<Brand, _>(&rt, rt.alloc(), Plot::PlanAtOnce, Blank::new(PARTS));
    assert!(rt; settled);
}

#[test]
fn two_workers_one_node(rt: HostRuntime) {
    let settled = settles::<Brand, _>(&rt, rt.alloc(), Plot::LookAtOnce, Blank::new(PARTS));
    assert!(rt; settled);
}

const POINTS: [Point; 4] = [Point::Took, Point::Snapped, Point::Queued, Point::Finished];

#[test]
fn a_worker_ends_at_each_of_its_points(rt: HostRuntime) {
    for point in &POINTS {
        let plot = Plot::Dies(*point);
        let settled = settles::<Brand, _>(&rt, rt.alloc(), plot, Blank::new(PARTS));
        assert!(rt; settled);
    }
}
