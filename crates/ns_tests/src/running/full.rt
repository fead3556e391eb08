// The log fills while a segment is held back. Then requests are refused, and the worker and the applier wait. Once the segment
// is taken, all go on.
ghost use Rattle.std.specs.Prelude.{◌≡◌};

use crate::running::guest::{Guest, guest, look, register, seat, seat_of, write};
use crate::running::server::core;
use ns_log::segments::Segment;
use ns_work_lock::{PARTS, Retains, Seat, Shared};
use ns_work_log::Held;
use ns_workers::{Keep, Open, applier, worker};
use std::alloc::Global;
use std::marker::Brand;
use std::process::Abort;
use std::rt::Clock;
use std::sync::ledger::{Blank, Ledger};
use std::sync::{Condvar, Mutex, Wait};
use std::thread;
use std::thread::Threads;

const NODE: &str = "/v1/node/pool/default/node/n1";

const CAPACITY: &str = "{\"CPU\":1000,\"MemoryMB\":1024}";

/// Holds segments back until it is opened.
#[derive(Drop)]
struct Dam {
    is_open: Mutex<bool>,
    opened: Condvar,
}

impl Dam {
    fn new() -> Dam {
        Dam {
            is_open: Mutex::new(false),
            opened: Condvar::new(),
        }
    }

    fn open<R: Wait>(&self, rt: &R) {
        *self.is_open.lock(rt) = true;
        self.opened.notify_all();
    }

    fn pass<R: Wait>(&self, rt: &R) {
        let _is_open = self
            .opened
            .wait_while(rt, self.is_open.lock(rt), |is_open| !*is_open);
    }
}

/// Takes a segment once the dam is open.
#[derive(Drop)]
struct Behind<'a, R: Wait> {
    rt: &'a R,
    dam: &'a Dam,
}

impl<'a, R: Wait> Keep for Behind<'a, R> {
    ghost takes = { λ _ _ _. Unit {0} };

    fn keep(&mut self, _alloc: Global, segment: Segment) -> Option<Segment> {
        self.dam.pass(self.rt);
        Some(segment)
    }
}

/// Lists the jobs until the reply says that the log is full or, if `is_full` is false, until it does not.
fn look_until<L: Ledger, R: Wait + Abort>(
    rt: &R,
    alloc: Global,
    guest: &mut Guest<'_, L, R>,
    is_full: bool,
) {
    for _ in rt.forever() {
        let reply = look(rt, alloc, guest, "/v1/jobs");
        if reply.as_str().ends_with("log full") == is_full {
            break;
        }
    }
}

/// Reads the job until it runs.
fn await_running<L: Ledger, R: Wait + Abort>(
    rt: &R,
    alloc: Global,
    guest: &mut Guest<'_, L, R>,
    path: &str,
) {
    for _ in rt.forever() {
        let reply = look(rt, alloc, guest, path);
        if reply.as_str().contains("\"Status\":\"running\"") {
            break;
        }
    }
}

/// Fills the log, opens the dam, then registers a job and waits until it runs. Returns the seat of the client.
fn fill<L: Ledger, R: Wait + Abort>(
    rt: &R,
    alloc: Global,
    shared: &Shared<L>,
    dam: &Dam,
) -> Seat<L, Retains> {
    let mut guest = guest(rt, alloc, shared);
    drop(write(rt, alloc, &mut guest, NODE, CAPACITY));
    look_until(rt, alloc, &mut guest, true);
    dam.open(rt);
    look_until(rt, alloc, &mut guest, false);
    drop(register(rt, alloc, &mut guest, "/v1/jobs", "late"));
    await_running(rt, alloc, &mut guest, "/v1/job/late");
    shared.close(rt);
    seat_of(guest)
}

/// Runs the client, the worker or the applier, by its number. Returns how many receipts it gained.
fn perform<L: Ledger, R: Wait + Clock + Abort>(
    rt: &R,
    alloc: Global,
    shared: &Shared<L>,
    dam: &Dam,
    number: usize,
) -> usize {
    if number == 0 {
        return fill(rt, alloc, shared, dam).receipts().len();
    }
    let mut seat = seat(rt, alloc, shared);
    if number == 1 {
        worker(rt, alloc, shared, &Open, 1, &mut seat);
    } else {
        applier(rt, alloc, shared, &mut Behind { rt, dam }, &mut seat);
    }
    seat.receipts().len()
}

/// Runs the client, the worker and the applier. Returns how many receipts each of them gained.
fn performed<L: Ledger + Send + Sync, R: Threads + Wait + Clock + Abort + Sync>(
    rt: &R,
    alloc: Global,
    shared: &Shared<L>,
    dam: &Dam,
) -> Vec<usize> {
    let counts = thread::map_indices(
        rt,
        alloc,
        3,
        &|number| perform(rt, alloc, shared, dam, number),
    );
    counts.expect(rt, "memory")
}

/// Runs them on a server whose log is rotated at 4 entries and is full at 8.
fn counted<L: Ledger + Send + Sync, R: Threads + Wait + Clock + Abort + Sync>(
    rt: &R,
    alloc: Global,
    blank: Blank,
) -> Vec<usize>
    requires name { blank.name ≡ L.name }
    requires parts { (blank.parts ≡ L.parts) × (L.parts ≡ 18446744073709551615) }
{
    let held = Held::new(alloc, core(rt, alloc), 8);
    let shared = Shared::<L>::new(held, blank, Some(4), None);
    let dam = Dam::new();
    performed(rt, alloc, &shared, &dam)
}

#[test]
fn a_full_log_is_waited_for(rt: HostRuntime) {
    let counts = counted::<Brand, _>(&rt, rt.alloc(), Blank::new(PARTS));
    assert!(rt; counts.len() == 3);
    let applied = counts.get(2).expect(&rt, "the applier");
    assert!(rt; *applied == 1, "{applied} plans");
}
