// Many clients at once: each reads what it wrote, and all their receipts settle with the log.
ghost use Rattle.std.specs.Prelude.{◌≡◌};

use crate::running::guest::{guest, look, register, seat_of};
use crate::running::server::{opened, settle};
use ns_work_lock::{PARTS, Retains, Seat, Shared};
use std::alloc::Global;
use std::marker::Brand;
use std::process::Abort;
use std::rt::Clock;
use std::sync::ledger::{Blank, Ledger};
use std::sync::{Barrier, Wait};
use std::thread;
use std::thread::Threads;

/// How many clients there are.
const CLIENTS: usize = 64;

/// Registers the job and reads it, once all clients are there. Returns the seat of the client.
fn visit<L: Ledger, R: Wait + Clock + Abort>(
    rt: &R,
    alloc: Global,
    shared: &Shared<L>,
    start: &Barrier,
    id: &str,
) -> Seat<L, Retains> {
    let mut guest = guest(rt, alloc, shared);
    start.wait(rt);
    drop(register(rt, alloc, &mut guest, "/v1/jobs", id));
    let path = format!(in alloc; "/v1/job/{id}");
    let path = path.expect(rt, "memory");
    let words = format!(in alloc; "\"ID\":\"{id}\",");
    let words = words.expect(rt, "memory");
    let shown = look(rt, alloc, &mut guest, path.as_str());
    assert!(rt; shown.as_str().contains(words.as_str()), "{shown}");
    seat_of(guest)
}

/// The seat of the client with this number, which has a job of its own.
fn numbered<L: Ledger, R: Wait + Clock + Abort>(
    rt: &R,
    alloc: Global,
    shared: &Shared<L>,
    start: &Barrier,
    number: usize,
) -> Seat<L, Retains> {
    let id = format!(in alloc; "j{number}");
    let id = id.expect(rt, "memory");
    visit(rt, alloc, shared, start, id.as_str())
}

/// The seats of all clients, which have a thread each.
fn visited<L: Ledger + Send + Sync, R: Threads + Wait + Clock + Abort + Sync>(
    rt: &R,
    alloc: Global,
    shared: &Shared<L>,
    start: &Barrier,
) -> Vec<Seat<L, Retains>> {
    let seats = thread::map_indices(
        rt,
        alloc,
        CLIENTS,
        &|number| numbered(rt, alloc, shared, start, number),
    );
    seats.expect(rt, "memory")
}

/// Whether the receipts of all clients settle with the log, which has two entries for each client.
fn settles<L: Ledger + Send + Sync, R: Threads + Wait + Clock + Abort + Sync>(
    rt: &R,
    alloc: Global,
    blank: Blank,
) -> bool
    requires name { blank.name ≡ L.name }
    requires parts { (blank.parts ≡ L.parts) × (L.parts ≡ 18446744073709551615) }
{
    let shared = opened::<L, R>(rt, alloc, 2 * CLIENTS as u64, blank);
    let start = Barrier::new(CLIENTS);
    let seats = visited(rt, alloc, &shared, &start);
    settle(rt, alloc, shared, seats).is_ok()
}

#[test]
fn many_at_once(rt: HostRuntime) {
    let settled = settles::<Brand, _>(&rt, rt.alloc(), Blank::new(PARTS));
    assert!(rt; settled);
}
