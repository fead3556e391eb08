// The receipts of callers are settled with the log of their server. A seat of another server cannot be handed in: its ledger
// has another type.
ghost use Rattle.std.specs.Prelude.{◌≡◌};

use crate::running::guest::{guest, look, register, seat_of};
use crate::running::server::{opened, settle};
use ns_log::receipts::SettleFault;
use ns_work_lock::{PARTS, Retains, Seat, Shared};
use std::alloc::Global;
use std::marker::Brand;
use std::process::Abort;
use std::sync::Wait;
use std::sync::ledger::{Blank, Ledger};

const JOBS: &str = "/v1/jobs";

/// The seat of a client that has registered the job.
fn registered<L: Ledger, R: Wait + Abort>(
    rt: &R,
    alloc: Global,
    shared: &Shared<L>,
    id: &str,
) -> Seat<L, Retains> {
    let mut guest = guest(rt, alloc, shared);
    drop(register(rt, alloc, &mut guest, JOBS, id));
    seat_of(guest)
}

/// The seat of a client that has seen the job `a`.
fn shown<L: Ledger, R: Wait + Abort>(
    rt: &R,
    alloc: Global,
    shared: &Shared<L>,
) -> Seat<L, Retains> {
    let mut guest = guest(rt, alloc, shared);
    drop(look(rt, alloc, &mut guest, "/v1/job/a"));
    seat_of(guest)
}

/// Settles a log of two entries, which two seats made, with the first seat alone. Returns the fault.
fn one_is_missing<L: Ledger, R: Wait + Abort>(
    rt: &R,
    alloc: Global,
    blank: Blank,
) -> Option<SettleFault>
    requires name { blank.name ≡ L.name }
    requires parts { (blank.parts ≡ L.parts) × (L.parts ≡ 18446744073709551615) }
{
    let shared = opened::<L, R>(rt, alloc, 10, blank);
    let mut seats = Vec::new(alloc);
    seats
        .push(registered(rt, alloc, &shared, "a"))
        .expect(rt, "memory");
    drop(shown(rt, alloc, &shared));
    settle(rt, alloc, shared, seats).err()
}

#[test]
fn a_seat_is_missing(rt: HostRuntime) {
    let fault = one_is_missing::<Brand, _>(&rt, rt.alloc(), Blank::new(PARTS));
    assert!(rt; fault == Some(SettleFault::Mismatch { seat: 1, place: 1 }));
}
