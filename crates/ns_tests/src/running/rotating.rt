// A server rotates its log: the receipts of its callers settle with the segment and the log after it.
ghost use Rattle.std.specs.Prelude.{◌≡◌};

use crate::running::guest::{guest, look, register, seat_of, set_up};
use crate::running::server::{core, opened};
use ns_core::Core;
use ns_log::receipts::SettleFault;
use ns_log::segments::Segment;
use ns_work_lock::{PARTS, Retains, Seat, SettledLog, Shared};
use ns_work_log::Held;
use std::alloc::Global;
use std::marker::Brand;
use std::process::Abort;
use std::sync::Wait;
use std::sync::ledger::{Blank, Ledger};

const JOBS: &str = "/v1/jobs?namespace=tb";

/// A server with the pools, the quota, the namespaces and the nodes of the set-up.
fn base<L: Ledger, R: Wait + Abort>(rt: &R, alloc: Global, blank: Blank) -> Core
    requires name { blank.name ≡ L.name }
    requires parts { (blank.parts ≡ L.parts) × (L.parts ≡ 18446744073709551615) }
{
    let shared = opened::<L, R>(rt, alloc, 8, blank);
    let mut guest = guest(rt, alloc, &shared);
    set_up(rt, alloc, &mut guest);
    drop(seat_of(guest));
    let ended = shared.end();
    ended.held().core().copy(alloc).expect(rt, "memory")
}

/// Registers a job three times over one seat. The log takes two entries, and is rotated after the second.
fn register_thrice<L: Ledger, R: Wait + Abort>(
    rt: &R,
    alloc: Global,
    shared: &Shared<L>,
) -> (Seat<L, Retains>, Segment) {
    let mut guest = guest(rt, alloc, shared);
    drop(register(rt, alloc, &mut guest, JOBS, "a"));
    drop(register(rt, alloc, &mut guest, JOBS, "a"));
    let refused = look(rt, alloc, &mut guest, JOBS);
    assert!(rt; refused.as_str().ends_with("log full"), "{refused}");
    let segment = shared.rotate(rt, alloc).ok().expect(rt, "memory");
    assert!(rt; segment.start() == 0 && segment.entries().len() == 2);
    assert!(rt; shared.entries(rt) == 0);
    drop(register(rt, alloc, &mut guest, JOBS, "a"));
    assert!(rt; shared.entries(rt) == 1);
    (seat_of(guest), segment)
}

/// Checks that the third receipt has the place after the segment, and the index of the third registration.
fn check_third<L: Ledger, R: Abort>(rt: &R, seat: &Seat<L, Retains>) {
    let third = seat.receipts().get(2).expect(rt, "three receipts");
    assert!(rt; third.place == 2 && third.rendered.get().index == Some(3));
}

/// Makes the three registrations on a server in the state of `base`, and settles them from the state of `first`, with or
/// without the segment that was given out.
fn settled<L: Ledger, R: Wait + Abort>(
    rt: &R,
    alloc: Global,
    base: &Core,
    first: &Core,
    has_segment: bool,
    blank: Blank,
) -> Result<SettledLog, SettleFault>
    requires name { blank.name ≡ L.name }
    requires parts { (blank.parts ≡ L.parts) × (L.parts ≡ 18446744073709551615) }
{
    let core = base.copy(alloc).expect(rt, "memory");
    let shared = Shared::<L>::new(Held::new(alloc, core, 2), blank, None, None);
    let (seat, segment) = register_thrice(rt, alloc, &shared);
    check_third(rt, &seat);
    let mut seats = Vec::new(alloc);
    seats.push(seat).expect(rt, "memory");
    let mut segments = Vec::new(alloc);
    if has_segment {
        segments.push(segment).expect(rt, "memory");
    }
    shared.end().settle(alloc, seats, first, segments)
}

#[test]
fn rotation_and_settle(rt: HostRuntime) {
    let alloc = rt.alloc();
    let base = base::<Brand, _>(&rt, alloc, Blank::new(PARTS));
    let whole = settled::<Brand, _>(&rt, alloc, &base, &base, true, Blank::new(PARTS));
    let whole = whole.ok().expect(&rt, "it settles");
    assert!(rt; whole.log().len() == 3 && whole.given() == 2 && whole.present().len() == 1);
    let cut = settled::<Brand, _>(&rt, alloc, &base, &base, false, Blank::new(PARTS));
    assert!(rt; cut.err() == Some(SettleFault::Mismatch { seat: 1, place: 0 }));
}

#[test]
fn the_log_of_another_server(rt: HostRuntime) {
    let alloc = rt.alloc();
    let base = base::<Brand, _>(&rt, alloc, Blank::new(PARTS));
    let new = core(&rt, alloc);
    let other = settled::<Brand, _>(&rt, alloc, &base, &new, true, Blank::new(PARTS));
    assert!(rt; other.err() == Some(SettleFault::Mismatch { seat: 1, place: 0 }));
}

/// Whether the log is due for rotation after one registration of less than 1000 bytes, if it is rotated at eight entries or
/// past this many bytes of text. Once it is rotated, it must not be due any more.
fn is_due<L: Ledger, R: Wait + Abort>(
    rt: &R,
    alloc: Global,
    rotates_past: Option<u64>,
    blank: Blank,
) -> bool
    requires name { blank.name ≡ L.name }
    requires parts { (blank.parts ≡ L.parts) × (L.parts ≡ 18446744073709551615) }
{
    let held = Held::new(alloc, core(rt, alloc), 9);
    let shared = Shared::<L>::new(held, blank, Some(8), rotates_past);
    assert!(rt; !shared.is_due(rt));
    let mut guest = guest(rt, alloc, &shared);
    drop(register(rt, alloc, &mut guest, "/v1/jobs", "a"));
    let is_due = shared.is_due(rt);
    drop(shared.rotate(rt, alloc).ok().expect(rt, "memory"));
    assert!(rt; !shared.is_due(rt));
    is_due
}

#[test]
fn due_by_its_text(rt: HostRuntime) {
    let alloc = rt.alloc();
    assert!(rt; is_due::<Brand, _>(&rt, alloc, Some(100), Blank::new(PARTS)));
    assert!(rt; !is_due::<Brand, _>(&rt, alloc, Some(1000), Blank::new(PARTS)));
    assert!(rt; !is_due::<Brand, _>(&rt, alloc, None, Blank::new(PARTS)));
}
