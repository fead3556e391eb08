// Entries of segments that are no longer needed are freed one by one, by later calls for a step.
ghost use Rattle.std.specs.Prelude.{◌≡◌};

use crate::running::guest::{Guest, guest, look, seat_of};
use crate::running::server::opened;
use ns_work_lock::{PARTS, Shared};
use std::alloc::Global;
use std::marker::Brand;
use std::process::Abort;
use std::sync::Wait;
use std::sync::ledger::{Blank, Ledger};

/// Lists the jobs this often. Each read is an entry. After that, these numbers of entries are left of the last two segments.
fn look_on<L: Ledger, R: Wait + Abort>(
    rt: &R,
    alloc: Global,
    shared: &Shared<L>,
    guest: &mut Guest<'_, L, R>,
    looks: u64,
    left: (u64, u64),
) {
    for _ in 0..looks {
        let reply = look(rt, alloc, guest, "/v1/jobs");
        assert!(rt;
            reply.as_str().starts_with("HTTP/1.1 200 OK\r\n"),
            "{reply}"
        );
    }
    assert!(rt; shared.spent(rt) == left);
}

/// Rotates the log, and hands its segment in to be freed. After that, these numbers of entries are left of the last two
/// segments.
fn spend<L: Ledger, R: Wait + Abort>(rt: &R, alloc: Global, shared: &Shared<L>, left: (u64, u64)) {
    let segment = shared.rotate(rt, alloc).ok().expect(rt, "memory");
    shared.spend(rt, segment);
    assert!(rt; shared.spent(rt) == left);
}

/// Each call frees one entry, of the earlier segment first. When a third segment is handed in, what is left of the first is
/// freed at once.
fn spend_three<L: Ledger, R: Wait + Abort>(rt: &R, alloc: Global, blank: Blank)
    requires name { blank.name ≡ L.name }
    requires parts { (blank.parts ≡ L.parts) × (L.parts ≡ 18446744073709551615) }
{
    let shared = opened::<L, R>(rt, alloc, 8, blank);
    let mut guest = guest(rt, alloc, &shared);
    look_on(rt, alloc, &shared, &mut guest, 4, (0, 0));
    spend(rt, alloc, &shared, (0, 4));
    look_on(rt, alloc, &shared, &mut guest, 2, (0, 2));
    spend(rt, alloc, &shared, (2, 2));
    look_on(rt, alloc, &shared, &mut guest, 1, (1, 2));
    spend(rt, alloc, &shared, (2, 1));
    look_on(rt, alloc, &shared, &mut guest, 2, (0, 1));
    look_on(rt, alloc, &shared, &mut guest, 1, (0, 0));
    look_on(rt, alloc, &shared, &mut guest, 1, (0, 0));
    drop(seat_of(guest));
}

#[test]
fn spent_entries_go_one_by_one(rt: HostRuntime) {
    spend_three::<Brand, _>(&rt, rt.alloc(), Blank::new(PARTS));
}
