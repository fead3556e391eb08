// A caller reads what it wrote: the read is a later step, and shows the write.
ghost use Rattle.std.specs.Prelude.{◌≡◌};

use crate::running::guest::{guest, look, register, seat_of, set_up};
use crate::running::server::opened;
use ns_log::receipts::Receipt;
use ns_work_lock::PARTS;
use std::alloc::Global;
use std::marker::Brand;
use std::process::Abort;
use std::sync::Wait;
use std::sync::ledger::{Blank, Ledger};

/// The job as the first write of its namespace leaves it.
const JOB: &str =
    "{\"Constraints\":[],\"CreateIndex\":1,\"ID\":\"a\",\"JobModifyIndex\":1,\"Namespace\":\"tb\",\"NodePool\":\"west\",\"Priority\":50,\"Status\":\"pending\",\"Stop\":false,\"TaskGroups\":[{\"Count\":1,\"EphemeralDisk\":{\"SizeMB\":300},\"Name\":\"g\",\"Tasks\":[{\"Name\":\"t\",\"Resources\":{\"CPU\":100,\"MemoryMB\":100}}]}],\"Type\":\"service\",\"Version\":0}";

/// Whether the last receipt is of a later step than the one before, and showed the job.
fn is_in_order(receipts: &[Receipt]) -> bool {
    match receipts {
        [.., write, read] => write.place < read.place && read.rendered.get().body.as_str() == JOB,
        _ => false,
    }
}

/// Whether a client that registers a job sees it after that.
fn reads_what_it_wrote<L: Ledger, R: Wait + Abort>(rt: &R, alloc: Global, blank: Blank) -> bool
    requires name { blank.name ≡ L.name }
    requires parts { (blank.parts ≡ L.parts) × (L.parts ≡ 18446744073709551615) }
{
    let shared = opened::<L, R>(rt, alloc, 100, blank);
    let mut guest = guest(rt, alloc, &shared);
    set_up(rt, alloc, &mut guest);
    drop(register(rt, alloc, &mut guest, "/v1/jobs?namespace=tb", "a"));
    let shown = look(rt, alloc, &mut guest, "/v1/job/a?namespace=tb");
    let seat = seat_of(guest);
    shown.as_str().ends_with(JOB) && is_in_order(seat.receipts())
}

#[test]
fn read_after_write(rt: HostRuntime) {
    let right = reads_what_it_wrote::<Brand, _>(&rt, rt.alloc(), Blank::new(PARTS));
    assert!(rt; right);
}
