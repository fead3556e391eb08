// A server that threads share, whose log is empty.
ghost use Rattle.std.specs.Prelude.{◌≡◌};

use ns_core::Core;
use ns_log::receipts::SettleFault;
use ns_types::name::Secret;
use ns_work_lock::{Retains, Seat, SettledLog, Shared};
use ns_work_log::Held;
use std::alloc::Global;
use std::process::Abort;
use std::sync::ledger::{Blank, Ledger};

pub(crate) fn core(rt: &impl Abort, alloc: Global) -> Core {
    let root = Secret::read(alloc, "root").expect(rt, "memory");
    let root = root.expect(rt, "a secret");
    Core::new(alloc, &root).expect(rt, "memory")
}

/// A new server, whose log takes at most `limit` entries.
pub(crate) fn opened<L: Ledger, R: Abort>(
    rt: &R,
    alloc: Global,
    limit: u64,
    blank: Blank,
) -> Shared<L>
    requires name { blank.name ≡ L.name }
    requires parts { (blank.parts ≡ L.parts) × (L.parts ≡ 18446744073709551615) }
{
    Shared::new(Held::new(alloc, core(rt, alloc), limit), blank, None, None)
}

/// Settles the seats with the log of a server that `opened` made, and whose log was never rotated.
pub(crate) fn settle<L: Ledger, R: Abort>(
    rt: &R,
    alloc: Global,
    shared: Shared<L>,
    seats: Vec<Seat<L, Retains>>,
) -> Result<SettledLog, SettleFault>
    requires { L.parts ≡ 18446744073709551615 }
{
    let first = core(rt, alloc);
    shared.end().settle(alloc, seats, &first, Vec::new(alloc))
}
