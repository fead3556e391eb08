//! The gate that a worker passes between its steps, with no lock held.

ghost use Rattle.std.specs.Prelude.{◌≡◌, IfOk, IsOkUnless, IsTrue, OnOk, if◌then◌else◌};
ghost use Rattle.ns_types.specs.declared.refusal.Refusal.TheVariants.{Full, Memory};
ghost use Rattle.ns_schedule.specs.Fits.{fits};

use ns_schedule::plan;
use ns_types::planned::Planned;
use ns_types::refusal::Refusal;
use ns_types::shared::Shared;
use ns_types::snapshot::Snapshot;
use std::alloc::Global;

/// A step that a worker has made.
#[derive(Clone, Copy, PartialEq, Eq)]
pub enum Point {
    Took,
    Snapped,
    /// Its plan waits.
    Queued,
    Finished,
}

/// A gate that workers pass. Its calls come from several threads at once.
pub trait Gate {
    /// The gate lets every worker go on.
    ghost opens: { Self → Type 0 } = { λ _. ⊥ };

    /// The plan of the snapshot, as `ns_schedule` makes it.
    fn plan(
        &self,
        alloc: Global,
        worker: u64,
        snapshot: Shared<Snapshot>,
    ) -> Result<Planned, Refusal>
        ensures ok { IfOk result (λ planned. planned ≡ snapshot) }
        ensures fits { OnOk result (IsTrue (fits snapshot)) }
        ensures err { IsOkUnless result (if fits snapshot then Memory else Full) };

    /// Whether the worker goes on after this step.
    fn pass(&self, worker: u64, point: Point) -> bool
        ensures { opens self.now → IsTrue result };
}

/// A gate that is always open.
#[derive(Clone, Copy)]
pub struct Open;

impl Gate for Open {
    ghost opens = { λ _. Unit {0} };

    fn plan(
        &self,
        alloc: Global,
        _worker: u64,
        snapshot: Shared<Snapshot>,
    ) -> Result<Planned, Refusal> {
        plan(alloc, snapshot)
    }

    fn pass(&self, _worker: u64, _point: Point) -> bool {
        true
    }
}
