//! What the driver of a worker keeps from one step to the next.

ghost use Rattle.std.specs.Prelude.{◌≡◌, IfErr, IfOk, Some};
ghost use Rattle.ns_driver.specs.Kept.{seen_of};
ghost use Rattle.ns_driver.specs.Working.{HasNoPlan};

use ns_schedule::plan;
use ns_types::planned::Planned;
use ns_types::refusal::Refusal;
use ns_types::shared::Shared;
use ns_types::snapshot::Snapshot;
use std::alloc::Global;

/// The last snapshot, or its plan once that was made.
#[derive(Drop)]
pub enum Kept {
    Nothing,
    Seen(Shared<Snapshot>),
    Planned(Planned),
}

impl Kept {
    /// The plan of the snapshot, which is made if it was not yet.
    fn made(&self, alloc: Global) -> Result<Planned, Refusal>
        ensures planned { IfOk result (λ planned. seen_of self.now ≡ Some planned) }
        ensures none { IfErr result (HasNoPlan (seen_of self.now)) }
    {
        match self {
            Kept::Nothing => Err(Refusal::Foreign),
            Kept::Seen(seen) => plan(alloc, seen.share()?),
            Kept::Planned(planned) => Ok(planned.share()?),
        }
    }

    /// The snapshot's plan, with one more owner. It is made if it was not made yet, and then kept. `Foreign`: no snapshot is
    /// kept. `Full`: a sum of the plan does not fit 64 bits. Else want of memory is the only error.
    pub(crate) fn planned(&mut self, alloc: Global) -> Result<Planned, Refusal>
        ensures same { seen_of self.new ≡ seen_of self.old }
        ensures planned { IfOk result (λ planned. seen_of self.old ≡ Some planned) }
        ensures none { IfErr result (HasNoPlan (seen_of self.old)) }
    {
        let planned = self.made(alloc)?;
        *self = Kept::Planned(planned.share()?);
        Ok(planned)
    }
}
