//! Gives a log out, and begins the next one in the present state.

ghost use Rattle.std.specs.Prelude.{◌≡◌, IfErr, IfOk, OnErr};
ghost use Rattle.ns_types.specs.declared.refusal.Refusal.TheVariants as Refusal;
ghost use Rattle.ns_work_log.specs.Rotation.{IsRotated};

use crate::held::Held;
use ns_log::segments::Segment;
use ns_types::refusal::Refusal;
use std::alloc::Global;
use std::mem;
use std::snapshot::Snapshot;

impl Held {
    /// Gives out the log, and begins the next one in the present state. The next log has as much room as this one, so that it
    /// is not moved as it fills. Want of memory for that room is the only error. It is no step, and makes no entry.
    pub fn rotate(&mut self, alloc: Global) -> Result<Segment, Refusal>
        ensures rotated { IfOk result (λ segment. IsRotated self.old segment self.new) }
        ensures same { OnErr result (self.new ≡ self.old) }
        ensures memory { IfErr result (λ refusal. refusal ≡ Refusal.Memory) }
    {
        let Held {
            base,
            core,
            start,
            log,
            limit,
        } = self;
        let first = *start;
        let room = Vec::with_capacity(alloc, log.capacity())?;
        let given = mem::replace(log, room);
        *start = first + given.len() as u64;
        *limit = (*limit).min(u64::MAX - *start);
        *base = Snapshot::of(core);
        Ok(Segment::new(first, given))
    }
}
