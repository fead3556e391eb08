//! Makes the steps of a whole log once more.

ghost use Rattle.std.specs.Prelude.{IfErr, IfOk, IsOkUnless, OnOk};
ghost use Rattle.ns_types.specs.State.Rows.{State};
ghost use Rattle.ns_json.specs.Replies.{IsKept};
ghost use Rattle.ns_replay.specs.declared.rerun.rerunning.RerunFault.TheVariants as RerunFault;
ghost use Rattle.ns_replay.specs.Rerunning.{IsRerunFault};

use crate::rerun::replying::fit;
use ns_core::Core;
use ns_log::Entry;
use std::alloc::{AllocError, Global};
use thiserror::Error;

/// Why entries are no run of a server.
#[derive(Clone, Copy, Debug, PartialEq, Eq, Error)]
pub enum RerunFault {
    /// The place of the first entry whose step the server does not make, or whose logged answer is not the server's.
    #[error("the log is no run at place {0}")]
    NotARun(u64),
    #[error("out of memory")]
    Memory,
}

impl From<AllocError> for RerunFault {
    ghost use Rattle.std.specs.Prelude.{◌≡◌};
    ghost use Rattle.ns_replay.specs.declared.rerun.rerunning.RerunFault.TheVariants.{Memory};

    ghost from_gives = { λ _ fault. fault ≡ Memory };

    fn from(_: AllocError) -> RerunFault {
        RerunFault::Memory
    }
}

/// Makes the steps of the entries, in their order. Each answer must be the logged one: the first that is not is the fault, and
/// no step after it is made. Want of memory is the only other error.
pub fn rerun(alloc: Global, core: &mut Core, entries: &[Entry]) -> Result<(), RerunFault>
    ensures made { OnOk result (IsKept core.old entries.now core.new) }
    ensures fault { IfErr result (IsRerunFault core.old entries.now) }
{
    for (place, entry) in entries.iter().enumerate() {
        if !fit(alloc, core, entry)? {
            return Err(RerunFault::NotARun(place as u64));
        }
    }
    Ok(())
}

/// Makes the steps of the entries on a copy of the server, and returns the copy. Each answer must be the logged one: the first
/// that is not is the fault. Want of memory is the only other error.
pub fn rerun_from(alloc: Global, first: &Core, entries: &[Entry]) -> Result<Core, RerunFault>
    ensures run { IfOk result (λ last. IsKept first.now entries.now last) }
    ensures a_run { (last : State) → IsKept first.now entries.now last
        → IsOkUnless result RerunFault.Memory }
    ensures fault { IfErr result (IsRerunFault first.now entries.now) }
{
    let mut core = first.copy(alloc)?;
    match rerun(alloc, &mut core, entries) {
        Ok(()) => Ok(core),
        Err(fault) => {
            drop(core);
            Err(fault)
        }
    }
}
